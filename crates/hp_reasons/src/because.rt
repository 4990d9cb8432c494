//! Why a part of a guarantee is false: the truth values that it reads, each with its equation, and those that these read.

use crate::error::WhyErr;
use crate::labels::add_text;
use crate::names::Names;
use crate::page::Page;
use crate::parts::Probe;
use hp_base::{Ty, is_word_part};
use hp_tables::declarations::Table;
use hp_tree::{Decl, Eqn, Expr, Node, controls_of};
use std::alloc::{AllocError, Global};

/// The most values that are told.
const LINES: usize = 14;

/// The most words that are looked at.
const WORDS: usize = 200;

/// The truth values that a contract sees: inputs, and what equations of the contract and of the body itself define.
#[derive(Drop)]
struct Sights<'a> {
    decls: Table<'a, &'a Decl>,
    rights: Table<'a, &'a Expr>,
    /// What the body declares: of a variable of the contract with such a name nothing is told.
    hidden: Table<'a, &'a Decl>,
}

/// Whether names behind this word are not read at the instant itself.
fn is_past(word: &[u8]) -> bool {
    matches!(word, b"pre" | b"fby" | b"last" | b"inlined")
}

/// The names that a text has before the first word behind which they are not read at the instant itself.
fn add_words<'s>(text: &'s [u8], into: &mut Vec<&'s [u8]>) -> Result<(), AllocError> {
    let mut from = 0;
    for i in 0..text.len() {
        if !is_word_part(text[i]) {
            if from < i && is_past(&text[from..i]) {
                return Ok(());
            }
            if from < i {
                into.push(&text[from..i])?;
            }
            from = i + 1;
        }
    }
    if from < text.len() {
        into.push(&text[from..])?;
    }
    Ok(())
}

impl<'a> Sights<'a> {
    fn add_decls(&mut self, decls: &'a [Decl]) -> Result<(), AllocError> {
        for decl in decls {
            if let Ty::Bool = decl.ty {
                self.decls.put(decl.name.bytes(), decl)?;
            }
        }
        Ok(())
    }

    fn hide(&mut self, decls: &'a [Decl]) -> Result<(), AllocError> {
        for decl in decls {
            self.hidden.put(decl.name.bytes(), decl)?;
        }
        Ok(())
    }

    /// The truth value of a name that is told of.
    fn find(&self, name: &[u8]) -> Option<&'a Decl> {
        match self.hidden.find(name) {
            None => self.decls.find(name),
            Some(_) => None,
        }
    }

    fn add_rights(&mut self, eqns: &'a [Eqn]) -> Result<(), AllocError> {
        for eqn in eqns {
            if let Eqn::Def {
                span: _,
                names,
                right,
            } = eqn
                && let [(name, _)] = names.as_slice()
            {
                self.rights.put(name.bytes(), right)?;
            }
        }
        Ok(())
    }

    fn of(alloc: Global, node: &'a Node) -> Result<Sights<'a>, AllocError> {
        let mut sights = Sights {
            decls: Table::new(alloc),
            rights: Table::new(alloc),
            hidden: Table::new(alloc),
        };
        sights.hide(&node.body.locals)?;
        sights.hide(controls_of(&node.contract))?;
        sights.add_decls(&node.inputs)?;
        sights.add_decls(&node.outputs)?;
        sights.add_rights(&node.body.eqns)?;
        if let Some(contract) = &node.contract {
            sights.add_decls(&contract.body.locals)?;
            sights.add_rights(&contract.body.eqns)?;
        }
        Ok(sights)
    }
}

/// What a reason is told by.
#[derive(Clone, Copy)]
pub struct Cause<'c, 'a> {
    names: &'c Names<'a>,
    probe: Probe<'c>,
    guarantee: &'c Expr,
}

/// The words that are looked at, and the names that were told.
#[derive(Drop)]
struct Queue<'a> {
    words: Vec<&'a [u8]>,
    told: Table<'a, usize>,
    count: usize,
}

impl<'c, 'a> Cause<'c, 'a> {
    pub fn new(names: &'c Names<'a>, probe: Probe<'c>, guarantee: &'c Expr) -> Cause<'c, 'a> {
        Cause {
            names,
            probe,
            guarantee,
        }
    }

    /// Adds a truth value with its equation. One that has none is an input, or is defined in an inner block.
    fn add_value(
        &self,
        decl: &'a Decl,
        right: Option<&'a Expr>,
        value: bool,
        page: &mut Page,
    ) -> Result<(), AllocError> {
        page.begin(b"because")?;
        page.tab()?;
        self.names.add_name(&decl.name, &mut page.text)?;
        page.word(if value { b"true" } else { b"false" })?;
        if let Some(right) = right {
            add_text(self.names, right, page)?;
        }
        page.end()
    }

    /// Tells a truth value, and looks at the words of its equation later.
    fn tell(
        &self,
        sights: &Sights<'a>,
        decl: &'a Decl,
        queue: &mut Queue<'a>,
        page: &mut Page,
    ) -> Result<(), WhyErr> {
        queue.told.put(decl.name.bytes(), 0)?;
        let Some(value) = self.probe.value(self.guarantee, &decl.name)? else {
            return Ok(());
        };
        queue.count = queue.count.saturating_add(1);
        let right = sights.rights.find(decl.name.bytes());
        self.add_value(decl, right, value, page)?;
        if let Some(right) = right {
            add_words(self.names.source.bytes(right.span), &mut queue.words)?;
        }
        Ok(())
    }

    /// Adds the truth values that false parts of the guarantee read, and those that the equations of these read.
    pub fn add(&self, node: &'a Node, parts: &[&Expr], page: &mut Page) -> Result<(), WhyErr> {
        let alloc = self.probe.alloc;
        let sights = Sights::of(alloc, node)?;
        let mut queue = Queue {
            words: Vec::new(alloc),
            told: Table::new(alloc),
            count: 0,
        };
        for part in parts {
            add_words(self.names.source.bytes(part.span), &mut queue.words)?;
        }
        for place in 0..WORDS {
            let Some(word) = queue.words.get(place).copied() else {
                break;
            };
            if queue.count < LINES
                && queue.told.find(word).is_none()
                && let Some(decl) = sights.find(word)
            {
                self.tell(&sights, decl, &mut queue, page)?;
            }
        }
        Ok(())
    }
}
