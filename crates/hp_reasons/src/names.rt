//! Names and labels as they are shown.

use crate::page::add_place;
use crate::source::Source;
use hp_base::{Name, Span};
use hp_labels::{Label, Subject, Values};
use hp_tables::declarations::{Table, nodes_of};
use hp_tree::{Eqn, Expr, ExprKind, Node, Program, State};
use std::alloc::{AllocError, Global};

/// The most bytes of an expression that is quoted.
pub const QUOTED: usize = 60;

/// How the variables of a node are shown: those that inlining made have the name of the output that is a copy of them, if there is one.
#[derive(Drop)]
pub struct Names<'a> {
    pub source: Source<'a>,
    pub nodes: Table<'a, &'a Node>,
    shown: Table<'a, &'a Name>,
}

/// Whether inlining made the name.
fn is_made(name: &Name) -> bool {
    for byte in name.bytes() {
        if *byte == b'$' {
            return true;
        }
    }
    false
}

/// The name that an expression is.
fn name_of(expr: &Expr) -> Option<&Name> {
    match &*expr.kind {
        ExprKind::Name(name) => Some(name),
        _ => None,
    }
}

/// Keeps the first of two names for the second, if inlining made the second alone.
fn put_shown<'a>(
    name: &'a Name,
    made: &'a Name,
    shown: &mut Table<'a, &'a Name>,
) -> Result<(), AllocError> {
    if is_made(made) && !is_made(name) {
        shown.put(made.bytes(), name)?;
    }
    Ok(())
}

/// Looks at an equation of the body itself: where it makes one variable a copy of another one, they are shown alike.
fn add_copy<'a>(eqn: &'a Eqn, shown: &mut Table<'a, &'a Name>) -> Result<(), AllocError> {
    let Eqn::Def {
        span: _,
        names,
        right,
    } = eqn
    else {
        return Ok(());
    };
    let Some((left, _)) = names.get(0) else {
        return Ok(());
    };
    let Some(right) = name_of(right) else {
        return Ok(());
    };
    put_shown(left, right, shown)?;
    put_shown(right, left, shown)
}

/// The first name that an automaton defines.
fn first_defined<'a>(states: &'a [State]) -> Option<&'a Name> {
    for state in states {
        for eqn in &state.body.eqns {
            if let Eqn::Def {
                span: _,
                names,
                right: _,
            } = eqn
                && let Some((name, _)) = names.get(0)
            {
                return Some(name);
            }
        }
    }
    None
}

impl<'a> Names<'a> {
    pub fn new(
        alloc: Global,
        text: &'a [u8],
        program: &'a Program,
        node: &'a Node,
    ) -> Result<Names<'a>, AllocError> {
        let mut shown = Table::new(alloc);
        for eqn in &node.body.eqns {
            add_copy(eqn, &mut shown)?;
        }
        Ok(Names {
            source: Source::new(alloc, text)?,
            nodes: nodes_of(alloc, &program.items)?,
            shown,
        })
    }

    /// Adds a name. One that inlining made and that no other stands for has a `#` before its number.
    pub fn add_name(&self, name: &Name, into: &mut Vec<u8>) -> Result<(), AllocError> {
        if let Some(name) = self.shown.find(name.bytes()) {
            return into.extend_from_slice(name.bytes());
        }
        for byte in name.bytes() {
            into.push(if *byte == b'$' { b'#' } else { *byte })?;
        }
        Ok(())
    }

    /// Adds the text at a place, quoted.
    pub fn add_quoted(&self, span: Span, into: &mut Vec<u8>) -> Result<(), AllocError> {
        into.push(b'`')?;
        self.source.add(span, QUOTED, into)?;
        into.push(b'`')?;
        Ok(())
    }

    /// Adds what an operand was at the instant before: by its name, by that whose whole equation this is, or by its text.
    fn add_previous(
        &self,
        operand: &Expr,
        name: Option<&Name>,
        into: &mut Vec<u8>,
    ) -> Result<(), AllocError> {
        if let Some(operand) = name_of(operand) {
            into.extend_from_slice(b"previous ")?;
            return self.add_name(operand, into);
        }
        if let Some(name) = name {
            return self.add_name(name, into);
        }
        into.extend_from_slice(b"previous ")?;
        self.add_quoted(operand.span, into)
    }

    /// Adds an automaton: its place, and the first name that it defines.
    fn add_automaton(&self, label: &Label<'a>, into: &mut Vec<u8>) -> Result<(), AllocError> {
        into.extend_from_slice(b"automaton ")?;
        add_place(label.span, into)?;
        if let Values::States(states) = label.values
            && let Some(name) = first_defined(states)
        {
            into.extend_from_slice(b" (")?;
            self.add_name(name, into)?;
            into.push(b')')?;
        }
        Ok(())
    }

    fn add_subject(&self, label: &Label<'a>, into: &mut Vec<u8>) -> Result<(), AllocError> {
        match label.subject {
            Subject::Input(decl) | Subject::Control(decl) => self.add_name(&decl.name, into),
            Subject::Last(decl) => {
                into.extend_from_slice(b"last ")?;
                self.add_name(&decl.name, into)
            }
            Subject::Comparison(expr) => {
                self.add_quoted(expr.span, into)?;
                into.push(b'@')?;
                add_place(expr.span, into)
            }
            Subject::Output {
                node,
                output,
                name: None,
            } => {
                self.add_name(node, into)?;
                into.extend_from_slice(b"'s ")?;
                self.add_name(&output.name, into)
            }
            Subject::Output {
                node: _,
                output: _,
                name: Some(name),
            } => self.add_name(name, into),
            Subject::Previous { operand, name } => self.add_previous(operand, name, into),
            Subject::Past => into.extend_from_slice(b"behind the first instant"),
            Subject::State => self.add_automaton(label, into),
            Subject::Afresh => {
                self.add_automaton(label, into)?;
                into.extend_from_slice(b" to be entered afresh")
            }
        }
    }

    /// Adds what a slot is called. What stands in the contract of a called node is told by the call.
    pub fn add_label(&self, label: &Label<'a>, into: &mut Vec<u8>) -> Result<(), AllocError> {
        let Some(call) = label.call else {
            return self.add_subject(label, into);
        };
        self.add_name(call.node, into)?;
        into.extend_from_slice(b"'s ")?;
        self.add_subject(label, into)?;
        into.extend_from_slice(b" (call at ")?;
        add_place(call.span, into)?;
        into.push(b')')?;
        Ok(())
    }
}
