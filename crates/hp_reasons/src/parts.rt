//! The parts of a guarantee, and what is so of them at the last instant: the machine of the same program in which each other part `P` is `P or true`. It has the same slots, so the values of a play are values of its variables too.

use crate::error::WhyErr;
use crate::labels::add_text;
use crate::machine::add_gates;
use crate::names::Names;
use crate::page::Page;
use hp_abstract::{Abstraction, abstraction};
use hp_base::Name;
use hp_boolx::{BoolMachine, eval};
use hp_tree::{Const, Contract, Expr, ExprKind, Node, Op2, Program, copy_decls};
use std::alloc::{AllocError, Global};

fn add_part<'e>(part: &'e Expr, into: &mut Vec<&'e Expr>) -> Result<(), AllocError> {
    into.push(part)?;
    Ok(())
}

/// Adds the parts of a conjunction, from left to right.
fn add_parts<'e>(expr: &'e Expr, into: &mut Vec<&'e Expr>) -> Result<(), AllocError> {
    if let ExprKind::Two(Op2::And, a, b) = &*expr.kind {
        add_parts(a, into)?;
        return add_parts(b, into);
    }
    add_part(expr, into)
}

/// The parts of what a node enforces.
fn parts_of<'e>(alloc: Global, node: &'e Node) -> Result<Vec<&'e Expr>, AllocError> {
    let mut parts = Vec::new(alloc);
    if let Some(contract) = &node.contract
        && let Some(enforce) = &contract.enforce
    {
        add_parts(enforce, &mut parts)?;
    }
    Ok(parts)
}

/// Two expressions under an operator, at the place of the first.
fn joined(alloc: Global, op: Op2, a: Expr, b: Expr) -> Result<Expr, AllocError> {
    let span = a.span;
    Expr::new(alloc, span, ExprKind::Two(op, a, b))
}

/// The expression, or one that is always true and reads as much.
fn kept_if(alloc: Global, is_kept: bool, expr: &Expr) -> Result<Expr, AllocError> {
    let copy = expr.copy(alloc)?;
    if is_kept {
        return Ok(copy);
    }
    let always = Expr::new(alloc, expr.span, ExprKind::Const(Const::B(true)))?;
    joined(alloc, Op2::Or, copy, always)
}

/// The conjunction of the parts, of which only the one at this place may be false.
fn only(alloc: Global, parts: &[&Expr], place: usize) -> Result<Option<Expr>, AllocError> {
    let mut all = None;
    for i in 0..parts.len() {
        let part = kept_if(alloc, i == place, parts[i])?;
        all = Some(match all {
            None => part,
            Some(before) => joined(alloc, Op2::And, before, part)?,
        });
    }
    Ok(all)
}

/// A copy of what a contract says, with another guarantee.
fn with_guarantee(
    alloc: Global,
    contract: &Contract,
    enforce: Option<Expr>,
) -> Result<Contract, AllocError> {
    let assume = match &contract.assume {
        None => None,
        Some(assume) => Some(assume.copy(alloc)?),
    };
    Ok(Contract {
        body: contract.body.copy(alloc)?,
        assume,
        enforce,
        controls: copy_decls(alloc, &contract.controls)?,
        span: contract.span,
    })
}

/// A copy of a node, with another guarantee.
fn copy_node(alloc: Global, node: &Node, enforce: Option<Expr>) -> Result<Node, AllocError> {
    let contract = match &node.contract {
        None => None,
        Some(contract) => Some(with_guarantee(alloc, contract, enforce)?),
    };
    Ok(Node {
        name: node.name.copy(alloc)?,
        span: node.span,
        inputs: copy_decls(alloc, &node.inputs)?,
        outputs: copy_decls(alloc, &node.outputs)?,
        contract,
        body: node.body.copy(alloc)?,
    })
}

/// The last instant of a play of the machine of a node, of which is asked what else holds there.
#[derive(Clone, Copy)]
pub struct Probe<'p> {
    pub alloc: Global,
    program: &'p Program,
    node: &'p Node,
    machine: &'p BoolMachine,
    values: &'p [bool],
}

/// The value of a gate, where variables have these values; none where they are not those of the machine.
fn gate_at(
    alloc: Global,
    m: &BoolMachine,
    gate: usize,
    values: &[bool],
) -> Result<Option<bool>, AllocError> {
    if values.len() != usize::from(m.vars()) {
        return Ok(None);
    }
    let mut gates = vec![in alloc; false; m.gates.len()]?;
    eval(m, values, &mut gates);
    Ok(gates.get(gate).copied())
}

impl<'p> Probe<'p> {
    pub fn new(
        alloc: Global,
        program: &'p Program,
        node: &'p Node,
        machine: &'p BoolMachine,
        values: &'p [bool],
    ) -> Probe<'p> {
        Probe {
            alloc,
            program,
            node,
            machine,
            values,
        }
    }

    /// The machine of the node with another guarantee in the place of its own; none where it has other slots.
    fn made(&self, enforce: Option<Expr>) -> Result<Option<Abstraction>, WhyErr> {
        let copy = copy_node(self.alloc, self.node, enforce)?;
        let made = abstraction(self.alloc, self.program, &copy)?;
        let machine = self.machine;
        if made.machine.counts == machine.counts {
            Ok(Some(made))
        } else {
            Ok(None)
        }
    }

    /// Whether the guarantee of such a machine holds.
    fn holds(&self, made: &Abstraction) -> Result<Option<bool>, AllocError> {
        gate_at(self.alloc, &made.machine, made.enforce, self.values)
    }

    /// Adds a part of the guarantee, with the gates of which the last one that is named says whether it holds. It says whether it does at the instant.
    fn add_part(
        &self,
        names: &Names,
        part: &Expr,
        made: &Abstraction,
        page: &mut Page,
    ) -> Result<Option<bool>, AllocError> {
        let holds = self.holds(made)?;
        page.begin(b"part")?;
        add_text(names, part, page)?;
        page.word(if holds == Some(false) { b"0" } else { b"1" })?;
        page.end()?;
        add_gates(&made.machine.gates, page)?;
        page.begin(b"holds")?;
        page.number(made.enforce)?;
        page.end()?;
        Ok(holds)
    }

    /// Adds a part of the guarantee, where this is the guarantee in which no other part may be false. It says whether the part is false at the instant.
    fn is_false(
        &self,
        names: &Names,
        part: &Expr,
        enforce: Option<Expr>,
        page: &mut Page,
    ) -> Result<bool, WhyErr> {
        match self.made(enforce)? {
            None => Ok(false),
            Some(made) => Ok(self.add_part(names, part, &made, page)? == Some(false)),
        }
    }

    /// Adds the parts of the guarantee, and gives those that are false.
    pub fn add_parts(&self, names: &Names, page: &mut Page) -> Result<Vec<&'p Expr>, WhyErr> {
        let parts = parts_of(self.alloc, self.node)?;
        let mut found = Vec::new(self.alloc);
        for i in 0..parts.len() {
            let enforce = only(self.alloc, &parts, i)?;
            if self.is_false(names, parts[i], enforce, page)? {
                add_part(parts[i], &mut found)?;
            }
        }
        Ok(found)
    }

    /// The value of a truth value that the guarantee can read.
    pub fn value(&self, guarantee: &Expr, name: &Name) -> Result<Option<bool>, WhyErr> {
        let whole = kept_if(self.alloc, false, guarantee)?;
        let name = name.copy(self.alloc)?;
        let read = Expr::new(self.alloc, guarantee.span, ExprKind::Name(name))?;
        let enforce = joined(self.alloc, Op2::And, whole, read)?;
        match self.made(Some(enforce))? {
            None => Ok(None),
            Some(made) => Ok(self.holds(&made)?),
        }
    }
}
