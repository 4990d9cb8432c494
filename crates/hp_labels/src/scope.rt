//! The types of the names of a node.

use crate::declared::{Declared, values_of_type};
use crate::label::Values;
use hp_base::{Name, Ty};
use hp_tables::declarations::Table;
use hp_tree::{Decl, Expr, ExprKind, Op2};
use std::alloc::{AllocError, Global};

/// The types of the names that a walk has met. No name of an inner block is one of an outer block, so those of blocks that were left need not go.
#[derive(Drop)]
pub struct Scope<'a> {
    types: Table<'a, &'a Ty>,
}

/// Whether an operator compares its operands.
fn compares(op: Op2) -> bool {
    matches!(
        op,
        Op2::Eq | Op2::Ne | Op2::Lt | Op2::Le | Op2::Gt | Op2::Ge
    )
}

impl<'a> Scope<'a> {
    pub fn new(alloc: Global) -> Scope<'a> {
        Scope {
            types: Table::new(alloc),
        }
    }

    /// Adds the names of declarations.
    pub fn add(&mut self, decls: &'a [Decl]) -> Result<(), AllocError> {
        for decl in decls {
            self.types.put(decl.name.bytes(), &decl.ty)?;
        }
        Ok(())
    }

    /// The values of a name; none where it is an integer.
    fn values_of_name(&self, declared: &Declared<'a>, name: &Name) -> Option<Values<'a>> {
        match self.types.find(name.bytes()) {
            None => Some(Values::Truth),
            Some(ty) => values_of_type(declared, ty),
        }
    }

    /// The values of an operator of two operands; none where it is an integer.
    fn values_of_two(op: Op2) -> Option<Values<'a>> {
        match op {
            Op2::Add | Op2::Sub | Op2::Mul | Op2::Div | Op2::Rem => None,
            _ => Some(Values::Truth),
        }
    }

    /// The values of an expression; none where it is an integer.
    pub fn values(&self, declared: &Declared<'a>, expr: &Expr) -> Option<Values<'a>> {
        match &*expr.kind {
            ExprKind::Const(constant) => declared.values_of_constant(constant),
            ExprKind::Name(name) | ExprKind::Last(name) => self.values_of_name(declared, name),
            ExprKind::Two(op, _, _) => Scope::values_of_two(*op),
            ExprKind::One(_, a)
            | ExprKind::If(_, a, _)
            | ExprKind::Pre(a)
            | ExprKind::Fby(a, _)
            | ExprKind::Arrow(a, _)
            | ExprKind::When(a, _, _) => self.values(declared, a),
            ExprKind::Merge(_, parts) => match parts.get(0) {
                None => Some(Values::Truth),
                Some((_, a)) => self.values(declared, a),
            },
            ExprKind::Call {
                node,
                inlined: _,
                args: _,
            } => declared.values_of_call(node),
        }
    }

    /// Whether an operator compares integers, by its first operand.
    pub fn compares_integers(&self, declared: &Declared<'a>, op: Op2, a: &Expr) -> bool {
        compares(op) && self.values(declared, a).is_none()
    }
}
