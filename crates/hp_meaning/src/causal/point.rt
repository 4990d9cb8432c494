ghost use Rattle.std.specs.Prelude.{◌≡◌, ◌↔◌, IsTrue, IfOk};

use hp_base::{Name, Span};
use std::alloc::{AllocError, Global};

/// What a point of a node is.
#[derive(Clone, Copy, Debug, PartialEq, Eq)]
pub enum PointKind {
    /// The definition of a name by an equation, or a controllable variable.
    Def,
    /// The active word of an automaton.
    Active,
    /// The next word of an automaton.
    Next,
    /// The condition of a transition.
    Cond,
    /// A call.
    Call,
}

/// A point of a node: what stands in an order of reads. It is called by the name that it defines, by the node that it
/// calls, or by `active`, `next` or `cond`.
#[derive(Debug, Drop)]
pub struct Point {
    pub kind: PointKind,
    pub name: Name,
    /// The place of a name on the left side of an equation, or the first token of a control equation, a condition or a call.
    pub span: Span,
}

impl Point {
    pub fn copy(&self, alloc: Global) -> Result<Point, AllocError>
        ensures { IfOk result (λ point. point ≡ self.now) }
    {
        Ok(Point {
            kind: self.kind,
            name: self.name.copy(alloc)?,
            span: self.span,
        })
    }

    /// Whether the two are the same point, at the same place.
    pub fn same(&self, other: &Point) -> bool
        ensures { IsTrue result ↔ (self.now ≡ other.now) }
    {
        self.kind == other.kind && self.name.same(&other.name) && self.span == other.span
    }
}
