//! Labels of slots.

use hp_base::{Name, Span};
use hp_tree::{Decl, Expr, State};

/// The values that a slot may have.
#[derive(Clone, Copy)]
pub enum Values<'a> {
    Truth,
    /// The constructors of a type, in order.
    Constructors(&'a [Name]),
    /// The states of an automaton, in order.
    States(&'a [State]),
}

/// What a slot is.
#[derive(Clone, Copy)]
pub enum Subject<'a> {
    Input(&'a Decl),
    Control(&'a Decl),
    /// What a variable that is declared with `last` held at the instant before.
    Last(&'a Decl),
    /// A comparison of integers, which is free in the game.
    Comparison(&'a Expr),
    /// An output of a called node, and the name that the equation of the call gives it.
    Output {
        node: &'a Name,
        output: &'a Decl,
        name: Option<&'a Name>,
    },
    /// What an operand of `pre` or `fby` was at the instant before, and the name whose whole equation this is.
    Previous {
        operand: &'a Expr,
        name: Option<&'a Name>,
    },
    /// Whether an operator of first values has a past.
    Past,
    /// The state in which an automaton goes on.
    State,
    /// Whether that state is entered afresh.
    Afresh,
}

/// A call, by the node that is called and its place.
#[derive(Clone, Copy)]
pub struct Call<'a> {
    pub node: &'a Name,
    pub span: Span,
}

/// What a slot of a node stands for.
#[derive(Clone, Copy)]
pub struct Label<'a> {
    pub subject: Subject<'a>,
    pub values: Values<'a>,
    pub span: Span,
    /// The call in whose contract it stands.
    pub call: Option<Call<'a>>,
}

impl<'a> Label<'a> {
    pub fn new(subject: Subject<'a>, values: Values<'a>, span: Span) -> Label<'a> {
        Label {
            subject,
            values,
            span,
            call: None,
        }
    }

    /// The same in the contract of a node that is called.
    pub fn within(self, call: Call<'a>) -> Label<'a> {
        Label {
            call: Some(call),
            ..self
        }
    }
}
