ghost use Rattle.std.specs.Prelude.{◌≡◌, ◌≤◌, IfSome, IfNone};
ghost use Rattle.hp_diagram.specs.Diagrams.{ordered, turned, where_false, where_true, Picks};

use crate::reference::{Ref, one, zero};

/// What is g where f is true, and h elsewhere?
#[derive(Clone, Copy, Debug, PartialEq, Eq, Hash)]
pub(crate) struct Question {
    pub f: Ref,
    pub g: Ref,
    pub h: Ref,
}

/// A question that falls into two: where the variable is false, and where it is true.
#[derive(Clone, Copy)]
pub(crate) struct Split {
    pub var: u16,
    pub low: Question,
    pub high: Question,
}

/// What g is where f is true.
fn where_true(f: Ref, g: Ref) -> Ref
    ensures { result ≡ where_true f g }
{
    if g.index == f.index { one() } else { g }
}

/// What h is where f is false.
fn where_false(f: Ref, h: Ref) -> Ref
    ensures { result ≡ where_false f h }
{
    if h.index == f.index { zero() } else { h }
}

impl Question {
    /// The question under which the answer is kept.
    pub(crate) fn ordered(f: Ref, g: Ref, h: Ref) -> Question
        ensures { result ≡ ordered f g h }
    {
        Question::turned(f, where_true(f, g), where_false(f, h))
    }

    /// The question in one order.
    fn turned(f: Ref, g: Ref, h: Ref) -> Question
        ensures { result ≡ turned f g h }
    {
        if h.index == 0 && g.index < f.index {
            Question { f: g, g: f, h }
        } else if g.index == 1 && h.index < f.index {
            Question { f: h, g, h: f }
        } else {
            Question { f, g, h }
        }
    }
}

/// The answer that is seen from the references alone.
pub(crate) fn plain_answer(f: Ref, g: Ref, h: Ref) -> Option<Ref>
    ensures picks { IfSome result (Picks f g h) }
    ensures node { IfNone result (2 ≤ f.index) }
{
    if f.index == 1 || g == h {
        Some(g)
    } else if f.index == 0 {
        Some(h)
    } else if (g.index == 1 || g == f) && (h.index == 0 || h == f) {
        Some(f)
    } else {
        None
    }
}
