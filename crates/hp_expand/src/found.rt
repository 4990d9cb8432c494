//! What breaks the shapes of contracts, and which of it stands first in the text.
ghost use Rattle.std.specs.Prelude.{◌≡◌, [], ◌∷◌};
ghost use Rattle.hp_expand.specs.Shapes.{nothing, plain_at, bound_at, integer_at, found_after, breach_at, breach_among};

use crate::error::Shape;
use hp_base::Span;
use hp_base::first::{Placed, note, note_all};

/// The first places in the text, of each kind.
#[derive(Clone, Copy, Debug)]
pub struct Found {
    /// Of plain calls.
    pub plain: Option<Span>,
    /// Of inlined calls of nodes with a contract.
    pub bound: Option<Span>,
    /// Of controllable variables that are integers.
    pub integer: Option<Span>,
}

/// A shape that is broken at a place.
#[derive(Clone, Copy, Debug)]
pub struct Breach {
    pub shape: Shape,
    pub at: Span,
}

impl Placed for Breach {
    ghost use Rattle.hp_expand.specs.Shapes.{place_of};

    ghost place = { place_of };

    fn at(&self) -> Span {
        self.at
    }
}

impl Found {
    pub fn nothing() -> Found
        ensures { result ≡ nothing }
    {
        Found {
            plain: None,
            bound: None,
            integer: None,
        }
    }

    #[tactic(auto, unfolding(crate::specs::Shapes::found_after))]
    pub fn see_plain(&mut self, at: Span)
        ensures { self.new ≡ found_after self.old (plain_at at ∷ []) }
    {
        note(&mut self.plain, at);
    }

    #[tactic(auto, unfolding(crate::specs::Shapes::found_after))]
    pub fn see_bound(&mut self, at: Span)
        ensures { self.new ≡ found_after self.old (bound_at at ∷ []) }
    {
        note(&mut self.bound, at);
    }

    #[tactic(auto, unfolding(crate::specs::Shapes::found_after))]
    pub fn see_integer(&mut self, at: Span)
        ensures { self.new ≡ found_after self.old (integer_at at ∷ []) }
    {
        note(&mut self.integer, at);
    }
}

fn breach_at(shape: Shape, place: Option<Span>) -> Option<Breach>
    ensures { result ≡ breach_at shape place }
{
    match place {
        None => None,
        Some(at) => Some(Breach { shape, at }),
    }
}

/// The first breach of a node whose contract and body have these first.
#[tactic(auto, unfolding(crate::specs::Shapes::breach_among))]
pub fn breach_among(contract: Found, body: Found) -> Option<Breach>
    ensures { result ≡ breach_among contract body }
{
    let mut first = breach_at(Shape::Call, contract.plain);
    note_all(&mut first, breach_at(Shape::Inline, contract.bound));
    let mut other = breach_at(Shape::WrongType, contract.integer);
    note_all(&mut other, breach_at(Shape::Inline, body.bound));
    note_all(&mut first, other);
    first
}
