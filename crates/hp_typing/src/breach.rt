ghost use Rattle.std.specs.Prelude.{◌≡◌, [], ◌∷◌};
ghost use Rattle.hp_typing.specs.Types.{agrees};
ghost use Rattle.hp_typing.specs.Claims.{wants, tested, in_choice};
ghost use Rattle.hp_typing.specs.Seen.{kind_told, shape_seen};
ghost use Rattle.hp_typing.specs.Breaches.{found_after};

use crate::kind::{Constructor, Kind, Shape};
use hp_base::first::{Placed, note};
use hp_base::{Name, Span};
use std::marker::Model;

/// How a place breaks the rules.
#[derive(Clone, Copy)]
pub enum Fault<'a> {
    /// What is wanted, and what is found.
    Wrong(Shape<'a>, Shape<'a>),
    /// The name has no equation.
    Undefined(&'a Name),
    /// The name has two equations in one block, or one where it may have none.
    Twice(&'a Name),
    /// The name is not defined in each block of a control equation.
    Branch(&'a Name),
    /// The constructor is lacking or repeated.
    NotOnce(Constructor<'a>),
}

/// A place that breaks the rules.
#[derive(Drop)]
pub struct Breach<'a> {
    pub at: Span,
    pub fault: Fault<'a>,
}

impl<'a> Model for Breach<'a> {
    ghost use Rattle.hp_typing.specs.Breaches.{Breach};

    ghost Value = { Breach };

    ghost use Rattle.hp_typing.specs.BreachView.{breach_seen};

    ghost view = { breach_seen };
}

impl<'a> Placed for Breach<'a> {
    ghost use Rattle.hp_typing.specs.Breaches.{place_of};

    ghost place = { place_of };

    fn at(&self) -> Span {
        self.at
    }
}

/// What is found has to be what is wanted.
#[tactic(auto, unfolding(crate::specs::Breaches::found_after))]
pub fn want_shape<'a>(found: &mut Option<Breach<'a>>, at: Span, wanted: Shape<'a>, is: Shape<'a>)
    ensures { found.new ≡ found_after found.old (wants at (shape_seen wanted.entry) (shape_seen is.entry) ∷ []) }
{
    if !wanted.same(is) {
        let fault = Fault::Wrong(wanted, is);
        note(found, Breach { at, fault });
    }
}

/// The type that is found, if any, has to be the one that is wanted, if any. Whether there are both, and they are the same.
#[tactic(auto, using(crate::proofs::Rules::found))]
pub fn want<'a>(
    found: &mut Option<Breach<'a>>,
    at: Span,
    wanted: Option<Kind<'a>>,
    is: Option<Kind<'a>>,
) -> bool
    ensures agrees { result ≡ agrees (kind_told wanted.entry) (kind_told is.entry) }
    ensures found { found.new ≡ found_after found.old (tested at (kind_told wanted.entry) (kind_told is.entry)) }
{
    match (wanted, is) {
        (Some(wanted), Some(is)) => {
            want_shape(found, at, Shape::Type(wanted), Shape::Type(is));
            wanted.same(is)
        }
        _ => false,
    }
}

/// What a `switch` or a `merge` is over has to be no integer.
#[tactic(auto, using(crate::proofs::Rules::found))]
pub fn want_choice<'a>(found: &mut Option<Breach<'a>>, at: Span, is: Option<Kind<'a>>)
    ensures { found.new ≡ found_after found.old (in_choice at (kind_told is.entry)) }
{
    if let Some(Kind::Int) = is {
        want_shape(found, at, Shape::Type(Kind::Bool), Shape::Type(Kind::Int));
    }
}
