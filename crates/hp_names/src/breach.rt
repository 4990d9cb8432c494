ghost use Rattle.std.specs.Prelude.{◌≡◌, [], ◌∷◌};
ghost use Rattle.hp_names.specs.Breaches.{found_after};
ghost use Rattle.hp_names.specs.Claims.{uses, declares};

use crate::names::Names;
use hp_base::first::{Placed, note};
use hp_base::{Name, Span};
use std::marker::Model;

/// How a name breaks the rules.
#[derive(Clone, Copy, Debug, PartialEq, Eq)]
pub enum Fault {
    /// It is used where it is not known.
    Unknown,
    /// It is declared where it is known already.
    Twice,
}

/// A name that breaks the rules.
#[derive(Drop)]
pub struct Breach<'a> {
    pub fault: Fault,
    pub name: &'a Name,
    pub at: Span,
}

impl<'a> Model for Breach<'a> {
    ghost use Rattle.hp_names.specs.Breaches.{Breach};

    ghost Value = { Breach };

    ghost view = { λ b. record { fault = b.fault; name = b.name.now; at = b.at } };
}

impl<'a> Placed for Breach<'a> {
    ghost use Rattle.hp_names.specs.Breaches.{place_of};

    ghost place = { place_of };

    fn at(&self) -> Span {
        self.at
    }
}

/// A name that is used has to be one of those that are known.
#[tactic(auto, unfolding(crate::specs::Breaches::found_after))]
pub fn use_name<'a>(found: &mut Option<Breach<'a>>, names: &Names<'a>, name: &'a Name, at: Span)
    ensures { found.new ≡ found_after found.old (uses names.now name.now at ∷ []) }
{
    if !names.has(name) {
        let fault = Fault::Unknown;
        note(found, Breach { fault, name, at });
    }
}

/// A name that is declared has to be none of them.
#[tactic(auto, unfolding(crate::specs::Breaches::found_after))]
pub fn declare_name<'a>(found: &mut Option<Breach<'a>>, names: &Names<'a>, name: &'a Name, at: Span)
    ensures { found.new ≡ found_after found.old (declares names.now name.now at ∷ []) }
{
    if names.has(name) {
        let fault = Fault::Twice;
        note(found, Breach { fault, name, at });
    }
}
