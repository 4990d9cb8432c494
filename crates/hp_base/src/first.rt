//! Which of the things that are found in a text stands first in it.
#![tactic(auto)]

ghost use Rattle.std.specs.Prelude.{◌≡◌};
ghost use Rattle.hp_base.specs.declared.span.Span.{Span};
ghost use Rattle.hp_base.specs.First.First.{is_before, sooner, merged};

use crate::Span;

/// What stands at a place of a text.
pub trait Placed {
    ghost place: { Self → Span };

    /// Its place.
    fn at(&self) -> Span
        ensures { result ≡ place self.now };
}

impl Placed for Span {
    ghost use Rattle.hp_base.specs.First.First.{itself};

    ghost place = { itself };

    fn at(&self) -> Span {
        *self
    }
}

/// Whether a place stands before another in the text.
pub fn stands_before(place: Span, other: Span) -> bool
    ensures { result ≡ is_before place other }
{
    place.line < other.line || (place.line == other.line && place.col < other.col)
}

/// Keeps one more where it is the first that is found; of two at one place the one that was found first.
pub fn note<T: Placed + Drop>(found: &mut Option<T>, one: T)
    ensures { found.new ≡ sooner T.place found.old one }
{
    let is_first = match found {
        None => true,
        Some(other) => stands_before(one.at(), other.at()),
    };
    if is_first {
        *found = Some(one);
    }
}

/// Keeps what is found elsewhere, where it is the first.
pub fn note_all<T: Placed + Drop>(found: &mut Option<T>, other: Option<T>)
    ensures { found.new ≡ merged T.place found.old other }
{
    match other {
        None => {}
        Some(one) => note(found, one),
    }
}
