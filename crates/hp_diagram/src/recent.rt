//! The answers that were found last, one for each place of a small table.
ghost use Rattle.std.specs.Prelude.{◌≡◌, ◌⊎◌, ℕ, set, All, Contains, IfSome, IfOk};
ghost use Rattle.hp_diagram.specs.Diagrams.{answered, IsNothing};

use crate::question::Question;
use crate::reference::Ref;
use std::alloc::{AllocError, Global};

/// How many places there are at first, a power of two.
const FIRST_PLACES: usize = 65_536;

/// The most places, a power of two.
const MOST_PLACES: usize = 1_048_576;

/// A question with its answer.
#[derive(Clone, Copy)]
pub(crate) struct Answered {
    pub question: Question,
    pub answer: Ref,
}

/// What stands at a place where no answer was found yet: a question that answers itself.
const NOTHING: Answered = Answered {
    question: Question {
        f: Ref { index: 0 },
        g: Ref { index: 0 },
        h: Ref { index: 0 },
    },
    answer: Ref { index: 0 },
};

/// So many places without answers.
pub(crate) fn without_answers(alloc: Global, places: usize) -> Result<Vec<Answered>, AllocError>
    ensures { IfOk result (λ recent. All IsNothing recent.items) }
{
    vec![in alloc; NOTHING; places]
}

/// A table without answers.
pub(crate) fn none_yet(alloc: Global) -> Result<Vec<Answered>, AllocError>
    ensures { IfOk result (λ recent. All IsNothing recent.items) }
{
    without_answers(alloc, FIRST_PLACES)
}

/// How many places there are to be, of a table with so many nodes: twice as many, once there are more nodes.
pub(crate) fn places_for(places: usize, nodes: usize) -> usize {
    if places < nodes && places < MOST_PLACES {
        places.wrapping_mul(2)
    } else {
        places
    }
}

/// The place of a question, where there are so many places, a power of two.
fn place_of(q: Question, places: usize) -> usize {
    let f = q.f.index.wrapping_mul(0x9E37_79B9_7F4A_7C15);
    let g = q.g.index.wrapping_mul(0xC2B2_AE3D_27D4_EB4F);
    let h = q.h.index.wrapping_mul(0x1656_67B1_9E37_79F9);
    ((f ^ g ^ h) >> 24) & places.wrapping_sub(1)
}

/// The answer that stands at the question's place, if it is the question's.
pub(crate) fn find(recent: &[Answered], q: Question) -> Option<Ref>
    ensures { IfSome result (λ r. Contains recent.now (answered q r)) }
{
    let place = place_of(q, recent.len());
    if place < recent.len() {
        let known = recent[place];
        if known.question == q {
            return Some(known.answer);
        }
    }
    None
}

/// Puts an answer at the question's place, over the one that stood there.
pub(crate) fn put(recent: &mut [Answered], q: Question, r: Ref)
    ensures { (recent.new ≡ recent.old) ⊎ ((place : ℕ) × (recent.new ≡ set recent.old place (answered q r))) }
{
    let place = place_of(q, recent.len());
    if place < recent.len() {
        recent[place] = Answered {
            question: q,
            answer: r,
        };
    }
}
