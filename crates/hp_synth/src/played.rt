//! Machines whose rounds are over.
ghost use Rattle.std.specs.Prelude.{◌≡◌, ◌<◌, IfOk};
ghost use Rattle.hp_diagram.specs.Diagrams.{Has, Means, Keeps};
ghost use Rattle.hp_boolx.specs.Game.{Game, IsForm, bad as bad_in, valid_choice};
ghost use Rattle.hp_boolx.specs.Search.{Set};
ghost use Rattle.hp_synth.specs.Layouts.{place};
ghost use Rattle.hp_synth.specs.Playing.{IsPlayed};
ghost use Rattle.hp_synth.specs.Valued.{all, through, over, OfState, OfChoice};

use crate::course::Course;
use crate::layout::Layout;
use crate::rounds::{bad_beside, sets_of};
use hp_diagram::{Ref, Table};
use std::alloc::AllocError;

/// How the rounds end.
#[derive(Clone, Copy, Debug)]
pub enum End {
    /// No violation is forced at first; these are the states from which it is.
    Won { lost: Ref },
    /// The violation is forced from the initial state.
    Lost,
}

/// A machine whose rounds are over, with all that they made, in a table where its variables stand at the places of a layout.
#[derive(Drop)]
pub struct Played {
    pub table: Table,
    pub layout: Layout,
    pub end: End,
    pub(crate) roots: Vec<Ref>,
    pub(crate) course: Course,
}

impl Played {
    /// The valid choices.
    pub fn choices(&self) -> Ref
        requires { (g : Game) × IsForm g × IsPlayed g self.now }
        ensures { (g : Game) → IsForm g → IsPlayed g self.now → Means self.now.table (over (place self.now.layout) (OfChoice g (valid_choice g))) result }
    {
        sets_of(&self.roots).choices
    }

    /// The valuations by which a violation comes at once, or by which a state of a set comes. What the rounds composed is not composed again.
    pub fn bad(&mut self, x: Ref) -> Result<Ref, AllocError>
        requires has { Has self.old.table x }
        requires played { (g : Game) × IsForm g × IsPlayed g self.old }
        ensures has { IfOk result (Has self.new.table) }
        ensures ok { IfOk result (λ r. (g : Game) (X : Set) → IsForm g → IsPlayed g self.old → Means self.old.table (over (place self.old.layout) (OfState g X)) x
            → Means self.new.table (λ v. bad_in g X (all g (through (place self.old.layout) v))) r) }
        ensures layout { self.new.layout ≡ self.old.layout }
        ensures keeps { Keeps self.old.table self.new.table }
    {
        let sets = sets_of(&self.roots);
        bad_beside(
            &mut self.table,
            sets,
            &self.course.by,
            &mut self.course.composed,
            x,
        )
    }
}
