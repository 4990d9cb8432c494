//! The variables of a machine, in a table that has an order of its own.
ghost use Rattle.std.specs.Prelude.{◌≡◌, ◌+◌, ◌<◌, ◌≤◌, ℕ, length, IsTrue, IfOk};
ghost use Rattle.hp_synth.specs.Layouts.{place, variable, IsLayout, IsPlain, AreInverse, Undoes, MarksPlaces};

use hp_boolx::Counts;
use std::alloc::{AllocError, Global};

/// How many variables a machine has of each kind, where each of them stands in a table, and which variable stands at each place. Both lists
/// are empty where each stands at the place of its own number.
#[derive(Drop)]
pub struct Layout {
    pub counts: Counts,
    pub places: Vec<u16>,
    pub variables: Vec<u16>,
}

impl Layout {
    /// Each variable stands at the place of its own number.
    pub(crate) fn plain(alloc: Global, counts: Counts) -> Layout
        ensures counts { result.counts ≡ counts }
        ensures plain { IsPlain result }
        ensures layout { IsLayout (counts.registers + counts.early + counts.control + counts.late) result }
    {
        Layout {
            counts,
            places: Vec::new(alloc),
            variables: Vec::new(alloc),
        }
    }

    /// These places, if they are ones for so many variables, and else plain ones.
    pub(crate) fn of(
        alloc: Global,
        vars: u16,
        counts: Counts,
        places: Vec<u16>,
        variables: Vec<u16>,
    ) -> Layout
        requires { counts.registers + counts.early + counts.control + counts.late ≡ vars }
        ensures counts { result.counts ≡ counts }
        ensures layout { IsLayout vars result }
    {
        if !are_inverse(vars, &places, &variables) {
            return Layout::plain(alloc, counts);
        }
        Layout {
            counts,
            places,
            variables,
        }
    }

    /// The layout of a table where each variable stands at the place of its own number, seen from one with this layout: places and variables change their parts.
    pub(crate) fn turned(&self, alloc: Global) -> Result<Layout, AllocError>
        ensures layout { IfOk result (λ other. (vars : ℕ) → IsLayout vars self.now → IsLayout vars other) }
        ensures places { IfOk result (λ other. (x : ℕ) → place other x ≡ variable self.now x) }
    {
        let places = Vec::from_slice(alloc, &self.variables)?;
        let variables = Vec::from_slice(alloc, &self.places)?;
        Ok(Layout {
            counts: self.counts,
            places,
            variables,
        })
    }

    /// Where the variable stands.
    pub fn place(&self, x: u16) -> u16
        ensures { result ≡ place self.now x }
    {
        match self.places.get(usize::from(x)) {
            Some(y) => *y,
            None => x,
        }
    }

    /// Which variable stands at the place.
    pub fn variable(&self, y: u16) -> u16
        ensures { result ≡ variable self.now y }
    {
        match self.variables.get(usize::from(y)) {
            Some(x) => *x,
            None => y,
        }
    }

    /// Marks for the places of the variables from `from` up to, not including, `to`, in a table of so many variables.
    pub(crate) fn marks(
        &self,
        alloc: Global,
        vars: u16,
        from: u16,
        to: u16,
    ) -> Result<Vec<bool>, AllocError>
        requires layout { IsLayout vars self.now }
        requires order { from ≤ to }
        requires within { to ≤ vars }
        ensures len { IfOk result (λ of. length of.items ≡ vars) }
        ensures marks { IfOk result (λ of. MarksPlaces self.now of.items from to) }
    {
        let mut of = vec![in alloc; false; usize::from(vars)]?;
        for x in from..to {
            let at = usize::from(self.place(x));
            of[at] = true;
        }
        Ok(of)
    }
}

/// Whether the second list has at the place of each variable, which the first one tells, that variable.
fn undoes(places: &[u16], variables: &[u16]) -> bool
    ensures { IsTrue result → Undoes places.now variables.now }
{
    for x in 0..places.len() {
        let Some(back) = variables.get(usize::from(places[x])) else {
            return false;
        };
        if usize::from(*back) != x {
            return false;
        }
    }
    true
}

/// Whether the lists are of so many variables, and each undoes the other.
fn are_inverse(vars: u16, places: &[u16], variables: &[u16]) -> bool
    ensures { IsTrue result → AreInverse vars places.now variables.now }
{
    places.len() == usize::from(vars)
        && variables.len() == usize::from(vars)
        && undoes(places, variables)
        && undoes(variables, places)
}
