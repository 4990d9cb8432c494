//! What the rounds of a solver go on with.
ghost use Rattle.std.specs.Prelude.{◌≡◌, ◌+◌, ◌<◌, ◌≤◌, ℕ, None, Some, length, slice_index_or, IfOk};
ghost use Rattle.hp_diagram.specs.Diagrams.{Diagrams, zero_ref};
ghost use Rattle.hp_synth.specs.Courses.{IsCourse};
ghost use Rattle.hp_synth.specs.Layouts.{place, IsLayout};

use crate::layout::Layout;
use hp_diagram::Ref;
use hp_quant::Memo;
use std::alloc::{AllocError, Global};

/// The next value in the place of each register, and what was composed with these so far.
#[derive(Drop)]
pub(crate) struct Course {
    pub by: Vec<Option<Ref>>,
    pub composed: Memo,
}

impl Course {
    /// A course of a table with so many variables, where these are the references of a solver; nothing is composed yet.
    pub(crate) fn new(
        alloc: Global,
        vars: u16,
        layout: &Layout,
        roots: &[Ref],
    ) -> Result<Course, AllocError>
        requires layout { IsLayout vars layout.now }
        requires roots { 5 + layout.now.counts.registers ≤ length roots.now }
        ensures { IfOk result (λ course. (t : Diagrams) → t.vars ≡ vars → IsCourse t layout.now roots.now course) }
    {
        let by = next_values(alloc, vars, layout, roots)?;
        let composed = Memo::new(alloc);
        Ok(Course { by, composed })
    }
}

/// The next value at the place of each register, where these are the references of a solver.
pub fn next_values(
    alloc: Global,
    vars: u16,
    layout: &Layout,
    roots: &[Ref],
) -> Result<Vec<Option<Ref>>, AllocError>
    requires layout { IsLayout vars layout.now }
    requires roots { 5 + layout.now.counts.registers ≤ length roots.now }
    ensures len { IfOk result (λ by. length by.items ≡ vars) }
    ensures registers { IfOk result (λ by. (k : ℕ) → k < layout.now.counts.registers → slice_index_or by.items (place layout.now k) None ≡ Some (slice_index_or roots.now (5 + k) zero_ref)) }
    ensures others { IfOk result (λ by. (k : ℕ) → layout.now.counts.registers ≤ k → slice_index_or by.items (place layout.now k) None ≡ None) }
{
    let mut by = vec![in alloc; None; usize::from(vars)]?;
    for k in 0..layout.counts.registers {
        let at = usize::from(layout.place(k));
        by[at] = Some(roots[5 + usize::from(k)]);
    }
    Ok(by)
}
