//! Which lines are reached.
ghost use Rattle.std.specs.Prelude.{◌≡◌, ◌+◌, ◌<◌, ◌≤◌, ◌↔◌, ℕ, List, Bool, length, All, IsTrue, IfOk};
ghost use Rattle.hp_cert.specs.Certtext.Certificates.{IsRef, AreLines};
ghost use Rattle.hp_cert.specs.Marks.{Marked, marked, AreSound, AreClosed, AreReached, AreBelow};
ghost use Rattle.hp_cert.specs.Proving.{ReadsBelow};

use hp_quant::Line;
use std::alloc::{AllocError, Global};

/// Marks the line of a reference, if it has one.
fn mark(marks: &mut [bool], r: usize)
    requires { r < length marks.old + 2 }
    ensures { marks.new ≡ marked marks.old r }
{
    if r >= 2 {
        marks[r - 2] = true;
    }
}

/// Marks the lines of references.
fn mark_roots(marks: &mut [bool], lines: &[Line], roots: &[usize])
    requires len { length marks.old ≡ length lines.now }
    requires roots { All (IsRef (length lines.now + 2)) roots.now }
    requires none { (i : ℕ) → Marked marks.old i → ⊥ }
    ensures { AreSound lines.now roots.now marks.new }
{
    for r in roots {
        mark(marks, *r);
    }
}

/// Marks what a marked line refers to.
fn mark_line(marks: &mut [bool], lines: &[Line], i: usize)
    requires len { length marks.old ≡ length lines.now }
    requires i { i < length lines.now }
    requires lines { AreLines 2 lines.now }
    ensures sound { (roots : List ℕ) → AreSound lines.now roots marks.old → AreSound lines.now roots marks.new }
    ensures closed { AreClosed lines.now marks.old (i + 1) → AreClosed lines.now marks.new i }
{
    if !marks[i] {
        return;
    }
    let line = lines[i];
    mark(marks, line.low);
    mark(marks, line.high);
}

/// Marks what marked lines refer to, and so on. A line refers to earlier ones, so one pass from the last line on does it.
fn mark_lines(marks: &mut [bool], lines: &[Line])
    requires len { length marks.old ≡ length lines.now }
    requires lines { AreLines 2 lines.now }
    ensures sound { (roots : List ℕ) → AreSound lines.now roots marks.old → AreSound lines.now roots marks.new }
    ensures closed { AreClosed lines.now marks.new 0 }
{
    let mut i = lines.len();
    while i > 0 {
        i -= 1;
        mark_line(marks, lines, i);
    }
}

/// Marks the lines that some references reach.
fn mark_reached(marks: &mut [bool], lines: &[Line], roots: &[usize])
    requires len { length marks.old ≡ length lines.now }
    requires none { (i : ℕ) → Marked marks.old i → ⊥ }
    requires lines { AreLines 2 lines.now }
    requires roots { All (IsRef (length lines.now + 2)) roots.now }
    ensures { AreReached lines.now roots.now marks.new }
{
    mark_roots(marks, lines, roots);
    mark_lines(marks, lines);
}

/// Which lines some references reach.
pub fn reached(alloc: Global, lines: &[Line], roots: &[usize]) -> Result<Vec<bool>, AllocError>
    requires lines { AreLines 2 lines.now }
    requires roots { All (IsRef (length lines.now + 2)) roots.now }
    ensures { IfOk result (λ marks. AreReached lines.now roots.now marks.items) }
{
    let mut marks = vec![in alloc; false; lines.len()]?;
    mark_reached(&mut marks, lines, roots);
    Ok(marks)
}

/// Whether all marked lines have variables below a number.
fn are_below(lines: &[Line], marks: &[bool], bound: u32) -> bool
    requires { length marks.now ≡ length lines.now }
    ensures { IsTrue result ↔ AreBelow lines.now marks.now bound }
{
    for i in 0..lines.len() {
        if marks[i] && u32::from(lines[i].var) >= bound {
            return false;
        }
    }
    true
}

/// Whether the lines that some references reach have variables below a number.
pub fn read_below(
    alloc: Global,
    lines: &[Line],
    roots: &[usize],
    bound: u32,
) -> Result<bool, AllocError>
    requires lines { AreLines 2 lines.now }
    requires roots { All (IsRef (length lines.now + 2)) roots.now }
    ensures { IfOk result (λ b. IsTrue b ↔ All (ReadsBelow lines.now bound) roots.now) }
{
    let marks = reached(alloc, lines, roots)?;
    Ok(are_below(lines, &marks, bound))
}
