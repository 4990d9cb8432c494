//! The functions of lines.
ghost use Rattle.std.specs.Prelude.{◌≡◌, ◌+◌, ◌<◌, ◌++◌, ◌∷◌, [], length, All, map, IfOk};
ghost use Rattle.hp_cert.specs.Certtext.Certificates.{AreLines, IsRef};
ghost use Rattle.hp_cert.specs.Marks.{AreClosed};
ghost use Rattle.hp_cert.specs.Steps.{AreOfMarked};
ghost use Rattle.hp_diagram.specs.Diagrams.{Keeps};
ghost use Rattle.hp_quant.specs.Lines.{reference_at};
ghost use Rattle.hp_quant.specs.declared.line.Line as plain;
ghost use Rattle.hp_synth.specs.Layouts.{place, IsLayout};

use hp_diagram::{Ref, Table, zero};
use hp_quant::{Line, import_line, reference};
use hp_synth::Layout;
use std::alloc::{AllocError, Global};

/// The function of the next line, or `zero`, if it is not marked.
fn next_function(
    t: &mut Table,
    layout: &Layout,
    lines: &[Line],
    marks: &[bool],
    refs: &[Ref],
    i: usize,
) -> Result<Ref, AllocError>
    requires layout { IsLayout t.old.vars layout.now }
    requires lines { AreLines 2 lines.now }
    requires vars { All (λ (l : plain.Line). l.var < t.old.vars) lines.now }
    requires len { length marks.now ≡ length lines.now }
    requires closed { AreClosed lines.now marks.now 0 }
    requires i { i < length lines.now }
    requires before { AreOfMarked (place layout.now) t.old lines.now marks.now refs.now i }
    ensures ok { IfOk result (λ r. AreOfMarked (place layout.now) t.new lines.now marks.now (refs.now ++ r ∷ []) (i + 1)) }
    ensures keeps { Keeps t.old t.new }
{
    let _vars = t.vars();
    if !marks[i] {
        return Ok(zero());
    }
    let line = lines[i];
    let at = layout.place(line.var);
    import_line(
        t,
        refs,
        Line {
            var: at,
            low: line.low,
            high: line.high,
        },
    )
}

/// The functions of the marked lines, in their order, with `zero` in the place of all others, in a table where variables stand at places.
pub fn functions(
    alloc: Global,
    t: &mut Table,
    layout: &Layout,
    lines: &[Line],
    marks: &[bool],
) -> Result<Vec<Ref>, AllocError>
    requires layout { IsLayout t.old.vars layout.now }
    requires lines { AreLines 2 lines.now }
    requires vars { All (λ (l : plain.Line). l.var < t.old.vars) lines.now }
    requires len { length marks.now ≡ length lines.now }
    requires closed { AreClosed lines.now marks.now 0 }
    ensures ok { IfOk result (λ refs. AreOfMarked (place layout.now) t.new lines.now marks.now refs.items (length lines.now)) }
    ensures keeps { Keeps t.old t.new }
{
    let _vars = t.vars();
    let mut refs = Vec::with_capacity(alloc, lines.len())?;
    for i in 0..lines.len() {
        let r = next_function(t, layout, lines, marks, &refs, i)?;
        refs.push(r)?;
    }
    Ok(refs)
}

/// The references that stand for numbers of lines.
pub fn references(alloc: Global, refs: &[Ref], numbers: &[usize]) -> Result<Vec<Ref>, AllocError>
    requires { All (IsRef (length refs.now + 2)) numbers.now }
    ensures { IfOk result (λ rs. rs.items ≡ map (reference_at refs.now) numbers.now) }
{
    let mut found = Vec::with_capacity(alloc, numbers.len())?;
    for number in numbers {
        found.push(reference(refs, *number))?;
    }
    Ok(found)
}
