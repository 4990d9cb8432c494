ghost use Rattle.std.specs.Prelude.{◌≡◌, ◌+◌, ◌<◌, All, length, vec_len, IfOk, if◌then◌else◌};
ghost use Rattle.hp_diagram.specs.Diagrams.{Has, function, Means, Keeps};
ghost use Rattle.hp_quant.specs.Lines.{reference_at, MayBeImported, AreOfLines};

use hp_diagram::{Ref, Table, one, zero};
use std::alloc::{AllocError, Global};

/// A line of a certificate: the function of `high` where the variable is true, and the one of `low` elsewhere.
/// 0 is false, 1 is true, and 2 is the first line.
#[derive(Clone, Copy, Debug, PartialEq, Eq)]
pub struct Line {
    pub var: u16,
    pub low: usize,
    pub high: usize,
}

/// The functions of the lines, in their order.
pub fn import(alloc: Global, t: &mut Table, lines: &[Line]) -> Result<Vec<Ref>, AllocError>
    requires { MayBeImported t.old lines.now }
    ensures each { IfOk result (λ refs. vec_len refs ≡ length lines.now) }
    ensures ok { IfOk result (λ refs. AreOfLines t.new lines.now refs.items) }
    ensures keeps { Keeps t.old t.new }
{
    // The proof of `keeps` wants the table's rules.
    let _vars = t.vars();
    let mut refs = Vec::with_capacity(alloc, lines.len())?;
    for line in lines {
        let r = import_line(t, &refs, *line)?;
        refs.push(r)?;
    }
    Ok(refs)
}

/// The function of a line behind those that were imported. A line whose variable comes before those of its children is a node as it stands.
pub fn import_line(t: &mut Table, refs: &[Ref], line: Line) -> Result<Ref, AllocError>
    requires refs { All (Has t.old) refs.now }
    requires var { line.var < t.old.vars }
    requires low { line.low < length refs.now + 2 }
    requires high { line.high < length refs.now + 2 }
    ensures ok { IfOk result (Means t.new (λ v. if v line.var
        then function t.old (reference_at refs.now line.high) v
        else function t.old (reference_at refs.now line.low) v)) }
    ensures keeps { Keeps t.old t.new }
{
    let low = reference(refs, line.low);
    let high = reference(refs, line.high);
    let below = t.level(low).min(t.level(high));
    if line.var < below {
        return t.node(line.var, low, high);
    }
    let test = t.var(line.var)?;
    t.ite(test, high, low)
}

/// The reference that stands for a number of the lines: 0 is false, 1 is true, and 2 is the first line.
pub fn reference(refs: &[Ref], line: usize) -> Ref
    requires { line < length refs.now + 2 }
    ensures { result ≡ reference_at refs.now line }
{
    match line {
        0 => zero(),
        1 => one(),
        _ => refs[line - 2],
    }
}
