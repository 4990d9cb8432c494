//! The lines of nodes.
ghost use Rattle.std.specs.Prelude.{◌≡◌, ◌<◌, ◌^◌, ◌++◌, ◌∷◌, [], All, IfOk, OnOk, Some, map, option_map};
ghost use Rattle.hp_cert.specs.Certmade.Lines.{place_in, number_in, line_of};
ghost use Rattle.hp_cert.specs.Certmade.Placed.{HasNode};
ghost use Rattle.hp_diagram.specs.Diagrams.{branch_at};
ghost use Rattle.hp_diagram.specs.declared.reference.Ref as reference;

use hp_diagram::{Branch, Ref, Table};
use hp_quant::Line;
use indexmap::IndexSet;
use std::alloc::{AllocError, Global};

/// The place of a node, and behind all where it is none of them.
fn place_of(nodes: &IndexSet<usize>, index: usize) -> usize
    ensures place { result ≡ place_in nodes.now.keys index }
    ensures small { result < 2 ^ 63 }
{
    let count = nodes.len();
    match nodes.get_index_of(&index) {
        Some(place) => place,
        None => count,
    }
}

/// The number of a reference.
fn number_of(nodes: &IndexSet<usize>, r: Ref) -> usize
    ensures { result ≡ number_in nodes.now.keys r.index }
{
    if r.index < 2 {
        return r.index;
    }
    place_of(nodes, r.index) + 2
}

fn line_of(nodes: &IndexSet<usize>, branch: Branch) -> Line
    ensures { result ≡ line_of nodes.now.keys branch }
{
    Line {
        var: branch.var,
        low: number_of(nodes, branch.low),
        high: number_of(nodes, branch.high),
    }
}

/// Adds the line of a node.
fn add_line(
    t: &Table,
    nodes: &IndexSet<usize>,
    index: usize,
    lines: &mut Vec<Line>,
) -> Result<(), AllocError>
    requires { HasNode t.now index }
    ensures { OnOk result (map Some lines.new.items ≡ map Some lines.old.items ++ option_map (line_of nodes.now.keys) (branch_at t.now.nodes index) ∷ []) }
{
    if let Some(branch) = t.branch(Ref { index }) {
        lines.push(line_of(nodes, branch))?;
    }
    Ok(())
}

/// Adds the lines of some nodes.
fn add_lines(
    t: &Table,
    nodes: &IndexSet<usize>,
    indices: &[usize],
    lines: &mut Vec<Line>,
) -> Result<(), AllocError>
    requires { All (HasNode t.now) indices.now }
    ensures { OnOk result (map Some lines.new.items ≡ map Some lines.old.items ++ map (λ i. option_map (line_of nodes.now.keys) (branch_at t.now.nodes i)) indices.now) }
{
    for index in indices {
        add_line(t, nodes, *index, lines)?;
    }
    Ok(())
}

/// The lines of nodes, in their order.
pub fn lines_of(alloc: Global, t: &Table, nodes: &IndexSet<usize>) -> Result<Vec<Line>, AllocError>
    requires { All (HasNode t.now) nodes.now.keys }
    ensures { IfOk result (λ lines. map Some lines.items ≡ map (λ i. option_map (line_of nodes.now.keys) (branch_at t.now.nodes i)) nodes.now.keys) }
{
    let mut lines = Vec::with_capacity(alloc, nodes.len())?;
    add_lines(t, nodes, nodes.as_slice(), &mut lines)?;
    Ok(lines)
}

/// The numbers of some references.
pub fn numbers_of(
    alloc: Global,
    nodes: &IndexSet<usize>,
    roots: &[Ref],
) -> Result<Vec<usize>, AllocError>
    ensures { IfOk result (λ numbers. numbers.items ≡ map (λ (r : reference.Ref). number_in nodes.now.keys r.index) roots.now) }
{
    let mut numbers = Vec::with_capacity(alloc, roots.len())?;
    for root in roots {
        numbers.push(number_of(nodes, *root))?;
    }
    Ok(numbers)
}
