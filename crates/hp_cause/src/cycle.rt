//! The points of a cycle.
ghost use Rattle.std.specs.Prelude.{◌≡◌, ◌<◌, ◌≤◌, ◌+◌, ℕ, [], ◌∷◌, ◌++◌, drop, take, length, get_or, OnOk, IfOk};
ghost use Rattle.hp_graph.specs.Graphs.{IsCycle};
ghost use Rattle.hp_meaning.specs.Causal.Points.{NamesDeclared};
ghost use Rattle.hp_cause.specs.Describing.{AreFirsts, AllBelow, one_seen, points_seen, point_in};
ghost use Rattle.hp_cause.specs.Facts.{points_in, reads_in};
ghost use Rattle.hp_cause.specs.Gathering.{in_list, of_node};
ghost use Rattle.hp_cause.specs.Naming.{first_at, numbers_of, point_by, picked};
ghost use Rattle.hp_cause.specs.Ordering.{IsCycleOf};
ghost use Rattle.hp_cause.specs.Told.{fact_seen, facts_seen, with_more};
ghost use Rattle.hp_cause.specs.Walked.{NamesDefinedOnce};

use crate::edges::vertices;
use crate::fact::Fact;
use hp_base::{MAX_NAME, Name, Span};
use hp_graph::above;
use hp_meaning::causal::{Point, PointKind};
use hp_tree::Node;
use std::alloc::{AllocError, Global};

/// For each vertex the number of its first point; where it has none, that of points.
#[tactic(auto, using(crate::proofs::Rules::numbered))]
fn first_points(alloc: Global, vertices: &[usize], count: usize) -> Result<Vec<usize>, AllocError>
    ensures count { IfOk result (λ firsts. length firsts.items ≡ count) }
    ensures firsts { IfOk result (λ firsts. AreFirsts vertices.now firsts.items) }
{
    let mut firsts = Vec::new(alloc);
    for k in 0..count {
        firsts.push(vertices.len())?;
    }
    let mut i = vertices.len();
    while i > 0 {
        i -= 1;
        let vertex = vertices[i];
        if vertex < firsts.len() {
            firsts[vertex] = i;
        }
    }
    Ok(firsts)
}

/// The number of a vertex's first point.
#[tactic(auto, using(crate::proofs::Rules::numbered))]
fn number_of(vertices: &[usize], firsts: &[usize], vertex: usize) -> Option<usize>
    requires firsts { AreFirsts vertices.now firsts.now }
    requires within { vertex < length firsts.now }
    ensures { result ≡ first_at 0 vertices.now vertex }
{
    let point = firsts[vertex];
    if point < vertices.len() {
        return Some(point);
    }
    None
}

#[tactic(auto, using(crate::proofs::Rules::targeted))]
fn add_number(number: Option<usize>, into: &mut Vec<usize>) -> Result<(), AllocError>
    ensures { OnOk result (into.new.items ≡ with_more into.old.items (in_list number)) }
{
    if let Some(number) = number {
        into.push(number)?;
    }
    Ok(())
}

/// The points among some vertices, by their numbers.
#[tactic(auto, using(crate::proofs::Rules::targeted))]
fn points_among(
    alloc: Global,
    vertices: &[usize],
    firsts: &[usize],
    cycle: &[usize],
) -> Result<Vec<usize>, AllocError>
    requires firsts { AreFirsts vertices.now firsts.now }
    requires within { AllBelow (length firsts.now) cycle.now }
    ensures { IfOk result (λ numbers. numbers.items ≡ numbers_of vertices.now cycle.now) }
{
    let mut numbers = Vec::new(alloc);
    for i in 0..cycle.len() {
        add_number(number_of(vertices, firsts, cycle[i]), &mut numbers)?;
    }
    Ok(numbers)
}

/// Where the least of some numbers stands.
fn least_at(numbers: &[usize]) -> usize
    requires { 0 < length numbers.now }
    ensures within { result < length numbers.now }
    ensures least { (j : ℕ) → j < length numbers.now → get_or numbers.now result 0 ≤ get_or numbers.now j 0 }
{
    let mut at = 0;
    for i in 0..numbers.len() {
        if numbers[i] < numbers[at] {
            at = i;
        }
    }
    at
}

/// What a point is.
#[derive(Clone, Copy)]
struct Described<'a> {
    kind: PointKind,
    name: &'a [u8],
    span: Span,
}

#[tactic(auto, using(crate::proofs::Rules::described))]
fn add_described<'a>(fact: &Fact<'a>, into: &mut Vec<Described<'a>>) -> Result<(), AllocError>
    ensures { OnOk result (points_seen into.new.items ≡ with_more (points_seen into.old.items) (point_in (fact_seen fact.now))) }
{
    match fact {
        Fact::Stands {
            kind,
            name,
            span,
            vertex: _,
        } => {
            into.push(Described {
                kind: *kind,
                name: *name,
                span: *span,
            })?;
            Ok(())
        }
        Fact::Reads(_, _) => Ok(()),
        Fact::Depends(_, _) => Ok(()),
    }
}

/// The points of a node, in order.
#[tactic(auto, using(crate::proofs::Rules::described))]
fn points_of<'a>(alloc: Global, facts: &[Fact<'a>]) -> Result<Vec<Described<'a>>, AllocError>
    ensures { IfOk result (λ points. points_seen points.items ≡ points_in (facts_seen facts.now)) }
{
    let mut points = Vec::new(alloc);
    for i in 0..facts.len() {
        let fact = &facts[i];
        add_described(fact, &mut points)?;
    }
    Ok(points)
}

/// The name of these bytes, which are those of a name.
fn name_of(alloc: Global, bytes: &[u8]) -> Result<Name, AllocError>
    ensures { IfOk result (λ name. name ≡ bytes.now) }
{
    if bytes.len() > MAX_NAME {
        return Err(AllocError);
    }
    Name::new(alloc, bytes)
}

#[tactic(auto, using(crate::proofs::Rules::described))]
fn add_one(alloc: Global, point: Described, into: &mut Vec<Point>) -> Result<(), AllocError>
    ensures { OnOk result (into.new.items ≡ with_more into.old.items (one_seen point.entry ∷ [])) }
{
    let name = name_of(alloc, point.name)?;
    into.push(Point {
        kind: point.kind,
        name,
        span: point.span,
    })?;
    Ok(())
}

#[tactic(auto, using(crate::proofs::Rules::described))]
fn add_point(
    alloc: Global,
    points: &[Described],
    number: usize,
    into: &mut Vec<Point>,
) -> Result<(), AllocError>
    ensures { OnOk result (into.new.items ≡ with_more into.old.items (point_by (points_seen points.now) number)) }
{
    if number < points.len() {
        return add_one(alloc, points[number], into);
    }
    Ok(())
}

/// The points of these numbers.
#[tactic(auto, using(crate::proofs::Rules::described))]
fn add_points(
    alloc: Global,
    points: &[Described],
    numbers: &[usize],
    into: &mut Vec<Point>,
) -> Result<(), AllocError>
    ensures { OnOk result (into.new.items ≡ with_more into.old.items (picked (points_seen points.now) numbers.now)) }
{
    for i in 0..numbers.len() {
        add_point(alloc, points, numbers[i], into)?;
    }
    Ok(())
}

/// The points of these numbers, from one on, and from the beginning again up to that one itself.
#[tactic(auto, using(crate::proofs::Rules::described))]
fn turned(
    alloc: Global,
    points: &[Described],
    numbers: &[usize],
    first: usize,
) -> Result<Vec<Point>, AllocError>
    requires { first < length numbers.now }
    ensures { IfOk result (λ named. named.items ≡ picked (points_seen points.now) (drop first numbers.now ++ take (first + 1) numbers.now)) }
{
    let mut named = Vec::new(alloc);
    add_points(alloc, points, &numbers[first..], &mut named)?;
    add_points(alloc, points, &numbers[..first + 1], &mut named)?;
    Ok(named)
}

/// A number above some vertices.
#[tactic(auto, using(crate::proofs::Rules::numbered))]
fn count_of(cycle: &[usize]) -> Result<usize, AllocError>
    ensures { IfOk result (λ count. AllBelow count cycle.now) }
{
    let mut count: usize = 0;
    for i in 0..cycle.len() {
        count = above(count, cycle[i])?;
    }
    Ok(count)
}

/// The points of a cycle of the graph of reads, the first of them in the order of points first, and it again at the end.
pub fn cycle_points(
    alloc: Global,
    node: &Node,
    facts: &[Fact],
    cycle: &[usize],
) -> Result<Vec<Point>, AllocError>
    requires gathered { facts_seen facts.now ≡ of_node node.now }
    requires declared { NamesDeclared node.now }
    requires once { NamesDefinedOnce node.now }
    requires cycle { IsCycle (reads_in (of_node node.now)) cycle.now }
    ensures { IfOk result (λ points. IsCycleOf node.now points.items) }
{
    let vertices = vertices(alloc, facts)?;
    let count = count_of(cycle)?;
    let firsts = first_points(alloc, &vertices, count)?;
    let numbers = points_among(alloc, &vertices, &firsts, cycle)?;
    let points = points_of(alloc, facts)?;
    let first = least_at(&numbers);
    let named = turned(alloc, &points, &numbers, first)?;
    Ok(named)
}
