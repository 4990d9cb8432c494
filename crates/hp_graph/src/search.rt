//! A search along edges, deep first, without a recursion: a path of open vertices, each of which waits for the next.
ghost use Rattle.std.specs.Prelude.{◌≡◌, ◌<◌, ◌+◌, ℕ, suc, [], ◌∷◌, ◌++◌, All, length, map, replicate, set, IfOk, OnOk, IfNone, IfSome, MatchOption, None};
ghost use Rattle.hp_graph.specs.Graphs.{AreWithin, IsCycle, IsEdge, IsSorted};
ghost use Rattle.hp_graph.specs.Searching.{AreDone, AreLinked, Goes, IsEnd, Keeps, LeadsBack, Searches, mark_at, rank_of, to_of};
ghost use Rattle.hp_graph.specs.declared.search.Mark.TheVariants as Mark;

use crate::link::{link, zeros};
use crate::sorted::Sorted;
use std::alloc::{AllocError, Global};

/// How far the search has come with a vertex.
#[derive(Clone, Copy)]
pub enum Mark {
    New,
    /// It stands on the path, at this place.
    Open(usize),
    /// All that its edges lead to has a rank, and it has this one.
    Done(usize),
}

/// So many vertices at which the search has not been.
fn all_new(alloc: Global, count: usize) -> Result<Vec<Mark>, AllocError>
    ensures { IfOk result (λ marks. marks.items ≡ replicate count Mark.New) }
{
    let mut marks = Vec::new(alloc);
    for _ in 0..count {
        marks.push(Mark::New)?;
    }
    Ok(marks)
}

/// The end of the path.
fn end(path: &[usize]) -> Option<usize>
    ensures { MatchOption result (path.now ≡ []) (λ vertex. IsEnd path.now vertex) }
{
    match path.last() {
        None => None,
        Some(vertex) => Some(*vertex),
    }
}

/// Enters a new vertex.
fn enter(vertex: usize, marks: &mut [Mark], path: &mut Vec<usize>) -> Result<(), AllocError>
    requires { vertex < length marks.old }
    ensures marks { marks.new ≡ set marks.old vertex (Mark.Open (length path.old.items)) }
    ensures path { OnOk result (path.new.items ≡ path.old.items ++ (vertex ∷ [])) }
{
    marks[vertex] = Mark::Open(path.len());
    path.push(vertex)?;
    Ok(())
}

/// The vertex to which an edge leads.
fn target(edges: &[(usize, usize)], index: usize) -> usize
    requires { index < length edges.now }
    ensures { result ≡ to_of edges.now index }
{
    let (_, to) = edges[index];
    to
}

/// Looks at the next edge from the end of the path. The answer is the place on the path to which it leads back.

fn look(
    edges: &[(usize, usize)],
    links: &[usize],
    vertex: usize,
    left: &mut [usize],
    marks: &mut [Mark],
    path: &mut Vec<usize>,
    done: &mut usize,
) -> Result<Option<usize>, AllocError>
    requires searches { Searches edges.now left.old marks.old path.old.items done.old }
    requires links { AreLinked edges.now (length edges.now) links.now }
    requires one_each { length links.now ≡ length edges.now }
    requires end { IsEnd path.old.items vertex }
    ensures keeps { OnOk result (Keeps marks.old marks.new) }
    ensures goes { IfOk result (λ found. IfNone found (Goes edges.now left.old marks.old left.new marks.new path.new.items done.new)) }
    ensures back { IfOk result (λ found. IfSome found (λ place. LeadsBack edges.now path.new.items place × Searches edges.now left.new marks.new path.new.items done.new × (length marks.new ≡ length marks.old))) }
{
    let number = left[vertex];
    if number == 0 {
        marks[vertex] = Mark::Done(*done);
        *done += 1;
        path.pop();
        return Ok(None);
    }
    let next = target(edges, number - 1);
    match marks[next] {
        Mark::New => {
            enter(next, marks, path)?;
            Ok(None)
        }
        Mark::Open(place) => Ok(Some(place)),
        Mark::Done(_) => {
            left[vertex] = links[number - 1];
            Ok(None)
        }
    }
}

/// Follows edges from the end of the path, until the path is left or an edge leads back to it: then the answer is that place on it.
fn follow(
    edges: &[(usize, usize)],
    links: &[usize],
    left: &mut [usize],
    marks: &mut [Mark],
    path: &mut Vec<usize>,
    done: &mut usize,
) -> Result<Option<usize>, AllocError>
    requires searches { Searches edges.now left.old marks.old path.old.items done.old }
    requires links { AreLinked edges.now (length edges.now) links.now }
    requires one_each { length links.now ≡ length edges.now }
    ensures searches { OnOk result (Searches edges.now left.new marks.new path.new.items done.new) }
    ensures many { length marks.new ≡ length marks.old }
    ensures keeps { OnOk result (Keeps marks.old marks.new) }
    ensures left { IfOk result (λ found. IfNone found (path.new.items ≡ [])) }
    ensures back { IfOk result (λ found. IfSome found (λ place. LeadsBack edges.now path.new.items place)) }
{
    while let Some(vertex) = end(path) {
        if let Some(place) = look(edges, links, vertex, left, marks, path, done)? {
            return Ok(Some(place));
        }
    }
    Ok(None)
}

/// Follows edges from the vertex, unless the search has been there.
fn follow_from(
    edges: &[(usize, usize)],
    links: &[usize],
    vertex: usize,
    left: &mut [usize],
    marks: &mut [Mark],
    path: &mut Vec<usize>,
    done: &mut usize,
) -> Result<Option<usize>, AllocError>
    requires searches { Searches edges.now left.old marks.old path.old.items done.old }
    requires links { AreLinked edges.now (length edges.now) links.now }
    requires one_each { length links.now ≡ length edges.now }
    requires vertex { vertex < length marks.old }
    requires empty { path.old.items ≡ [] }
    ensures searches { OnOk result (Searches edges.now left.new marks.new path.new.items done.new) }
    ensures many { length marks.new ≡ length marks.old }
    ensures keeps { OnOk result (Keeps marks.old marks.new) }
    ensures begun { OnOk result (mark_at marks.new vertex ≡ Mark.New → ⊥) }
    ensures left { IfOk result (λ found. IfNone found (path.new.items ≡ [])) }
    ensures back { IfOk result (λ found. IfSome found (λ place. LeadsBack edges.now path.new.items place)) }
{
    match marks[vertex] {
        Mark::New => {
            enter(vertex, marks, path)?;
            follow(edges, links, left, marks, path, done)
        }
        _ => Ok(None),
    }
}

/// Searches from each vertex. Where an edge leads back to the path, the answer is that place on it; else each vertex has a rank.
fn follow_all(
    edges: &[(usize, usize)],
    links: &[usize],
    left: &mut [usize],
    marks: &mut [Mark],
    path: &mut Vec<usize>,
) -> Result<Option<usize>, AllocError>
    requires searches { Searches edges.now left.old marks.old path.old.items 0 }
    requires links { AreLinked edges.now (length edges.now) links.now }
    requires one_each { length links.now ≡ length edges.now }
    requires empty { path.old.items ≡ [] }
    ensures many { length marks.new ≡ length marks.old }
    ensures ranked { IfOk result (λ found. IfNone found ((done : ℕ) × (Searches edges.now left.new marks.new [] done × AreDone marks.new (length marks.new)))) }
    ensures back { IfOk result (λ found. IfSome found (λ place. LeadsBack edges.now path.new.items place × ((done : ℕ) × Searches edges.now left.new marks.new path.new.items done))) }
{
    let mut done = 0;
    for vertex in 0..marks.len() {
        if let Some(place) = follow_from(edges, links, vertex, left, marks, path, &mut done)? {
            return Ok(Some(place));
        }
    }
    Ok(None)
}

fn rank_of(mark: Mark) -> usize
    ensures { result ≡ rank_of mark }
{
    match mark {
        Mark::Done(rank) => rank,
        Mark::New | Mark::Open(_) => 0,
    }
}

/// The ranks of the vertices.

fn ranks_of(alloc: Global, marks: &[Mark]) -> Result<Vec<usize>, AllocError>
    ensures { IfOk result (λ ranks. ranks.items ≡ map rank_of marks.now) }
{
    let mut ranks = Vec::new(alloc);
    for i in 0..marks.len() {
        ranks.push(rank_of(marks[i]))?;
    }
    Ok(ranks)
}

/// What is found with these lists of edges, where nothing has been looked at.
fn search_linked(
    alloc: Global,
    edges: &[(usize, usize)],
    links: &[usize],
    left: &mut [usize],
    marks: &mut [Mark],
) -> Result<Sorted, AllocError>
    requires searches { Searches edges.now left.old marks.old [] 0 }
    requires links { AreLinked edges.now (length edges.now) links.now }
    requires one_each { length links.now ≡ length edges.now }
    ensures { IfOk result (λ sorted. IsSorted (length marks.old) edges.now sorted) }
{
    let mut path = Vec::new(alloc);
    match follow_all(edges, links, left, marks, &mut path)? {
        None => Ok(Sorted::Ranks(ranks_of(alloc, marks)?)),
        Some(place) => Ok(Sorted::Cycle(Vec::from_slice(alloc, &path[place..])?)),
    }
}

/// What is found where no list of edges is made yet.
fn search_edges(
    alloc: Global,
    edges: &[(usize, usize)],
    left: &mut [usize],
    marks: &mut [Mark],
) -> Result<Sorted, AllocError>
    requires within { AreWithin (length marks.old) edges.now }
    requires left { left.old ≡ replicate (length marks.old) 0 }
    requires new { marks.old ≡ replicate (length marks.old) Mark.New }
    ensures { IfOk result (λ sorted. IsSorted (length marks.old) edges.now sorted) }
{
    let links = link(alloc, edges, left)?;
    search_linked(alloc, edges, &links, left, marks)
}

/// Ranks of the vertices, or a cycle.
pub fn search(alloc: Global, count: usize, edges: &[(usize, usize)]) -> Result<Sorted, AllocError>
    requires { AreWithin count edges.now }
    ensures { IfOk result (λ sorted. IsSorted count edges.now sorted) }
{
    let mut left = zeros(alloc, count)?;
    let mut marks = all_new(alloc, count)?;
    search_edges(alloc, edges, &mut left, &mut marks)
}
