//! What a graph has.
/// What a graph has: an order of its vertices, or a cycle.
#[derive(Debug, Drop)]
pub enum Sorted {
    /// A rank for each vertex, below the number of vertices. Each edge leads to a vertex of less rank.
    Ranks(Vec<usize>),
    /// Edges lead from each of these vertices to the next, and from the last to the first. None stands twice.
    Cycle(Vec<usize>),
}
