//! What is gathered from a node.
ghost use Rattle.std.specs.Prelude.{◌≡◌, ◌++◌, Some, OnOk};
ghost use Rattle.hp_cause.specs.Facts.{stand, read, depend, read_by_all};
ghost use Rattle.hp_cause.specs.Told.{facts_seen, with_more};

use hp_base::Span;
use hp_meaning::causal::PointKind;
use std::alloc::AllocError;

/// What the text of a node says of its graph.
#[derive(Clone, Copy, Debug)]
pub enum Fact<'a> {
    /// The next point is the vertex.
    Stands {
        kind: PointKind,
        name: &'a [u8],
        span: Span,
        vertex: usize,
    },
    /// The first vertex reads the second.
    Reads(usize, usize),
    /// The first vertex depends on the second without reading it.
    Depends(usize, usize),
}

/// A point that has a vertex.
#[tactic(auto, using(crate::proofs::Rules::told), unfolding(crate::specs::Facts::stand))]
pub fn stand<'a>(
    kind: PointKind,
    name: &'a [u8],
    span: Span,
    vertex: Option<usize>,
    facts: &mut Vec<Fact<'a>>,
) -> Result<(), AllocError>
    ensures { OnOk result (facts_seen facts.new.items ≡ with_more (facts_seen facts.old.items) (stand kind name.now span vertex)) }
{
    if let Some(vertex) = vertex {
        facts.push(Fact::Stands {
            kind,
            name,
            span,
            vertex,
        })?;
    }
    Ok(())
}

/// What has no vertex reads nothing, and is not read.
#[tactic(auto, using(crate::proofs::Rules::told), unfolding(crate::specs::Facts::read))]
pub fn read(
    reader: Option<usize>,
    vertex: Option<usize>,
    facts: &mut Vec<Fact>,
) -> Result<(), AllocError>
    ensures { OnOk result (facts_seen facts.new.items ≡ with_more (facts_seen facts.old.items) (read reader vertex)) }
{
    if let (Some(reader), Some(vertex)) = (reader, vertex) {
        facts.push(Fact::Reads(reader, vertex))?;
    }
    Ok(())
}

#[tactic(auto, using(crate::proofs::Rules::told), unfolding(crate::specs::Facts::depend))]
pub fn depend(
    vertex: Option<usize>,
    on: Option<usize>,
    facts: &mut Vec<Fact>,
) -> Result<(), AllocError>
    ensures { OnOk result (facts_seen facts.new.items ≡ with_more (facts_seen facts.old.items) (depend vertex on)) }
{
    if let (Some(vertex), Some(on)) = (vertex, on) {
        facts.push(Fact::Depends(vertex, on))?;
    }
    Ok(())
}

/// Each of the vertices reads it.
#[tactic(auto, using(crate::proofs::Rules::told))]
pub fn read_by_all(
    readers: &[usize],
    vertex: Option<usize>,
    facts: &mut Vec<Fact>,
) -> Result<(), AllocError>
    ensures { OnOk result (facts_seen facts.new.items ≡ with_more (facts_seen facts.old.items) (read_by_all readers.now vertex)) }
{
    for reader in readers {
        read(Some(*reader), vertex, facts)?;
    }
    Ok(())
}
