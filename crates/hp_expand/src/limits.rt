//! The limits on what is counted of a program.
ghost use Rattle.std.specs.Prelude.{◌≡◌, IfOk, option_map, MatchResult};
ghost use Rattle.hp_expand.specs.Counts.{passed, or_passed, passed_by, limit_of};
ghost use Rattle.hp_expand.specs.Passing.{passing_seen, Keeps, Passes};
ghost use Rattle.hp_expand.specs.Sizes.{in_node};
ghost use Rattle.hp_expand.specs.Tables.{size_in};

use crate::size::Size;
use crate::sizes::size_of_node;
use crate::table::Sizes;
use hp_base::{Limit, Name, What};
use hp_tree::{Item, Node};
use std::alloc::{AllocError, Global};

/// A node that passes a limit.
#[derive(Drop)]
pub struct Passing<'a> {
    pub node: &'a Name,
    pub limit: Limit,
}

/// Whether the count passes its limit.
#[tactic(auto, using(crate::proofs::Rules::limits), unfolding(crate::specs::Counts::passed))]
fn passed(what: What, count: u64) -> Option<Limit>
    ensures { result ≡ passed what count }
{
    let most = what.most();
    if count > most {
        let found = most + 1;
        return Some(Limit { what, found });
    }
    None
}

#[tactic(auto, unfolding(crate::specs::Counts::or_passed))]
fn first(limit: Option<Limit>, other: Option<Limit>) -> Option<Limit>
    ensures { result ≡ or_passed limit other }
{
    match limit {
        None => other,
        Some(limit) => Some(limit),
    }
}

/// The first limit that is passed by a node with this in it, behind nodes with so many places.
#[tactic(auto, using(crate::proofs::Rules::limits), unfolding(crate::specs::Counts::passed_by))]
fn passed_by(total: u64, size: Size) -> Option<Limit>
    ensures { result ≡ passed_by total size }
{
    let instances = size.instances.saturating_add(1);
    let cells = size.places.saturating_add(size.cells);
    let calls = size.calls.saturating_add(1);
    let below = first(
        passed(What::Instances, instances),
        first(passed(What::Cells, cells), passed(What::Calls, calls)),
    );
    let total = total.saturating_add(size.places);
    let places = first(
        passed(What::Places, size.places),
        first(passed(What::Total, total), below),
    );
    first(passed(What::Nest, size.nest.saturating_add(1)), places)
}

/// What is in a node behind nodes with so many places, or the first limit that it passes.
#[tactic(auto, using(crate::proofs::Rules::limit_of_node))]
fn check_node(known: &Sizes<'_>, total: u64, node: &Node) -> Result<Size, Limit>
    ensures { MatchResult result (Keeps total (in_node (size_in known.now) node.now)) (Passes total (in_node (size_in known.now) node.now)) }
{
    let size = size_of_node(known, node);
    match passed_by(total, size) {
        None => Ok(size),
        Some(limit) => Err(limit),
    }
}

/// The first node that passes a limit, and the first limit that it passes.
#[tactic(auto, using(crate::proofs::Rules::limits_of_items))]
pub fn check_limits<'a>(alloc: Global, items: &'a [Item]) -> Result<Option<Passing<'a>>, AllocError>
    ensures { IfOk result (λ found. option_map passing_seen found ≡ limit_of items.now) }
{
    let mut known = Sizes::new(alloc);
    let mut total = 0;
    for item in items {
        if let Item::NodeItem(node) = item {
            let node_name = &node.name;
            match check_node(&known, total, node) {
                Ok(size) => {
                    total += size.places;
                    known.put(node_name, size)?;
                }
                Err(limit) => {
                    return Ok(Some(Passing {
                        node: node_name,
                        limit,
                    }));
                }
            }
        }
    }
    Ok(None)
}
