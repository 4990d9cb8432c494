//! Equations that nothing needs.
ghost use Rattle.std.specs.Prelude.{◌≡◌, IfOk};
ghost use Rattle.hp_normal.specs.Needing.{is_idle, needed, pruned, without};
ghost use Rattle.hp_normal.specs.Tables.{is_uncounted, none_counted, with_need, with_needs};

use crate::count::{count_reads, is_counted, is_operator, root_counts};
use hp_flat::{FlatEqn, FlatNode};
use std::alloc::{AllocError, Global};

/// Whether none of some variables is counted.
#[tactic(auto, using(crate::proofs::Rules::needs))]
fn none_counted(counts: &[u8], variables: &[usize]) -> bool
    ensures { result ≡ none_counted counts.now variables.now }
{
    for i in 0..variables.len() {
        if !is_counted(counts, variables[i], 0) {
            return false;
        }
    }
    true
}

/// Whether the equation is an operator's, and defines nothing that is counted.
fn is_uncounted(counts: &[u8], eqn: &FlatEqn) -> bool
    ensures { result ≡ is_uncounted counts.now eqn.now }
{
    is_operator(&eqn.right) && none_counted(counts, &eqn.targets)
}

/// Counts what the equation reads, if it is needed.
fn count_need(counts: &mut [u8], eqn: &FlatEqn)
    ensures { counts.new ≡ with_need eqn.now counts.old }
{
    if !is_uncounted(counts, eqn) {
        count_reads(counts, eqn);
    }
}

#[tactic(auto, using(crate::proofs::Rules::needs))]
fn count_needs(counts: &mut [u8], eqns: &[FlatEqn])
    ensures { counts.new ≡ with_needs eqns.now counts.old }
{
    let mut i = eqns.len();
    while i > 0 {
        i -= 1;
        let eqn = &eqns[i];
        count_need(counts, eqn);
    }
}

/// How often each variable is read by what is needed, up to twice.
fn need_counts(alloc: Global, node: &FlatNode) -> Result<Vec<u8>, AllocError>
    ensures { IfOk result (λ counts. is_uncounted counts.items ≡ is_idle node.now (needed node.now node.now.eqns)) }
{
    let mut counts = root_counts(alloc, node)?;
    count_needs(&mut counts, &node.eqns);
    Ok(counts)
}

fn without_uncounted(mut eqns: Vec<FlatEqn>, counts: &[u8]) -> Vec<FlatEqn>
    ensures { result.items ≡ without (is_uncounted counts.now) eqns.items }
{
    eqns.retain(|eqn| !is_uncounted(counts, eqn));
    eqns
}

/// The node without equations that nothing needs.
pub fn prune(alloc: Global, node: FlatNode) -> Result<FlatNode, AllocError>
    ensures { IfOk result (λ made. made ≡ pruned node) }
{
    let counts = need_counts(alloc, &node)?;
    let FlatNode {
        name,
        variables,
        inputs,
        outputs,
        eqns,
    } = node;
    let eqns = without_uncounted(eqns, &counts);
    Ok(FlatNode {
        name,
        variables,
        inputs,
        outputs,
        eqns,
    })
}
