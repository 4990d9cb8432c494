ghost use Rattle.std.specs.Prelude.{◌≡◌, ◌≤◌, ℕ, List, suc, MatchResult};
ghost use Rattle.hp_obc.specs.Steps.{Names};
ghost use Rattle.hp_exec.specs.Bounds.{most_chained, most_instances, most_of, sum_of};
ghost use Rattle.hp_exec.specs.Counting.{count_at, capped_calls, capped_instances, HoldCalls, HoldInstances};
ghost use Rattle.hp_exec.specs.Passing.{PassesLimit};
ghost use Rattle.hp_exec.specs.Naming.{names_in};

use crate::error::ExecErr;
use crate::names::find;
use hp_base::{Limit, Name, What};
use indexmap::IndexSet;

/// The most machines on a chain of instances.
pub const MAX_CALLS: u64 = 70;

/// The most machine instances.
pub const MAX_INSTANCES: u64 = 250_000;

/// How large a machine is with its instances. A number that passes its limit is one more than the limit.
#[derive(Clone, Copy, Debug)]
pub struct Count {
    /// Machines on the longest chain of instances.
    pub calls: u64,
    /// Machine instances, itself counted.
    pub instances: u64,
}

fn count_at(place: Option<usize>, counts: &[Count]) -> Count
    ensures { result ≡ count_at place counts.now }
{
    match place {
        Some(k) if k < counts.len() => counts[k],
        _ => Count {
            calls: 0,
            instances: 0,
        },
    }
}

/// The count of a machine with instances of earlier machines of the names.
pub fn count_of(names: &IndexSet<&[u8]>, counts: &[Count], insts: &[(Name, Name)]) -> Count
    ensures calls { (chains : Names ℕ) → HoldCalls (names_in names.now) counts.now chains → result.calls ≡ capped_calls (suc (most_of chains insts.now)) }
    ensures instances { (numbers : Names ℕ) → HoldInstances (names_in names.now) counts.now numbers → result.instances ≡ capped_instances (suc (sum_of numbers insts.now)) }
{
    let mut calls = 1;
    let mut instances: u64 = 1;
    for (_, machine) in insts {
        let inner = count_at(find(names, machine), counts);
        calls = calls.max(inner.calls.saturating_add(1));
        instances = instances.saturating_add(inner.instances);
    }
    Count {
        calls: calls.min(MAX_CALLS + 1),
        instances: instances.min(MAX_INSTANCES + 1),
    }
}

impl Count {
    /// Whether the limits hold: first that of chains, and then that of instances.
    pub fn check(self) -> Result<(), ExecErr>
        ensures { MatchResult result (λ _. (self.calls ≤ most_chained) × (self.instances ≤ most_instances)) (λ e. PassesLimit self e) }
    {
        if self.calls > MAX_CALLS {
            return Err(ExecErr::Limit(Limit {
                what: What::Calls,
                found: MAX_CALLS + 1,
            }));
        }
        if self.instances > MAX_INSTANCES {
            return Err(ExecErr::Limit(Limit {
                what: What::Instances,
                found: MAX_INSTANCES + 1,
            }));
        }
        Ok(())
    }
}
