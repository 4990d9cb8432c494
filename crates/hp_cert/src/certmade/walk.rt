//! The walk over the diagrams of a certificate, with a stack of its own, since a diagram may be as deep as there are variables.
ghost use Rattle.std.specs.Prelude.{◌≡◌, ◌+◌, ◌<◌, ◌++◌, ◌∷◌, [], ℕ, List, All, Some, IfOk, OnOk};
ghost use Rattle.hp_cert.specs.declared.certmade.walk.Task.TheVariants as task;
ghost use Rattle.hp_cert.specs.Certmade.Tasks.{DoesAll, IsTask, weight, weights};
ghost use Rattle.hp_cert.specs.Certmade.Walks.{Walks, WalksAll};
ghost use Rattle.hp_diagram.specs.Diagrams.{branch_of, Has, IsReduced};

use hp_diagram::{Branch, Ref, Table};
use indexmap::IndexSet;
use std::alloc::{AllocError, Global};

/// What a walk has still to do.
#[derive(Clone, Copy)]
pub enum Task {
    /// To walk from a reference.
    Enter(Ref),
    /// To visit the node of an index.
    Leave(usize),
}

/// Begins to walk from a node.
fn enter_node(
    t: &Table,
    r: Ref,
    branch: Branch,
    nodes: &IndexSet<usize>,
    stack: &mut Vec<Task>,
) -> Result<(), AllocError>
    requires reduced { IsReduced t.now }
    requires has { Has t.now r }
    requires branch { branch_of t.now r ≡ Some branch }
    ensures tasks { OnOk result (All (IsTask t.now) stack.old.items → All (IsTask t.now) stack.new.items) }
    ensures does { OnOk result ((after : List ℕ) → DoesAll t.now stack.new.items nodes.now.keys after → DoesAll t.now (stack.old.items ++ task.Enter r ∷ []) nodes.now.keys after) }
    ensures less { OnOk result (weights stack.new.items < weights stack.old.items + weight (task.Enter r)) }
{
    if nodes.contains(&r.index) {
        return Ok(());
    }
    stack.push(Task::Leave(r.index))?;
    stack.push(Task::Enter(branch.high))?;
    stack.push(Task::Enter(branch.low))?;
    Ok(())
}

/// Begins to walk from a reference.
fn enter(
    t: &Table,
    r: Ref,
    nodes: &IndexSet<usize>,
    stack: &mut Vec<Task>,
) -> Result<(), AllocError>
    requires { Has t.now r }
    ensures tasks { OnOk result (All (IsTask t.now) stack.old.items → All (IsTask t.now) stack.new.items) }
    ensures does { OnOk result ((after : List ℕ) → DoesAll t.now stack.new.items nodes.now.keys after → DoesAll t.now (stack.old.items ++ task.Enter r ∷ []) nodes.now.keys after) }
    ensures less { OnOk result (weights stack.new.items < weights stack.old.items + weight (task.Enter r)) }
{
    match t.branch(r) {
        None => Ok(()),
        Some(branch) => enter_node(t, r, branch, nodes, stack),
    }
}

/// Does one task.
fn perform(
    t: &Table,
    task: Task,
    nodes: &mut IndexSet<usize>,
    stack: &mut Vec<Task>,
) -> Result<(), AllocError>
    requires { IsTask t.now task }
    ensures tasks { OnOk result (All (IsTask t.now) stack.old.items → All (IsTask t.now) stack.new.items) }
    ensures does { OnOk result ((after : List ℕ) → DoesAll t.now stack.new.items nodes.new.keys after → DoesAll t.now (stack.old.items ++ task ∷ []) nodes.old.keys after) }
    ensures less { OnOk result (weights stack.new.items < weights stack.old.items + weight task) }
{
    match task {
        Task::Enter(r) => enter(t, r, nodes, stack),
        Task::Leave(index) => {
            nodes.insert(index)?;
            Ok(())
        }
    }
}

/// Visits the nodes that a reference reaches and that are not visited yet.
fn walk_from(
    alloc: Global,
    t: &Table,
    root: Ref,
    nodes: &mut IndexSet<usize>,
) -> Result<(), AllocError>
    requires { Has t.now root }
    ensures { OnOk result (Walks t.now nodes.old.keys root nodes.new.keys) }
{
    let mut stack = Vec::new(alloc);
    stack.push(Task::Enter(root))?;
    while let Some(task) = stack.pop() {
        perform(t, task, nodes, &mut stack)?;
    }
    Ok(())
}

/// The nodes that some references reach, in the order of a walk.
pub fn walk(alloc: Global, t: &Table, roots: &[Ref]) -> Result<IndexSet<usize>, AllocError>
    requires { All (Has t.now) roots.now }
    ensures { IfOk result (λ nodes. WalksAll t.now [] roots.now nodes.keys) }
{
    let mut nodes = IndexSet::new(alloc);
    for root in roots {
        walk_from(alloc, t, *root, &mut nodes)?;
    }
    Ok(nodes)
}
