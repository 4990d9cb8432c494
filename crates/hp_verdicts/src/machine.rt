//! The machine of a node's contract.
ghost use Rattle.std.specs.Prelude.{◌≡◌, IfOk, IfErr, IsTrue, List, is_some};
ghost use Rattle.hp_tree.specs.declared.program.Item as tree;
ghost use Rattle.hp_abstract.specs.Machines.{IsMachineOf, IsRefused};
ghost use Rattle.hp_verdicts.specs.Decided.{RefusesMachine, is_wide_contract, some_wide, wide_type};

use crate::error::ContractErr;
use hp_abstract::{AbsErr, abstract_node};
use hp_base::Ty;
use hp_boolx::BoolMachine;
use hp_tree::{Decl, Node, Program};
use std::alloc::{AllocError, Global};

fn is_wide_type(ty: &Ty) -> bool
    ensures { result ≡ wide_type ty.now }
{
    match ty {
        Ty::Bool => false,
        Ty::Int | Ty::Enum(_) => true,
    }
}

fn is_any_wide(decls: &[Decl]) -> bool
    ensures { result ≡ some_wide decls.now }
{
    for decl in decls {
        if is_wide_type(&decl.ty) {
            return true;
        }
    }
    false
}

/// Whether some controllable variable of a node is not Boolean.
pub fn is_wide(node: &Node) -> bool
    ensures { result ≡ is_wide_contract node.now.contract }
{
    match &node.contract {
        None => false,
        Some(contract) => is_any_wide(&contract.controls),
    }
}

/// Why the contract of a node has no machine.
fn without_machine(alloc: Global, node: &Node, e: AbsErr) -> Result<ContractErr, AllocError>
    requires { IsTrue (is_some node.now.contract) }
    ensures { (program : List tree.Item) → IsRefused program node.now e → IfOk result (RefusesMachine program node.now) }
{
    match e {
        AbsErr::Assume { span } => {
            let node = node.name.copy(alloc)?;
            Ok(ContractErr::Assume { node, span })
        }
        AbsErr::Limit(limit) => {
            let node = node.name.copy(alloc)?;
            Ok(ContractErr::Limit { node, limit })
        }
        AbsErr::NotBuilt => Ok(ContractErr::NotBuilt),
        AbsErr::OutOfMemory => Ok(ContractErr::OutOfMemory),
    }
}

/// The machine of a node with a contract, or why there is none.
pub fn machine_of(alloc: Global, program: &Program, node: &Node) -> Result<BoolMachine, ContractErr>
    requires { IsTrue (is_some node.now.contract) }
    ensures machine { IfOk result (IsMachineOf program.now node.now) }
    ensures refused { IfErr result (RefusesMachine program.now node.now) }
{
    match abstract_node(alloc, program, node) {
        Ok(machine) => Ok(machine),
        Err(e) => Err(without_machine(alloc, node, e)?),
    }
}
