//! Certificates of contracts.
ghost use Rattle.std.specs.Prelude.{◌≡◌, IfOk, IfErr, IsTrue, is_some};
ghost use Rattle.hp_verdicts.specs.Decided.{IsProof, RefusesProof};
ghost use Rattle.hp_verdicts.specs.Found.{IsFound};

use crate::certificate::{certificate, text_of};
use crate::error::ContractErr;
use crate::machine::{is_wide, machine_of};
use hp_boolx::BoolMachine;
use hp_cert::certtext::Cert;
use hp_synth::solve;
use hp_tree::{Node, Program};
use std::alloc::Global;

/// The certificate of a machine.
fn prove_machine(alloc: Global, m: &BoolMachine, wide: bool) -> Result<Cert, ContractErr>
    ensures found { IfOk result (IsFound m.now wide) }
    ensures refused { IfErr result (λ e. e ≡ ContractErr.OutOfMemory) }
{
    let mut solved = solve(alloc, m)?;
    match certificate(alloc, m, wide, &mut solved) {
        Ok(cert) => Ok(cert),
        Err(_) => Err(ContractErr::OutOfMemory),
    }
}

/// The text of the certificate of the contract of a node that has one: that nothing is forced, or first within how many instants a violation is.
pub fn prove(alloc: Global, program: &Program, node: &Node) -> Result<Vec<u8>, ContractErr>
    requires { IsTrue (is_some node.now.contract) }
    ensures proof { IfOk result (λ text. IsProof program.now node.now text.items) }
    ensures refused { IfErr result (RefusesProof program.now node.now) }
{
    let m = machine_of(alloc, program, node)?;
    let cert = prove_machine(alloc, &m, is_wide(node))?;
    text_of(alloc, &cert)
}
