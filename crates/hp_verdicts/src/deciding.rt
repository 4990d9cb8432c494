//! The contracts of a program, one after the other.
ghost use Rattle.std.specs.Prelude.{◌≡◌, OnOk, IfOk, IfErr, IsTrue, MatchOption, false, is_some, option_map};
ghost use Rattle.hp_boolx.specs.Game.{Safe};
ghost use Rattle.hp_boolx.specs.Machine.{game, variables};
ghost use Rattle.hp_verdicts.specs.Decided.{AreKept, IsKept, KeptItem, Refuses, RefusesContract, has_contract, own_contract};
ghost use Rattle.hp_verdicts.specs.Found.{AreRanks, IsRefuted, RefusesItem};

use crate::certificate::{lost_cert, short_text};
use crate::error::ContractErr;
use crate::machine::{is_wide, machine_of};
use hp_boolx::BoolMachine;
use hp_diagram::{Ref, Table};
use hp_synth::{Verdict, solve};
use hp_tree::{Item, Node, Program};
use std::alloc::{AllocError, Global};

/// In how many instants a violation is forced, and the text of the machine's certificate, if it is not too long.
#[derive(Drop)]
struct Refutation {
    instants: u64,
    cert: Option<Vec<u8>>,
}

/// What the states from which a violation is forced come to.
fn refute(
    alloc: Global,
    m: &BoolMachine,
    wide: bool,
    t: &Table,
    ranks: &[Ref],
) -> Result<Refutation, AllocError>
    requires vars { t.now.vars ≡ variables m.now }
    requires ranks { AreRanks m.now t.now ranks.now }
    ensures { IfOk result (λ r. IsRefuted m.now wide r.instants (option_map (λ text. text.items) r.cert)) }
{
    let Ok(cert) = lost_cert(alloc, m, wide, t, ranks) else {
        return Err(AllocError);
    };
    let text = short_text(alloc, &cert)?;
    Ok(Refutation {
        instants: ranks.len() as u64,
        cert: text,
    })
}

/// Whether a violation is forced from the first state of a machine, and in how many instants.
fn decide_machine(
    alloc: Global,
    m: &BoolMachine,
    wide: bool,
) -> Result<Option<Refutation>, AllocError>
    ensures { IfOk result (λ found. MatchOption found (Safe (game m.now) m.now.init) (λ r. IsRefuted m.now wide r.instants (option_map (λ text. text.items) r.cert))) }
{
    let solved = solve(alloc, m)?;
    match &solved.verdict {
        Verdict::Win { .. } => Ok(None),
        Verdict::Lose { ranks } => {
            let found = refute(alloc, m, wide, &solved.table, ranks)?;
            Ok(Some(found))
        }
    }
}

/// Decides the contract of a node that has one.
fn decide_contract(alloc: Global, program: &Program, node: &Node) -> Result<(), ContractErr>
    requires { IsTrue (is_some node.now.contract) }
    ensures kept { OnOk result (IsKept program.now node.now) }
    ensures refused { IfErr result (RefusesContract program.now node.now) }
{
    let m = machine_of(alloc, program, node)?;
    match decide_machine(alloc, &m, is_wide(node))? {
        None => Ok(()),
        Some(Refutation { instants, cert }) => {
            let node = node.name.copy(alloc)?;
            Err(ContractErr::Forced {
                node,
                instants,
                cert,
            })
        }
    }
}

/// Decides the contract of an item, if it is a node that has one.
fn decide_item(alloc: Global, program: &Program, item: &Item) -> Result<(), ContractErr>
    ensures kept { OnOk result (KeptItem program.now item.now) }
    ensures refused { IfErr result (RefusesItem program.now item.now) }
    ensures plain { own_contract item.now ≡ false → result ≡ Ok tt }
{
    match item {
        Item::TypeItem(_) => Ok(()),
        Item::NodeItem(node) => {
            if node.contract.is_none() {
                return Ok(());
            }
            decide_contract(alloc, program, node)
        }
    }
}

/// Decides each contract of an ordered program, in the order of its nodes: Ok where nothing is forced in any of them, else what is wrong with the first that is refused.
pub fn decide(alloc: Global, program: &Program) -> Result<(), ContractErr>
    ensures kept { OnOk result (AreKept program.now program.now) }
    ensures refused { IfErr result (Refuses program.now) }
    ensures plain { has_contract program.now ≡ false → IfErr result (λ e. e ≡ ContractErr.OutOfMemory) }
{
    for item in &program.items {
        if let Err(e) = decide_item(alloc, program, item) {
            return Err(e);
        }
    }
    Ok(())
}
