//! Why the contract of a node is kept or lost.
ghost use Rattle.std.specs.Prelude.{◌≡◌, IfOk};
ghost use Rattle.hp_abstract.specs.Machines.{IsMachineOf};
ghost use Rattle.hp_boolx.specs.Machine.{game};
ghost use Rattle.hp_play.specs.Plays.{IsOutcome};

use crate::because::Cause;
use crate::error::WhyErr;
use crate::labels::{add_slots, add_text};
use crate::machine::add_machine;
use crate::names::Names;
use crate::page::Page;
use crate::parts::Probe;
use crate::slots::{Slots, slots_of};
use hp_abstract::{Abstraction, abstraction};
use hp_boolx::BoolMachine;
use hp_labels::labels_of;
use hp_play::{Instant, Outcome, losing_play, replay};
use hp_tree::{Expr, Node, Program};
use std::alloc::{AllocError, Global};

/// What is found of the contract of a node: its machine, the slots that the variables of this are, and a play that was replayed, if a violation is forced.
#[derive(Drop)]
pub struct Reason<'a> {
    pub made: Abstraction,
    pub slots: Slots<'a>,
    pub outcome: Outcome,
}

/// Whether what is found is replayed on the gates of the machine.
fn is_replayed(alloc: Global, m: &BoolMachine, outcome: &Outcome) -> Result<bool, AllocError> {
    match outcome {
        Outcome::Kept => Ok(true),
        Outcome::Lost { play } => replay(alloc, m, play),
    }
}

/// What is found of a machine, replayed.
fn outcome_of(alloc: Global, m: &BoolMachine) -> Result<Outcome, WhyErr>
    ensures { IfOk result (IsOutcome (game m.now)) }
{
    let outcome = losing_play(alloc, m)?;
    if is_replayed(alloc, m, &outcome)? {
        Ok(outcome)
    } else {
        Err(WhyErr::NoPlay)
    }
}

/// Why the contract of a node of an ordered program is kept or lost: in the machine of the contract a violation is never forced; or it is, and this is a play of its game from the first state to a violation, in which no choice helps, and as short as any.
pub fn reason_of<'a>(
    alloc: Global,
    program: &'a Program,
    node: &'a Node,
) -> Result<Reason<'a>, WhyErr>
    ensures machine { IfOk result (λ r. IsMachineOf program.now node.now r.made.machine) }
    ensures outcome { IfOk result (λ r. IsOutcome (game r.made.machine) r.outcome) }
{
    let made = abstraction(alloc, program, node)?;
    let labels = labels_of(alloc, program, node)?;
    let Some(slots) = slots_of(alloc, &labels, &made)? else {
        return Err(WhyErr::NoLabels);
    };
    let outcome = outcome_of(alloc, &made.machine)?;
    Ok(Reason {
        made,
        slots,
        outcome,
    })
}

/// The guarantee of a node.
fn guarantee(node: &Node) -> Option<&Expr> {
    match &node.contract {
        None => None,
        Some(contract) => contract.enforce.as_ref(),
    }
}

/// The node of which is told, and how its names are shown.
#[derive(Clone, Copy)]
struct Told<'t, 'a> {
    alloc: Global,
    program: &'a Program,
    node: &'a Node,
    names: &'t Names<'a>,
}

/// Adds the instants of a play: the values of all variables, and of registers and early ones whether they may differ.
fn add_instants(play: &[Instant], page: &mut Page) -> Result<(), AllocError> {
    for instant in play {
        page.begin(b"instant")?;
        page.bits(&instant.values)?;
        page.bits(&instant.free)?;
        page.end()?;
    }
    Ok(())
}

impl<'t, 'a> Told<'t, 'a> {
    /// Adds what the contract assumes and enforces.
    fn add_contract(&self, page: &mut Page) -> Result<(), AllocError> {
        let node = self.node;
        let Some(contract) = &node.contract else {
            return Ok(());
        };
        if let Some(assume) = &contract.assume {
            page.begin(b"assume")?;
            add_text(self.names, assume, page)?;
            page.end()?;
        }
        if let Some(enforce) = &contract.enforce {
            page.begin(b"enforce")?;
            add_text(self.names, enforce, page)?;
            page.end()?;
        }
        Ok(())
    }

    /// Adds the parts of the guarantee, which of them are false at the last instant of a play, and why.
    fn add_violated(
        &self,
        m: &BoolMachine,
        play: &[Instant],
        page: &mut Page,
    ) -> Result<(), WhyErr> {
        let (Some(last), Some(guarantee)) = (play.last(), guarantee(self.node)) else {
            return Ok(());
        };
        let probe = Probe::new(self.alloc, self.program, self.node, m, &last.values);
        let parts = probe.add_parts(self.names, page)?;
        Cause::new(self.names, probe, guarantee).add(self.node, &parts, page)
    }
}

/// What is found of a node of a program with this text, as lines of words (`tools/heptools/facts.py` reads them).
pub fn facts<'a>(
    alloc: Global,
    text: &'a [u8],
    program: &'a Program,
    node: &'a Node,
    reason: &Reason<'a>,
) -> Result<Vec<u8>, WhyErr>
    requires { IsOutcome (game reason.now.made.machine) reason.now.outcome }
{
    let names = Names::new(alloc, text, program, node)?;
    let told = Told {
        alloc,
        program,
        node,
        names: &names,
    };
    let mut page = Page::new(alloc);
    let m = &reason.made.machine;
    add_machine(m, &mut page)?;
    add_slots(&names, &reason.slots, &mut page)?;
    told.add_contract(&mut page)?;
    if let Outcome::Lost { play } = &reason.outcome {
        add_instants(play, &mut page)?;
        told.add_violated(m, play, &mut page)?;
    }
    Ok(page.into_text())
}
