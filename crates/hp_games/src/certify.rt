//! Certificates: made of what is found of a machine, and read from texts.
ghost use Rattle.std.specs.Prelude.{◌≡◌, ◌+◌, length, IfOk};
ghost use Rattle.hp_boolx.specs.Machine.{game, variables};
ghost use Rattle.hp_cert.specs.Certtext.Certificates.{AreLines, IsClaim};
ghost use Rattle.hp_synth.specs.Verdicts.{IsSolved};

use hp_boolx::BoolMachine;
use hp_cert::certmade::{lose_cert, win_cert};
use hp_cert::certtext::{Cert, CertErr, Cond, Misfit, read_cert, write_cert};
use hp_cert::{Proved, check};
use hp_control::functions;
use hp_synth::{Solved, Verdict, solve};
use std::alloc::Global;
use std::io;

/// The widths of a machine, where some controllable variable has other than one bit.
fn widths(m: &BoolMachine) -> Option<&[u16]> {
    if m.widths.iter().all(|width| *width == 1) {
        return None;
    }
    Some(&m.widths)
}

/// The certificate of what is found of a machine.
fn certificate(alloc: Global, m: &BoolMachine, solved: &mut Solved) -> Result<Cert, CertErr>
    requires fits { variables m.now ≡ solved.old.table.vars }
    requires solved { IsSolved (game m.now) solved.old.table solved.old.verdict }
{
    match &solved.verdict {
        Verdict::Win { inv } => {
            let inv = *inv;
            let funs = functions(alloc, solved, m)?;
            win_cert(
                alloc,
                &solved.table,
                &m.name,
                m.counts,
                widths(m),
                inv,
                &funs,
            )
        }
        Verdict::Lose { ranks } => {
            lose_cert(alloc, &solved.table, &m.name, m.counts, widths(m), ranks)
        }
    }
}

/// The text of the certificate of a machine.
fn certified(alloc: Global, m: &BoolMachine) -> Result<Vec<u8>, CertErr> {
    let mut solved = solve(alloc, m)?;
    let cert = certificate(alloc, m, &mut solved)?;
    write_cert(alloc, &cert)
}

/// What a text proves of a machine.
fn proved(alloc: Global, m: &BoolMachine, text: &[u8]) -> Result<Proved, CertErr> {
    let cert = read_cert(alloc, text)?;
    check(alloc, m, &cert)
}

fn say_misfit(rt: &impl Print, misfit: Misfit) -> io::Result<()> {
    match misfit {
        Misfit::Node => println!(rt; "K2 node"),
        Misfit::Vars => println!(rt; "K2 vars"),
        Misfit::Count => println!(rt; "K2 count"),
        Misfit::Scope => println!(rt; "K2 scope"),
    }
}

fn say_failing(rt: &impl Print, condition: Cond) -> io::Result<()> {
    match condition {
        Cond::Init => println!(rt; "K3 init"),
        Cond::Step => println!(rt; "K3 step"),
        Cond::Rank(rank) => println!(rt; "K3 rank {rank}"),
    }
}

fn say_refusal(rt: &impl Print, refusal: &CertErr) -> io::Result<()> {
    match refusal {
        CertErr::Syntax { span } => {
            let line = span.line;
            let col = span.col;
            println!(rt; "K1 {line}:{col}")
        }
        CertErr::Misfit(misfit) => say_misfit(rt, *misfit),
        CertErr::Fails(condition) => say_failing(rt, *condition),
        CertErr::Limit(_) => println!(rt; "E3 text"),
        CertErr::OutOfMemory => println!(rt; "out of memory"),
    }
}

/// Says what a text proves of a machine, or why it is refused.
pub fn say_proved(rt: &(impl Print + AllocGlobal), m: &BoolMachine, text: &[u8]) -> io::Result<()> {
    match proved(rt.alloc(), m, text) {
        Ok(Proved::Win) => println!(rt; "win"),
        Ok(Proved::Lose { instants }) => println!(rt; "lose {instants}"),
        Err(refusal) => say_refusal(rt, &refusal),
    }
}

/// Says the certificate of a machine.
pub fn say_certificate(rt: &(impl Print + AllocGlobal), m: &BoolMachine) -> io::Result<()> {
    match certified(rt.alloc(), m) {
        Ok(text) => match std::str::from_utf8(&text) {
            Ok(text) => print!(rt; "{text}"),
            Err(_) => Ok(()),
        },
        Err(refusal) => say_refusal(rt, &refusal),
    }
}

/// Says what the certificate of a machine proves, read from its text.
pub fn say_own_proof(rt: &(impl Print + AllocGlobal), m: &BoolMachine) -> io::Result<()> {
    match certified(rt.alloc(), m) {
        Ok(text) => say_proved(rt, m, &text),
        Err(refusal) => say_refusal(rt, &refusal),
    }
}
