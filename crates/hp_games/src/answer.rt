//! What is found of a machine, as lines.
ghost use Rattle.std.specs.Prelude.{◌≡◌};
ghost use Rattle.hp_boolx.specs.Machine.{game, variables};
ghost use Rattle.hp_synth.specs.Verdicts.{IsWon};

use hp_boolx::BoolMachine;
use hp_control::{functions, played_functions};
use hp_diagram::{Ref, Table};
use hp_synth::{End, Solved, Verdict, play, solve};
use std::alloc::{AllocError, Global};
use std::io;

/// How much is said.
#[derive(Clone, Copy, Debug, PartialEq, Eq)]
pub enum Detail {
    /// The verdict, and the number of instants.
    Verdict,
    /// The number of a controller's functions, which are made in the solver's order.
    Functions,
    /// The states too, and the choices.
    Whole,
}

/// Adds the digits of a number as bits, the most significant first.
fn write_bits(number: u64, from: usize, count: usize, into: &mut [bool]) {
    for i in 0..count {
        let place = from.saturating_add(i);
        if place < into.len() {
            let shift = (count - 1 - i).min(63) as u32;
            into[place] = (number >> shift) & 1 == 1;
        }
    }
}

/// The value of a reference, as a digit.
fn digit(t: &Table, r: Ref, values: &[bool]) -> char {
    if !t.has(r) || values.len() < usize::from(t.vars()) {
        return '?';
    }
    if t.value(r, values) { '1' } else { '0' }
}

/// How many lists of so many bits there are.
fn lists(bits: usize) -> u64 {
    1 << (bits.min(20) as u32)
}

/// A set of states: a digit for each, in order.
fn set_of(alloc: Global, t: &Table, m: &BoolMachine, r: Ref) -> Result<String, AllocError> {
    let registers = usize::from(m.counts.registers);
    let mut values = vec![in alloc; false; usize::from(t.vars())]?;
    let mut text = String::new(alloc);
    for state in 0..lists(registers) {
        write_bits(state, 0, registers, &mut values);
        text.push(digit(t, r, &values))?;
    }
    Ok(text)
}

/// The choices of a controller: its bits for each state and all early values, in order.
fn choices_of(
    alloc: Global,
    t: &Table,
    m: &BoolMachine,
    funs: &[Ref],
) -> Result<String, AllocError> {
    let registers = usize::from(m.counts.registers);
    let early = usize::from(m.counts.early);
    let mut values = vec![in alloc; false; usize::from(t.vars())]?;
    let mut text = String::new(alloc);
    for place in 0..lists(registers.saturating_add(early)) {
        write_bits(place, 0, registers.saturating_add(early), &mut values);
        for i in 0..funs.len() {
            text.push(digit(t, funs[i], &values))?;
        }
    }
    Ok(text)
}

fn say_win(
    rt: &(impl Print + AllocGlobal),
    m: &BoolMachine,
    solved: &mut Solved,
    inv: Ref,
) -> io::Result<()>
    requires fits { variables m.now ≡ solved.old.table.vars }
    requires won { IsWon (game m.now) solved.old.table solved.old.verdict }
{
    let alloc = rt.alloc();
    let safe = set_of(alloc, &solved.table, m, inv)?;
    println!(rt; "safe {safe}")?;
    let funs = functions(alloc, solved, m)?;
    let choices = choices_of(alloc, &solved.table, m, &funs)?;
    println!(rt; "choices {choices}")
}

/// Goes through the rounds of a machine, and makes the functions of its controller, if nothing is forced. It says how many there are.
fn say_functions(rt: &(impl Print + AllocGlobal), m: &BoolMachine) -> io::Result<()> {
    let mut played = play(rt.alloc(), m)?;
    match played.end {
        End::Lost => println!(rt; "lose"),
        End::Won { .. } => {
            let count = played_functions(rt.alloc(), &mut played, m)?.len();
            println!(rt; "win\nfunctions {count}")
        }
    }
}

fn say_lose(
    rt: &(impl Print + AllocGlobal),
    m: &BoolMachine,
    t: &Table,
    ranks: &[Ref],
) -> io::Result<()> {
    for i in 0..ranks.len() {
        let set = set_of(rt.alloc(), t, m, ranks[i])?;
        println!(rt; "rank {set}")?;
    }
    Ok(())
}

/// Solves a machine, and says what is found.
fn say_solved(rt: &(impl Print + AllocGlobal), m: &BoolMachine, detail: Detail) -> io::Result<()> {
    let mut solved = solve(rt.alloc(), m)?;
    match &solved.verdict {
        Verdict::Win { inv } => {
            println!(rt; "win")?;
            let inv = *inv;
            if detail == Detail::Whole {
                say_win(rt, m, &mut solved, inv)?;
            }
            Ok(())
        }
        Verdict::Lose { ranks } => {
            let count = ranks.len();
            println!(rt; "lose {count}")?;
            if detail == Detail::Whole {
                say_lose(rt, m, &solved.table, ranks)?;
            }
            Ok(())
        }
    }
}

/// Says of a machine what is wanted.
pub fn say_answer(
    rt: &(impl Print + AllocGlobal),
    m: &BoolMachine,
    detail: Detail,
) -> io::Result<()> {
    match detail {
        Detail::Functions => say_functions(rt, m),
        Detail::Verdict | Detail::Whole => say_solved(rt, m, detail),
    }
}
