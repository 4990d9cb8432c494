//! Neighbouring cases of one list of commands, joined.
ghost use Rattle.std.specs.Prelude.{◌≡◌, ◌≤◌, ◌+◌, ◌++◌, [], true, map, length, vec_len, vec_capacity, OnOk, OnErr};
ghost use Rattle.hp_obc.specs.CommandView.{cmd_seen};
ghost use Rattle.hp_obc.specs.Commands.{cmds_of, arms_of, done, and_then};
ghost use Rattle.hp_fuse.specs.Fusing.{is_steady, ask_the_same, is_joinable, followed, paired, as_one, led_by, joined};
ghost use Rattle.hp_fuse.specs.Likeness.{AreAlike};
ghost use Rattle.hp_fuse.specs.Joining.{ahead, ArePartlyPaired, ArePartlyOne};

use crate::sets::{same_name, set_in_arms};
use hp_obc::{Cmd, Cmds};
use std::alloc::{AllocError, Global};
use std::mem;
use std::vec::IntoIter;

/// Whether this is a case that does not set its variable.
fn is_steady(cmd: &Cmd) -> bool
    ensures { result ≡ is_steady (cmd_seen cmd.now) }
{
    match cmd {
        Cmd::Case { name, arms } => !set_in_arms(arms, name),
        _ => false,
    }
}

/// Whether these are cases on one variable, of as many arms.
fn ask_the_same(first: &Cmd, second: &Cmd) -> bool
    ensures { result ≡ ask_the_same (cmd_seen first.now) (cmd_seen second.now) }
{
    match (first, second) {
        (
            Cmd::Case { name, arms },
            Cmd::Case {
                name: other,
                arms: others,
            },
        ) => same_name(name, other) && arms.len() == others.len(),
        _ => false,
    }
}

/// Whether two neighbours are to be joined.
fn are_joinable(first: &Cmd, first_steady: bool, second: &Cmd, second_steady: bool) -> bool
    requires first { first_steady ≡ is_steady (cmd_seen first.now) }
    requires second { second_steady ≡ is_steady (cmd_seen second.now) }
    ensures { result ≡ is_joinable (cmd_seen first.now) (cmd_seen second.now) }
{
    first_steady && second_steady && ask_the_same(first, second)
}

/// Moves commands behind others.
#[tactic(auto, using(crate::proofs::Rules::behind))]
fn append(cmds: &mut Cmds, more: &mut Cmds) -> Result<(), AllocError>
    ensures behind { OnOk result (cmds.new ≡ followed cmds.old more.old) }
    ensures moved { OnOk result (more.new ≡ done) }
    ensures kept { OnErr result ((cmds.new ≡ cmds.old) × (more.new ≡ more.old)) }
{
    cmds.list.append(&mut more.list)
}

/// Moves the commands of arms behind those of other arms, from the first on, as far as there is memory.
fn append_arms(arms: &mut [Cmds], others: &mut [Cmds]) -> Result<(), AllocError>
    requires as_many { length arms.old ≡ length others.old }
    ensures paired { OnOk result (arms_of arms.new ≡ paired (arms_of arms.old) (arms_of others.old)) }
    ensures partly { OnErr result (ArePartlyPaired arms.old others.old arms.new others.new) }
{
    for i in 0..arms.len() {
        append(&mut arms[i], &mut others[i])?;
    }
    Ok(())
}

/// Moves what the second of two cases does into the first.
fn join(first: &mut Cmd, second: &mut Cmd) -> Result<(), AllocError>
    requires { ask_the_same (cmd_seen first.old) (cmd_seen second.old) ≡ true }
    ensures one { OnOk result (cmd_seen first.new ≡ as_one (cmd_seen first.old) (cmd_seen second.old)) }
    ensures partly { OnErr result (ArePartlyOne (cmd_seen first.old) (cmd_seen second.old) (cmd_seen first.new) (cmd_seen second.new)) }
{
    match (first, second) {
        (
            Cmd::Case { name: _, arms },
            Cmd::Case {
                name: _,
                arms: others,
            },
        ) => { append_arms(arms, others) }
        _ => Ok(()),
    }
}

/// Takes commands over as they are.
fn move_rest(rest: IntoIter<Cmd>, into: &mut Vec<Cmd>)
    requires room { vec_len into.old + length (ahead rest) ≤ vec_capacity into.old }
    ensures { map cmd_seen into.new.items ≡ map cmd_seen into.old.items ++ ahead rest }
{
    let mut rest = rest;
    while let Some(cmd) = rest.next() {
        into.push_reserved(cmd);
    }
}

/// Takes commands over, whose neighbours are joined as far as there is memory.
fn join_into(first: Cmd, rest: IntoIter<Cmd>, into: &mut Vec<Cmd>) -> Result<(), AllocError>
    requires empty { into.old.items ≡ [] }
    requires room { length (ahead rest) + 1 ≤ vec_capacity into.old }
    ensures joined { OnOk result (cmds_of (map cmd_seen into.new.items) ≡ led_by (cmd_seen first) (joined (cmds_of (ahead rest)))) }
    ensures alike { OnErr result (AreAlike (and_then (cmd_seen first) (cmds_of (ahead rest))) (cmds_of (map cmd_seen into.new.items))) }
{
    let mut rest = rest;
    let mut last = first;
    let mut steady = is_steady(&last);
    while let Some(found) = rest.next() {
        let mut next = found;
        let next_steady = is_steady(&next);
        if are_joinable(&last, steady, &next, next_steady) {
            match join(&mut last, &mut next) {
                Ok(()) => drop(next),
                Err(error) => {
                    into.push_reserved(last);
                    into.push_reserved(next);
                    move_rest(rest, into);
                    return Err(error);
                }
            }
        } else {
            into.push_reserved(mem::replace(&mut last, next));
            steady = next_steady;
        }
    }
    into.push_reserved(last);
    Ok(())
}

/// Joins the neighbours in commands.
pub fn join_neighbours(alloc: Global, cmds: &mut Cmds) -> Result<(), AllocError>
    ensures joined { OnOk result (cmds.new ≡ joined cmds.old) }
    ensures alike { OnErr result (AreAlike cmds.old cmds.new) }
{
    let mut into = Vec::with_capacity(alloc, cmds.list.len())?;
    let list = mem::replace(&mut cmds.list, Vec::new(alloc));
    let mut rest = list.into_iter();
    let Some(first) = rest.next() else {
        return Ok(());
    };
    let outcome = join_into(first, rest, &mut into);
    cmds.list = into;
    outcome
}
