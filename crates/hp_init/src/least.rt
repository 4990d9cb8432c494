//! The least classes that follow what is asked.
ghost use Rattle.std.specs.Prelude.{◌≡◌, ℕ, ◌+◌, [], ◌∷◌, ◌++◌, false, set, get_or, length, replicate, OnOk, IfOk};
ghost use Rattle.hp_init.specs.Asks.{ObeysAll};
ghost use Rattle.hp_init.specs.Spreading.{valued, AreLeast, greater, greatest, lists, noted, all_noted, marks, is_unmarked, marked, all_marked, marked_by, all_marked_by, Spreads, Grew};

use crate::ask::{Ask, Source};
use std::alloc::{AllocError, Global};

/// The greater of the count and the numbers that are named.
fn greater(count: usize, ask: &Ask) -> usize
    ensures { result ≡ greater count ask.now }
{
    match ask {
        Ask::Follows(Source::Always, target) => count.max(*target),
        Ask::Follows(Source::Class(number), target) => count.max(*number).max(*target),
        Ask::First(_, _) => count,
    }
}

/// The greatest number that is named, and one more.
#[tactic(auto, using(crate::proofs::Rules::counted))]
fn count_numbers(asks: &[Ask]) -> Result<usize, AllocError>
    ensures { IfOk result (λ count. count ≡ greatest 0 asks.now + 1) }
{
    let mut greatest = 0;
    for ask in asks {
        greatest = greater(greatest, ask);
    }
    greatest.checked_add(1).ok_or(AllocError)
}

/// No followers of any number yet.
#[tactic(auto, using(crate::proofs::Rules::listed))]
fn no_followers(alloc: Global, count: usize) -> Result<Vec<Vec<usize>>, AllocError>
    ensures { IfOk result (λ followers. lists followers.items ≡ replicate count []) }
{
    let mut followers = Vec::new(alloc);
    for _ in 0..count {
        followers.push(Vec::new(alloc))?;
    }
    Ok(followers)
}

/// Notes a name that follows another.
#[tactic(auto, using(crate::proofs::Rules::listed))]
fn note_follower(
    number: usize,
    target: usize,
    followers: &mut [Vec<usize>],
) -> Result<(), AllocError>
    ensures { OnOk result (lists followers.new ≡ set (lists followers.old) number (get_or (lists followers.old) number [] ++ target ∷ [])) }
{
    if number < followers.len() {
        followers[number].push(target)?;
    }
    Ok(())
}

/// Notes which name follows another, if one is asked to.
fn note(ask: &Ask, followers: &mut [Vec<usize>]) -> Result<(), AllocError>
    ensures { OnOk result (lists followers.new ≡ noted ask.now (lists followers.old)) }
{
    match ask {
        Ask::Follows(Source::Class(number), target) => note_follower(*number, *target, followers),
        Ask::Follows(Source::Always, _) | Ask::First(_, _) => Ok(()),
    }
}

/// Which names follow each name, by their numbers.
#[tactic(auto, using(crate::proofs::Rules::counted))]
fn followers(alloc: Global, asks: &[Ask], count: usize) -> Result<Vec<Vec<usize>>, AllocError>
    ensures { IfOk result (λ followers. lists followers.items ≡ all_noted asks.now (replicate count [])) }
{
    let mut followers = no_followers(alloc, count)?;
    for ask in asks {
        note(ask, &mut followers)?;
    }
    Ok(followers)
}

/// No name is Second yet.
#[tactic(auto, using(crate::proofs::Rules::listed))]
fn all_first(alloc: Global, count: usize) -> Result<Vec<bool>, AllocError>
    ensures { IfOk result (λ second. second.items ≡ replicate count false) }
{
    let mut second = Vec::new(alloc);
    for _ in 0..count {
        second.push(false)?;
    }
    Ok(second)
}

fn is_unmarked(second: &[bool], number: usize) -> bool
    ensures { result ≡ is_unmarked second.now number }
{
    match second.get(number) {
        None => false,
        Some(is_second) => !*is_second,
    }
}

/// Makes the name Second, and keeps it for later if it was not so.
#[tactic(auto, using(crate::proofs::Rules::marked))]
fn mark(target: usize, second: &mut [bool], waiting: &mut Vec<usize>) -> Result<(), AllocError>
    ensures { OnOk result (marks second.new waiting.new.items ≡ marked target (marks second.old waiting.old.items)) }
{
    if is_unmarked(second, target) {
        second[target] = true;
        waiting.push(target)?;
    }
    Ok(())
}

/// Makes the names Second.
#[tactic(auto, using(crate::proofs::Rules::marked))]
fn mark_all(
    targets: &[usize],
    second: &mut [bool],
    waiting: &mut Vec<usize>,
) -> Result<(), AllocError>
    ensures { OnOk result (marks second.new waiting.new.items ≡ all_marked targets.now (marks second.old waiting.old.items)) }
{
    for i in 0..targets.len() {
        mark(targets[i], second, waiting)?;
    }
    Ok(())
}

/// Makes the name Second that follows always.
fn mark_by(ask: &Ask, second: &mut [bool], waiting: &mut Vec<usize>) -> Result<(), AllocError>
    ensures { OnOk result (marks second.new waiting.new.items ≡ marked_by ask.now (marks second.old waiting.old.items)) }
{
    if let Ask::Follows(Source::Always, target) = ask {
        mark(*target, second, waiting)?;
    }
    Ok(())
}

/// Makes the names Second that follow always.
#[tactic(auto, using(crate::proofs::Rules::marked))]
fn mark_sources(
    asks: &[Ask],
    second: &mut [bool],
    waiting: &mut Vec<usize>,
) -> Result<(), AllocError>
    ensures { OnOk result (marks second.new waiting.new.items ≡ all_marked_by asks.now (marks second.old waiting.old.items)) }
{
    for ask in asks {
        mark_by(ask, second, waiting)?;
    }
    Ok(())
}

/// The followers of a number.
#[tactic(auto, using(crate::proofs::Rules::counted))]
fn targets_at(followers: &[Vec<usize>], number: usize) -> &[usize]
    ensures { result.now ≡ get_or (lists followers.now) number [] }
{
    match followers.get(number) {
        None => &[],
        Some(targets) => targets,
    }
}

/// Makes Second what follows the numbers that wait, and what follows those, until none waits.
#[tactic(auto, using(crate::proofs::Rules::spread))]
fn spread(
    followers: &[Vec<usize>],
    second: &mut [bool],
    waiting: &mut Vec<usize>,
) -> Result<(), AllocError>
    requires { Spreads (lists followers.now) (marks second.old waiting.old.items) }
    ensures closed { OnOk result (Spreads (lists followers.now) (marks second.new [])) }
    ensures grew { OnOk result (Grew (lists followers.now) second.old second.new) }
{
    while let Some(number) = waiting.pop() {
        mark_all(targets_at(followers, number), second, waiting)?;
    }
    Ok(())
}

/// Makes Second what follows always, and what follows that.
fn reach(
    alloc: Global,
    asks: &[Ask],
    followers: &[Vec<usize>],
    second: &mut [bool],
) -> Result<(), AllocError>
    requires followers { lists followers.now ≡ all_noted asks.now (replicate (greatest 0 asks.now + 1) []) }
    requires first { second.old ≡ replicate (greatest 0 asks.now + 1) false }
    ensures obeys { OnOk result (ObeysAll (valued second.new) asks.now) }
    ensures least { OnOk result (AreLeast (valued second.new) asks.now) }
{
    let mut waiting = Vec::new(alloc);
    mark_sources(asks, second, &mut waiting)?;
    spread(followers, second, &mut waiting)?;
    Ok(())
}

/// The least classes that follow what is asked: for each number whether it is Second.
pub fn least_classes(alloc: Global, asks: &[Ask]) -> Result<Vec<bool>, AllocError>
    ensures obeys { IfOk result (λ second. ObeysAll (valued second.items) asks.now) }
    ensures least { IfOk result (λ second. AreLeast (valued second.items) asks.now) }
{
    let count = count_numbers(asks)?;
    let followers = followers(alloc, asks, count)?;
    let mut second = all_first(alloc, count)?;
    reach(alloc, asks, &followers, &mut second)?;
    Ok(second)
}
