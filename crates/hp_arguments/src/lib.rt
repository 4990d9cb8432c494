//! The words of a call, read by `clap`: a command with one argument, two or three, and with no options. Invariant: the arguments are the words behind the command, unchanged. Used by `hp_driver`.
#![tactic(auto)]

ghost use Rattle.std.specs.Prelude.{◌≡◌, ◌≢◌, ℕ, List, [], true, IfOk, MatchOption, false, drop, map};
ghost use Rattle.std.specs.List.{list_all};
ghost use Rattle.std.specs.String.{string_bytes};
ghost use Rattle.clap.specs.Words.{HasMatchesOf, app_of, fault_of, is_simple_and_free, rule_of};
ghost use Rattle.hp_arguments.specs.Commands.{bare, needed, with_both, with_one, with_three};
ghost use Rattle.hp_arguments.specs.Words.{AreThreeArguments, AreTwoArguments, IsOneArgument, all_three, is_argument};

use clap::error::ErrorKind;
use clap::{Arg, ArgMatches, Command};
use std::alloc::{AllocError, Global};

/// Whether a word is an argument, and no option.
pub fn is_argument(word: &str) -> bool
    ensures { result ≡ is_argument word.now }
{
    match word.as_bytes() {
        [] => true,
        [first, ..] => *first != b'-',
    }
}

/// Whether what stands behind the first word is arguments.
fn have_arguments(words: &[String]) -> bool
    ensures { result ≡ list_all is_argument (drop 1 (map string_bytes words.now)) }
{
    words.iter().skip(1).all(|word| is_argument(word.as_str()))
}

fn needed(alloc: Global, id: &str) -> Arg<'_>
    ensures { (rule_of result ≡ needed id.now) × (result.global ≡ false) }
{
    Arg::new(alloc, id).required(true)
}

fn bare<'a>(alloc: Global) -> Command<'a>
    ensures { app_of result ≡ bare }
{
    Command::new(alloc, "command").disable_help_flag(true)
}

fn with_one<'a>(alloc: Global) -> Result<Command<'a>, AllocError>
    ensures { IfOk result (λ command. app_of command ≡ with_one) }
{
    bare(alloc).arg(needed(alloc, "argument"))
}

fn with_both<'a>(alloc: Global) -> Result<Command<'a>, AllocError>
    ensures { IfOk result (λ command. app_of command ≡ with_both) }
{
    bare(alloc)
        .arg(needed(alloc, "first"))?
        .arg(needed(alloc, "second"))
}

fn with_three<'a>(alloc: Global) -> Result<Command<'a>, AllocError>
    ensures { IfOk result (λ command. app_of command ≡ with_three) }
{
    with_both(alloc)?.arg(needed(alloc, "third"))
}

/// The matches of a command on these words, if it takes them.
fn matches_on<'a>(
    command: Command<'a>,
    words: &'a [String],
) -> Result<Option<ArgMatches<'a>>, AllocError>
    requires { is_simple_and_free (app_of command) ≡ true }
    ensures { IfOk result (λ found. MatchOption found (fault_of (app_of command.entry) (map string_bytes words.entry.now) ≢ [])
        (λ matches. (fault_of (app_of command.entry) (map string_bytes words.entry.now) ≡ []) × HasMatchesOf (app_of command.entry) (map string_bytes words.entry.now) matches)) }
{
    match command.try_get_matches_from(words) {
        Ok(matches) => Ok(Some(matches)),
        Err(error) => {
            if error.kind() == ErrorKind::OutOfMemory {
                Err(AllocError)
            } else {
                Ok(None)
            }
        }
    }
}

/// The one argument behind the name of a command, where one stands there and nothing else.
pub fn one_argument<'a>(alloc: Global, words: &'a [String]) -> Result<Option<&'a str>, AllocError>
    ensures { IfOk result (λ found. MatchOption found ((argument : List ℕ) → IsOneArgument (map string_bytes words.entry.now) argument → ⊥)
        (λ argument. IsOneArgument (map string_bytes words.entry.now) argument.now)) }
{
    if !have_arguments(words) {
        return Ok(None);
    }
    let command = with_one(alloc)?;
    let Some(matches) = matches_on(command, words)? else {
        return Ok(None);
    };
    Ok(matches.get_str("argument"))
}

/// The two arguments behind the name of a command, where two stand there and nothing else.
pub fn two_arguments<'a>(
    alloc: Global,
    words: &'a [String],
) -> Result<Option<(&'a str, &'a str)>, AllocError>
    ensures { IfOk result (λ found. MatchOption found ((first second : List ℕ) → AreTwoArguments (map string_bytes words.entry.now) first second → ⊥)
        (λ both. AreTwoArguments (map string_bytes words.entry.now) both.0.now both.1.now)) }
{
    if !have_arguments(words) {
        return Ok(None);
    }
    let command = with_both(alloc)?;
    let Some(matches) = matches_on(command, words)? else {
        return Ok(None);
    };
    Ok(matches.get_str("first").zip(matches.get_str("second")))
}

/// All three, where all are there.
fn all_of<'a>(
    first: Option<&'a str>,
    second: Option<&'a str>,
    third: Option<&'a str>,
) -> Option<(&'a str, &'a str, &'a str)>
    ensures { result ≡ all_three first.entry second.entry third.entry }
{
    let (first, second) = first.zip(second)?;
    let third = third?;
    Some((first, second, third))
}

/// The three arguments behind the name of a command, where three stand there and nothing else.
pub fn three_arguments<'a>(
    alloc: Global,
    words: &'a [String],
) -> Result<Option<(&'a str, &'a str, &'a str)>, AllocError>
    ensures { IfOk result (λ found. MatchOption found ((first second third : List ℕ) → AreThreeArguments (map string_bytes words.entry.now) first second third → ⊥)
        (λ all. AreThreeArguments (map string_bytes words.entry.now) all.0.now all.1.now all.2.now)) }
{
    if !have_arguments(words) {
        return Ok(None);
    }
    let command = with_three(alloc)?;
    let Some(matches) = matches_on(command, words)? else {
        return Ok(None);
    };
    let first = matches.get_str("first");
    let second = matches.get_str("second");
    let third = matches.get_str("third");
    Ok(all_of(first, second, third))
}
