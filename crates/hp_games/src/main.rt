//! A program beside the tool: it solves Boolean machines that are written as lines (`data/README.md`). Invariant: each answer is the exact one. Used by tests alone.
//!
//! It says what it finds: the safe states and the choice at each of them, or the states from which a violation is forced in one instant, in two, and so on. Or it says
//! the certificate of each machine, and what texts of certificates prove of it.
#![tactic(auto)]

mod answer;
mod certify;
mod read;
mod text;

use answer::{Detail, say_answer};
use certify::{say_certificate, say_own_proof, say_proved};
use hp_boolx::BoolMachine;
use hp_io::{Folder, RealFolder};
use read::Reader;
use std::process::ExitCode;
use std::rt::{Env, Files};
use std::{env, io};
use text::text_of;

/// What is asked of each machine.
#[derive(Clone, Copy, Debug)]
enum Wanted {
    Answer(Detail),
    /// Its certificate, and what this proves.
    Certificate,
    /// What its certificate proves.
    Proof,
}

/// The most bytes of a file of machines.
const MAX_FILE: usize = 67_108_864;

/// Says what is asked of a machine.
fn say(rt: &(impl Print + AllocGlobal), m: &BoolMachine, wanted: Wanted) -> io::Result<()> {
    match wanted {
        Wanted::Answer(detail) => say_answer(rt, m, detail),
        Wanted::Certificate => {
            say_certificate(rt, m)?;
            say_own_proof(rt, m)
        }
        Wanted::Proof => say_own_proof(rt, m),
    }
}

/// Takes a line: that of a certificate's text, which is for the last machine, or one of a machine. It says whether the line could be read.
fn take_line(
    rt: &(impl Print + Eprint + AllocGlobal),
    reader: &mut Reader,
    last: &mut Option<BoolMachine>,
    line: &str,
    wanted: Wanted,
) -> io::Result<bool> {
    let alloc = rt.alloc();
    if let (Some(machine), Some(text)) = (last.as_ref(), text_of(alloc, line)?) {
        say_proved(rt, machine, &text)?;
        return Ok(true);
    }
    match reader.read(alloc, line) {
        Ok(None) => Ok(true),
        Ok(Some(machine)) => {
            say(rt, &machine, wanted)?;
            *last = Some(machine);
            Ok(true)
        }
        Err(fault) => {
            eprintln!(rt; "{line}: {fault}")?;
            Ok(false)
        }
    }
}

/// Takes the lines of a file, one by one.
fn take_all(
    rt: &(impl Print + Eprint + AllocGlobal),
    text: &str,
    wanted: Wanted,
) -> io::Result<bool> {
    let mut reader = Reader::new(rt.alloc());
    let mut last = None;
    for line in text.lines() {
        if !take_line(rt, &mut reader, &mut last, line, wanted)? {
            return Ok(false);
        }
    }
    Ok(true)
}

fn take_file(
    rt: &(impl Files + Print + Eprint + AllocGlobal),
    name: &str,
    wanted: Wanted,
) -> io::Result<bool> {
    let alloc = rt.alloc();
    let mut files = RealFolder::new(rt);
    let mut bytes = Vec::new(alloc);
    if files.read(name, MAX_FILE, &mut bytes).is_err() {
        eprintln!(rt; "{name}: not read")?;
        return Ok(false);
    }
    match std::str::from_utf8(bytes.as_slice()) {
        Ok(text) => take_all(rt, text, wanted),
        Err(_) => {
            eprintln!(rt; "{name}: no text")?;
            Ok(false)
        }
    }
}

/// What a word asks of the machines of the files behind it, if it is no file itself: `brief` verdicts alone, `functions` that the controller is made too, `certify`
/// certificates and what they prove, and `prove` only that.
fn wanted_by(word: &str) -> Option<Wanted> {
    if word == "brief" {
        return Some(Wanted::Answer(Detail::Verdict));
    }
    if word == "functions" {
        return Some(Wanted::Answer(Detail::Functions));
    }
    if word == "certify" {
        return Some(Wanted::Certificate);
    }
    if word == "prove" {
        return Some(Wanted::Proof);
    }
    None
}

/// The words are files, and what is asked of them.
fn take_words(rt: &(impl Env + Files + Print + Eprint + AllocGlobal)) -> io::Result<bool> {
    let mut wanted = Wanted::Answer(Detail::Whole);
    let mut all_read = true;
    for word in env::args(rt)?.skip(1) {
        match wanted_by(word.as_str()) {
            Some(by) => wanted = by,
            None => all_read = take_file(rt, word.as_str(), wanted)? && all_read,
        }
    }
    Ok(all_read)
}

fn main(rt: HostRuntime) -> ExitCode {
    match take_words(&rt) {
        Ok(true) => ExitCode::SUCCESS,
        Ok(false) | Err(_) => ExitCode::FAILURE,
    }
}
