//! The program that finds why the contract of a node is kept or lost, and writes it as lines of words. Invariant: nothing is written but what `hp_reasons` found. Used by `tools/hept-why`, which tells it, and has the words of `hept` for a text that is refused.
#![tactic(auto)]

use hp_base::What;
use hp_compile::{Refusal, front};
use hp_io::{Folder, ReadErr, RealFolder, write_whole};
use hp_reasons::{WhyErr, facts, reason_of};
use hp_tree::{Item, Node, Program};
use std::alloc::{AllocError, Global};
use std::process::ExitCode;
use std::rt::{Env, Files};
use std::{env, io};

/// How a call ends that explains nothing.
#[derive(Clone, Copy, Debug, PartialEq, Eq)]
enum Fault {
    /// The text, the node or its contract is refused. `hept prove` says why.
    Refused,
    /// The words are not those of a file and a node.
    Usage,
    /// The file is not read.
    Read,
    /// Standard output takes no more.
    Write,
    NoMemory,
}

impl From<AllocError> for Fault {
    fn from(_: AllocError) -> Fault {
        Fault::NoMemory
    }
}

impl Fault {
    /// The status of the process, which is that of `hept`.
    fn status(self) -> u8 {
        match self {
            Fault::Refused => 1,
            Fault::Usage => 2,
            Fault::Read => 4,
            Fault::Write => 5,
            Fault::NoMemory => 6,
        }
    }
}

/// The node of this name that has a contract.
fn node_named<'a>(program: &'a Program, name: &str) -> Option<&'a Node> {
    for item in &program.items {
        if let Item::NodeItem(node) = item
            && node.name.bytes() == name.as_bytes()
            && node.contract.is_some()
        {
            return Some(node);
        }
    }
    None
}

/// The fault of a contract that is not explained.
fn unexplained(e: &WhyErr) -> Fault {
    match e {
        WhyErr::OutOfMemory => Fault::NoMemory,
        _ => Fault::Refused,
    }
}

/// What is found of the contract of a node.
fn explained(alloc: Global, text: &[u8], program: &Program, node: &Node) -> Result<Vec<u8>, Fault> {
    match reason_of(alloc, program, node) {
        Err(e) => Err(unexplained(&e)),
        Ok(reason) => match facts(alloc, text, program, node, &reason) {
            Ok(text) => Ok(text),
            Err(e) => Err(unexplained(&e)),
        },
    }
}

/// What is found of the contract of the node of this name in a text.
fn answer(alloc: Global, text: &[u8], name: &str) -> Result<Vec<u8>, Fault> {
    match front(alloc, text) {
        Err(Refusal::OutOfMemory) => Err(Fault::NoMemory),
        Err(_) => Err(Fault::Refused),
        Ok(ordered) => match node_named(&ordered.program, name) {
            None => Err(Fault::Refused),
            Some(node) => explained(alloc, text, &ordered.program, node),
        },
    }
}

/// The text of a file.
fn read(rt: &(impl Files + AllocGlobal), file: &str) -> Result<Vec<u8>, Fault> {
    let mut files = RealFolder::new(rt);
    let mut text = Vec::new(rt.alloc());
    match files.read(file, What::Size.most() as usize, &mut text) {
        Ok(()) => Ok(text),
        Err(ReadErr::Failed) => Err(Fault::Read),
        Err(ReadErr::TooLong { .. }) => Err(Fault::Refused),
        Err(ReadErr::OutOfMemory) => Err(Fault::NoMemory),
    }
}

/// The words behind the program's name, of which two are looked at.
fn words(rt: &(impl Env + AllocGlobal)) -> io::Result<Vec<String>> {
    let mut words = Vec::new(rt.alloc());
    for word in env::args(rt)?.skip(1) {
        words.push(word)?;
    }
    Ok(words)
}

fn run(rt: &(impl Env + Files + Print + AllocGlobal)) -> Result<(), Fault> {
    let Ok(words) = words(rt) else {
        return Err(Fault::Usage);
    };
    let [file, node] = words.as_slice() else {
        return Err(Fault::Usage);
    };
    let text = read(rt, file.as_str())?;
    let answer = answer(rt.alloc(), &text, node.as_str())?;
    match write_whole(&mut io::writer(rt), &answer) {
        Ok(()) => Ok(()),
        Err(_) => Err(Fault::Write),
    }
}

fn main(rt: HostRuntime) -> ExitCode {
    match run(&rt) {
        Ok(()) => ExitCode::SUCCESS,
        Err(fault) => ExitCode::from(fault.status()),
    }
}
