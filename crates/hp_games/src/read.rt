//! Machines as lines.
use hp_base::Name;
use hp_boolx::{BoolMachine, Counts, Gate, Parts};
use std::alloc::{AllocError, AllocFailed, Global};
use thiserror::Error;

/// Why a line is refused.
#[derive(Clone, Copy, Debug, PartialEq, Eq, Error)]
pub enum Fault {
    #[error("no such line")]
    Word,
    #[error("no such number")]
    Number,
    #[error("no machine")]
    Machine,
    #[error("out of memory")]
    OutOfMemory,
}

impl<T: Drop> From<AllocFailed<T>> for Fault {
    fn from(_error: AllocFailed<T>) -> Fault {
        Fault::OutOfMemory
    }
}

impl From<AllocError> for Fault {
    fn from(_error: AllocError) -> Fault {
        Fault::OutOfMemory
    }
}

/// A machine of which some lines are read.
#[derive(Drop)]
pub struct Reader {
    name: Vec<u8>,
    counts: Counts,
    widths: Vec<u16>,
    prefer: Vec<bool>,
    gates: Vec<Gate>,
    init: Vec<bool>,
    next: Vec<usize>,
}

const NONE: Counts = Counts {
    registers: 0,
    early: 0,
    control: 0,
    late: 0,
};

/// The number that a word spells.
fn number(word: Option<&str>) -> Result<usize, Fault> {
    match word {
        None => Err(Fault::Number),
        Some(word) => match word.parse::<usize>() {
            Ok(number) => Ok(number),
            Err(_) => Err(Fault::Number),
        },
    }
}

fn small(word: Option<&str>) -> Result<u16, Fault> {
    match u16::try_from(number(word)?) {
        Ok(number) => Ok(number),
        Err(_) => Err(Fault::Number),
    }
}

fn bit(word: Option<&str>) -> Result<bool, Fault> {
    match number(word)? {
        0 => Ok(false),
        1 => Ok(true),
        _ => Err(Fault::Number),
    }
}

/// The words of a line.
fn words_of(alloc: Global, line: &str) -> Result<Vec<&str>, AllocError> {
    let mut words = Vec::new(alloc);
    for word in line.split_ascii_whitespace() {
        words.push(word)?;
    }
    Ok(words)
}

/// The word at a place.
fn at<'a>(words: &[&'a str], place: usize) -> Option<&'a str> {
    words.get(place).copied()
}

/// The gate of a line, if it is one: a letter, and the numbers that it names.
fn gate_of(words: &[&str]) -> Result<Option<Gate>, Fault> {
    let Some(word) = at(words, 0) else {
        return Ok(None);
    };
    if word == "c" {
        return Ok(Some(Gate::Const(bit(at(words, 1))?)));
    }
    if word == "v" {
        return Ok(Some(Gate::Var(small(at(words, 1))?)));
    }
    operator_of(word, words)
}

fn operator_of(word: &str, words: &[&str]) -> Result<Option<Gate>, Fault> {
    let is_operator = word == "n" || word == "a" || word == "o" || word == "x" || word == "i";
    if !is_operator {
        return Ok(None);
    }
    let first = number(at(words, 1))?;
    if word == "n" {
        return Ok(Some(Gate::Not(first)));
    }
    let second = number(at(words, 2))?;
    if word == "a" {
        return Ok(Some(Gate::And(first, second)));
    }
    if word == "o" {
        return Ok(Some(Gate::Or(first, second)));
    }
    if word == "x" {
        return Ok(Some(Gate::Xor(first, second)));
    }
    Ok(Some(Gate::Ite(first, second, number(at(words, 3))?)))
}

fn add_bits(words: &[&str], into: &mut Vec<bool>) -> Result<(), Fault> {
    for i in 1..words.len() {
        into.push(bit(at(words, i))?)?;
    }
    Ok(())
}

fn add_numbers(words: &[&str], into: &mut Vec<usize>) -> Result<(), Fault> {
    for i in 1..words.len() {
        into.push(number(at(words, i))?)?;
    }
    Ok(())
}

fn add_widths(words: &[&str], into: &mut Vec<u16>) -> Result<(), Fault> {
    for i in 1..words.len() {
        into.push(small(at(words, i))?)?;
    }
    Ok(())
}

fn counts_of(words: &[&str]) -> Result<Counts, Fault> {
    Ok(Counts {
        registers: small(at(words, 1))?,
        early: small(at(words, 2))?,
        control: small(at(words, 3))?,
        late: small(at(words, 4))?,
    })
}

impl Reader {
    pub fn new(alloc: Global) -> Reader {
        Reader {
            name: Vec::new(alloc),
            counts: NONE,
            widths: Vec::new(alloc),
            prefer: Vec::new(alloc),
            gates: Vec::new(alloc),
            init: Vec::new(alloc),
            next: Vec::new(alloc),
        }
    }

    fn begin(&mut self, alloc: Global, name: Option<&str>) -> Result<(), Fault> {
        let Some(name) = name else {
            return Err(Fault::Word);
        };
        self.name = Vec::from_slice(alloc, name.as_bytes())?;
        Ok(())
    }

    /// The machine whose last line is this one. The next one begins anew.
    fn end(&mut self, alloc: Global, words: &[&str]) -> Result<BoolMachine, Fault> {
        let read = std::mem::replace(self, Reader::new(alloc));
        let parts = Parts {
            name: Name::new(alloc, &read.name[..read.name.len().min(255)])?,
            counts: read.counts,
            widths: read.widths,
            prefer: read.prefer,
            gates: read.gates,
            init: read.init,
            next: read.next,
            valid: number(at(words, 1))?,
            hyp: number(at(words, 2))?,
            duty: number(at(words, 3))?,
        };
        match BoolMachine::of(parts) {
            Some(machine) => Ok(machine),
            None => Err(Fault::Machine),
        }
    }

    /// Takes a list, or a gate.
    fn take(&mut self, alloc: Global, word: &str, words: &[&str]) -> Result<(), Fault> {
        if word == "machine" {
            return self.begin(alloc, at(words, 1));
        }
        if word == "counts" {
            self.counts = counts_of(words)?;
            return Ok(());
        }
        if word == "widths" {
            return add_widths(words, &mut self.widths);
        }
        if word == "prefer" {
            return add_bits(words, &mut self.prefer);
        }
        if word == "init" {
            return add_bits(words, &mut self.init);
        }
        if word == "next" {
            return add_numbers(words, &mut self.next);
        }
        match gate_of(words)? {
            Some(gate) => Ok(self.gates.push(gate)?),
            None => Err(Fault::Word),
        }
    }

    /// Takes a line. It answers the machine whose last line it is.
    pub fn read(&mut self, alloc: Global, line: &str) -> Result<Option<BoolMachine>, Fault> {
        let words = words_of(alloc, line)?;
        let Some(word) = at(&words, 0) else {
            return Ok(None);
        };
        if word == "ends" {
            return Ok(Some(self.end(alloc, &words)?));
        }
        self.take(alloc, word, &words)?;
        Ok(None)
    }
}
