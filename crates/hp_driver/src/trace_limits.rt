ghost use Rattle.std.specs.Prelude.{◌≡◌, ◌+◌, ◌≤◌, ◌<◌, ℕ, List, [], ◌++◌, Result, Ok, Err, length, vec_len, vec_capacity, IfOk, OnOk, IfErr, OnErr};
ghost use Rattle.hp_lines.specs.declared.read.LineErr.{LineErr};
ghost use Rattle.hp_driver.specs.LineFaults.{bad};
ghost use Rattle.hp_driver.specs.Hearing.{IsPast};

use hp_lines::{LineErr, MAX_LINE};
use std::alloc::{AllocError, Global};

/// The most lines of a trace.
pub const MAX_LINES: u64 = 1_000_000_000;

/// How many bytes are taken from the console at once, at most.
pub(crate) const PIECE: usize = 65_536;

/// Why a line of a trace is refused.
#[derive(Clone, Copy, Debug, PartialEq, Eq)]
pub enum Fault {
    /// Its words are not the values of the inputs.
    Line(LineErr),
    /// It has more than `MAX_LINE` bytes before its newline.
    Long,
    /// There are `MAX_LINES` lines before it.
    Many,
}

/// A line of a trace that is refused: its number, from 1, and why.
#[derive(Clone, Copy, Debug, PartialEq, Eq)]
pub struct BadLine {
    pub number: u64,
    pub fault: Fault,
}

/// What answers the lines of a trace, one by one.
pub trait Reactor {
    /// What it says to a line, and its state behind it; or why it refuses the line.
    ghost machine: { Self → List ℕ → Result (List ℕ × Self) LineErr };

    /// A length that no answer passes.
    ghost room: { Self → ℕ };

    fn room(&self) -> usize
        ensures { result ≡ room self.now };

    /// Writes the answer to a line behind what `into` holds. It takes no memory.
    fn answer(&mut self, line: &[u8], into: &mut Vec<u8>) -> Result<(), LineErr>
        requires short { length line.now ≤ MAX_LINE }
        requires free { vec_len into.old + room self.old ≤ vec_capacity into.old }
        ensures answered { OnOk result ((out : List ℕ) × (machine self.old line.now ≡ Ok (out, self.new))
            × (into.new.items ≡ into.old.items ++ out) × (length out ≤ room self.old)) }
        ensures refused { IfErr result (λ e. machine self.old line.now ≡ Err e) }
        ensures unsaid { OnErr result (into.new.items ≡ into.old.items) }
        ensures capacity { vec_capacity into.old ≤ vec_capacity into.new }
        ensures room { room self.new ≡ room self.old };
}

/// How a trace ended.
#[derive(Clone, Copy, Debug, PartialEq, Eq)]
pub enum End {
    /// The input was read to its end, and each line answered.
    Done,
    /// This line was refused, and the lines before it answered.
    Refused(BadLine),
    TakeFailed,
    PutFailed,
}

/// Why the lines of a piece were not all answered.
#[derive(Clone, Copy, Debug, PartialEq, Eq)]
pub enum Stop {
    Refused(BadLine),
    PutFailed,
}

/// What is kept of a trace between two bytes of it: the unfinished line, the answers that are not yet said, and how
/// many lines were answered.
#[derive(Debug, Drop)]
pub struct Hearing {
    pub piece: Vec<u8>,
    pub pending: Vec<u8>,
    pub number: u64,
}

impl Hearing {
    /// Nothing was heard. There is room for a line, and for the answers to a piece of the usual size, of which none is
    /// longer than `answer`.
    pub fn new(alloc: Global, answer: usize) -> Result<Hearing, AllocError>
        ensures piece { IfOk result (λ h. h.piece.items ≡ []) }
        ensures pending { IfOk result (λ h. h.pending.items ≡ []) }
        ensures number { IfOk result (λ h. h.number ≡ 0) }
        ensures for_line { IfOk result (λ h. MAX_LINE ≤ vec_capacity h.piece) }
        ensures for_answer { IfOk result (λ h. answer ≤ vec_capacity h.pending) }
    {
        Ok(Hearing {
            piece: Vec::with_capacity(alloc, MAX_LINE)?,
            pending: Vec::with_capacity(alloc, answer.saturating_add(PIECE))?,
            number: 0,
        })
    }

    /// Gives the unfinished line with more bytes where it is a line too many, or too long.
    pub fn check(&self, more: &[u8]) -> Result<(), BadLine>
        requires number { self.now.number ≤ MAX_LINES }
        requires line { vec_len self.now.piece ≤ MAX_LINE }
        ensures few { OnOk result (self.now.number < MAX_LINES) }
        ensures short { OnOk result (vec_len self.now.piece + length more.now ≤ MAX_LINE) }
        ensures past { IfErr result (λ line. IsPast self.now more.now line) }
    {
        if self.number >= MAX_LINES {
            return Err(self.refused(Fault::Many));
        }
        if more.len() > MAX_LINE - self.piece.len() {
            return Err(self.refused(Fault::Long));
        }
        Ok(())
    }

    /// Puts bytes behind the unfinished line, for which there is room.
    pub fn keep(&mut self, more: &[u8])
        requires room { vec_len self.old.piece + length more.now ≤ vec_capacity self.old.piece }
        ensures piece { self.new.piece.items ≡ self.old.piece.items ++ more.now }
        ensures capacity { vec_capacity self.old.piece ≤ vec_capacity self.new.piece }
        ensures pending { self.new.pending ≡ self.old.pending }
        ensures number { self.new.number ≡ self.old.number }
    {
        if self.piece.extend_from_slice(more).is_err() {
            unreachable!();
        }
    }

    /// The unfinished line, where it is refused.
    pub fn refused(&self, fault: Fault) -> BadLine
        requires { self.now.number ≤ MAX_LINES }
        ensures { result ≡ bad (self.now.number + 1) fault }
    {
        BadLine {
            number: self.number + 1,
            fault,
        }
    }
}
