ghost use Rattle.std.specs.Prelude.{◌≡◌, ◌≤◌, ◌<◌, ℕ, [], length, take, IfOk, IfErr, OnOk, IfSome};
ghost use Rattle.std.specs.Io.KnownBytes.{Appends, ReadConsumes};

use crate::{Failed, ReadErr};
use std::fs::OpenOptions;
use std::io::{ErrorKind, Read, Write};
use std::rt::Files;

/// How often a call is tried that a signal interrupts.
pub const TRIES: u32 = 1000;

/// How many bytes are read at a time.
const CHUNK: usize = 65_536;

/// Reads once. It has failed where each of `TRIES` tries was interrupted.
pub fn read_once<R: Read>(from: &mut R, into: &mut [u8]) -> Result<usize, Failed>
    ensures within { IfOk result (λ n. n ≤ length into.new) }
    ensures bytes { ReadConsumes (R.remaining from.old) (R.remaining from.new) result into.new }
{
    for _ in 0..TRIES {
        match from.read(into) {
            Ok(count) => return Ok(count),
            Err(e) if e.kind() == ErrorKind::Interrupted => {}
            Err(_) => return Err(Failed),
        }
    }
    Err(Failed)
}

/// Writes once and flushes. It has failed where each of `TRIES` tries was interrupted, and where nothing is taken. Where
/// a flush fails, the bytes may be written.
pub fn write_once<W: Write>(to: &mut W, piece: &[u8]) -> Result<usize, Failed>
    ensures some { IfOk result (λ n. 1 ≤ n) }
    ensures within { IfOk result (λ n. n ≤ length piece.now) }
    ensures bytes { IfOk result (λ n. Appends (W.contents to.old) (W.contents to.new) (take n piece.now)) }
{
    for _ in 0..TRIES {
        match to.write(piece) {
            Ok(0) => return Err(Failed),
            Ok(count) => {
                return match to.flush() {
                    Ok(()) => Ok(count),
                    Err(_) => Err(Failed),
                };
            }
            Err(e) if e.kind() == ErrorKind::Interrupted => {}
            Err(_) => return Err(Failed),
        }
    }
    Err(Failed)
}

/// Reads all that is left, of at most `limit` bytes.
pub fn read_whole<R: Read>(from: &mut R, limit: usize, into: &mut Vec<u8>) -> Result<(), ReadErr>
    requires empty { into.old.items ≡ [] }
    ensures whole { OnOk result (IfSome (R.remaining from.old) (λ bytes. into.new.items ≡ bytes)) }
    ensures within { OnOk result (length into.new.items ≤ limit) }
    ensures limit { IfErr result (λ e. (n : ℕ) → e ≡ ReadErr.TooLong n → n ≡ limit) }
    ensures too_long { IfErr result (λ e. (n : ℕ) → e ≡ ReadErr.TooLong n → IfSome (R.remaining from.old) (λ bytes. limit < length bytes)) }
{
    let mut chunk = [0; CHUNK];
    while into.len() <= limit {
        let room = CHUNK.min((limit - into.len()).saturating_add(1));
        let count = read_once(from, &mut chunk[..room])?;
        if count == 0 {
            return Ok(());
        }
        into.extend_from_slice(&chunk[..count])?;
    }
    Err(ReadErr::TooLong { limit })
}

/// Writes all of the bytes. Where it has failed, the first of them may be written.
#[tactic(auto, using(crate::proofs::WholeLaws::appended))]
pub fn write_whole<W: Write>(to: &mut W, bytes: &[u8]) -> Result<(), Failed>
    ensures { OnOk result (Appends (W.contents to.old) (W.contents to.new) bytes.now) }
{
    let mut done = 0;
    while done < bytes.len() {
        done += write_once(to, &bytes[done..])?;
    }
    Ok(())
}

/// Opens a file. It has failed where each of `TRIES` tries was interrupted.
pub(crate) fn open<R: Files>(rt: &R, how: &OpenOptions, name: &str) -> Result<R::File, Failed> {
    for _ in 0..TRIES {
        match how.open(rt, name) {
            Ok(file) => return Ok(file),
            Err(e) if e.kind() == ErrorKind::Interrupted => {}
            Err(_) => return Err(Failed),
        }
    }
    Err(Failed)
}
