ghost use Rattle.std.specs.Prelude.{◌≡◌, ◌≤◌, length, Option, Some, IsSome, List, OnOk, OnErr};
ghost use Rattle.std.specs.Result.{result_err};
ghost use Rattle.hp_base.specs.Kinds.{kinds_of, AreOfKinds};
ghost use Rattle.hp_base.specs.SignatureView.{kinds_seen};
ghost use Rattle.hp_lines.specs.Words.{words};
ghost use Rattle.hp_base.specs.Kinds.{kind_seen};
ghost use Rattle.hp_lines.specs.Values.{longest_line, value_of, values_of, HasFewConstructors, HaveFewConstructors};
ghost use Rattle.hp_lines.specs.Refusals.{noted, refusal};

use crate::value::read_value;
use crate::words::{count_words, first_word};
use hp_base::{Kind, Name, Signature, Value};
use thiserror::Error;

/// The most bytes of a line that is read.
pub const MAX_LINE: usize = 65_536;

/// Why a line spells no values.
#[derive(Clone, Copy, Debug, PartialEq, Eq, Error)]
pub enum LineErr {
    /// It has another number of words than there are inputs: this one.
    #[error("{found} words, and another number of inputs")]
    Count { found: u64 },
    /// The first word, counted from 1, that is no value of its input.
    #[error("word {word}: no value of its input")]
    Word { word: u32 },
}

/// Reads the values of the inputs, one from each word. A word is `true`, `false`, a constructor, or digits with an optional
/// minus, and words stand between blanks. After an error the places are as before. It takes no memory.
pub fn read_line(line: &[u8], s: &Signature, into: &mut [Value]) -> Result<(), LineErr>
    requires short { length line.now ≤ longest_line }
    requires few { HaveFewConstructors (kinds_of s.now.inputs) }
    requires places { length into.old ≡ length s.now.inputs }
    ensures read { OnOk result (values_of (kinds_of s.now.inputs) (words line.now) ≡ Some into.new) }
    ensures kinds { OnOk result (AreOfKinds (kinds_of s.now.inputs) into.new) }
    ensures refused { result_err result ≡ refusal (kinds_of s.now.inputs) (words line.now) }
    ensures kept { OnErr result (into.new ≡ into.old) }
{
    judge(line, &s.inputs)?;
    fill(line, &s.inputs, into);
    Ok(())
}

/// The number of the first wrong word, where the word of a number comes behind the others.
fn note_wrong(wrong: Option<u32>, number: u32, word: &[u8], kind: &Kind) -> Option<u32>
    requires { HasFewConstructors (kind_seen kind.now) }
    ensures { result ≡ noted wrong number (value_of (kind_seen kind.now) word.now) }
{
    if wrong.is_some() {
        return wrong;
    }
    match read_value(word, kind) {
        Some(_) => None,
        None => Some(number),
    }
}

/// Says why the words of a line are no values of the inputs, if they are none. It goes through the line once.
fn judge(line: &[u8], inputs: &[(Name, Kind)]) -> Result<(), LineErr>
    requires short { length line.now ≤ longest_line }
    requires few { HaveFewConstructors (kinds_seen inputs.now) }
    ensures { result_err result ≡ refusal (kinds_seen inputs.now) (words line.now) }
{
    let mut rest = line;
    let mut number = 0;
    let mut wrong = None;
    for (_, kind) in inputs {
        let Some((word, behind)) = first_word(rest) else {
            return Err(LineErr::Count {
                found: u64::from(number),
            });
        };
        number += 1;
        wrong = note_wrong(wrong, number, word, kind);
        rest = behind;
    }
    let more = count_words(rest);
    if more > 0 {
        return Err(LineErr::Count {
            found: u64::from(number) + more,
        });
    }
    match wrong {
        Some(word) => Err(LineErr::Word { word }),
        None => Ok(()),
    }
}

/// Writes the values that the words spell.
fn fill(line: &[u8], inputs: &[(Name, Kind)], into: &mut [Value])
    requires few { HaveFewConstructors (kinds_seen inputs.now) }
    requires places { length into.old ≡ length inputs.now }
    requires spelled { IsSome (values_of (kinds_seen inputs.now) (words line.now)) }
    ensures { values_of (kinds_seen inputs.now) (words line.now) ≡ Some into.new }
{
    let mut rest = line;
    for (i, (_, kind)) in inputs.iter().enumerate() {
        let Some((word, behind)) = first_word(rest) else {
            unreachable!();
        };
        let Some(value) = read_value(word, kind) else {
            unreachable!();
        };
        into[i] = value;
        rest = behind;
    }
}
