//! The words of a checkpoint, read from the front.
ghost use Rattle.std.specs.Prelude.{◌≡◌, ◌≤◌, ◌+◌, ◌++◌, ◌∷◌, ◌==◌, [], true, length, List, ℕ, IfOk, IfErr, Ok, Err};
ghost use Rattle.std.specs.Str.{bytes_eq};
ghost use Rattle.hp_obc.specs.Form.{is_name};
ghost use Rattle.hp_obctext.specs.MemoryTexts.{Says, AreValues, newline, joined, value_lines, heading};
ghost use Rattle.hp_obctext.specs.MemoryReading.{first_word, taken, begins, begins_name, begins_line, is_last, is_line};
ghost use Rattle.hp_obctext.specs.MemoryRefusals.{IsWrong, IsCheckpoint, Named, Lines};

use crate::memory::word::{behind_word, first_word, is_value};
use hp_obc::spelling::{is_reserved_word, spells_name};

/// A checkpoint, by its words.
#[derive(Clone, Copy, Debug)]
pub(crate) struct Checkpoint<'t> {
    pub node: &'t [u8],
    /// How many values it has.
    pub count: u64,
    /// The lines of its values, and the last one.
    pub lines: &'t [u8],
}

/// A word, and what stands behind it and its gap.
#[derive(Clone, Copy, Debug)]
struct Taken<'t> {
    word: &'t [u8],
    rest: &'t [u8],
}

/// What stands behind a word and its gap.
fn behind_fixed<'t>(text: &'t [u8], word: &[u8], gap: u8) -> Result<&'t [u8], &'t [u8]>
    ensures read { IfOk result (λ rest. taken (bytes_eq (first_word text.now) word.now) (begins (first_word text.now) word.now) gap text.now ≡ Ok rest.now) }
    ensures refused { IfErr result (λ rest. taken (bytes_eq (first_word text.now) word.now) (begins (first_word text.now) word.now) gap text.now ≡ Err rest.now) }
{
    let (first, _) = first_word(text);
    behind_word(text, first == word, word.starts_with(first), gap)
}

/// The name of a node, and what stands behind its line.
fn name_line(text: &[u8]) -> Result<Taken<'_>, &[u8]>
    ensures word { IfOk result (λ t. t.word.now ≡ first_word text.now) }
    ensures read { IfOk result (λ t. taken (is_name (first_word text.now)) (begins_name (first_word text.now)) newline text.now ≡ Ok t.rest.now) }
    ensures refused { IfErr result (λ rest. taken (is_name (first_word text.now)) (begins_name (first_word text.now)) newline text.now ≡ Err rest.now) }
{
    let (word, _) = first_word(text);
    let on = is_reserved_word(word) || word.is_empty();
    let rest = behind_word(text, spells_name(word), on, b'\n')?;
    Ok(Taken { word, rest })
}

fn is_last(word: &[u8]) -> bool
    ensures { result ≡ is_last word.now }
{
    word == b"end".as_slice()
}

fn is_line(word: &[u8]) -> bool
    ensures { result ≡ is_line word.now }
{
    is_last(word) || is_value(word)
}

/// Whether a word begins the last word of a checkpoint, or one that spells a value.
fn begins_line(word: &[u8]) -> bool
    ensures { result ≡ begins_line word.now }
{
    b"end".starts_with(word)
        || b"true".starts_with(word)
        || b"false".starts_with(word)
        || word == b"-".as_slice()
}

/// The word of a value or of the last line, and what stands behind the line.
fn value_line(text: &[u8]) -> Result<Taken<'_>, &[u8]>
    ensures word { IfOk result (λ t. t.word.now ≡ first_word text.now) }
    ensures read { IfOk result (λ t. taken (is_line (first_word text.now)) (begins_line (first_word text.now)) newline text.now ≡ Ok t.rest.now) }
    ensures shorter { IfOk result (λ t. length t.rest.now + 1 ≤ length text.now) }
    ensures refused { IfErr result (λ rest. taken (is_line (first_word text.now)) (begins_line (first_word text.now)) newline text.now ≡ Err rest.now) }
{
    let (word, _) = first_word(text);
    let rest = behind_word(text, is_line(word), begins_line(word), b'\n')?;
    Ok(Taken { word, rest })
}

/// How many values there are in front of the last line, behind which nothing stands.
fn count_values(text: &[u8]) -> Result<u64, &[u8]>
    ensures read { IfOk result (λ count. (ws : List (List ℕ)) × (AreValues ws × (text.now ≡ joined (value_lines ws)) × (count ≡ length ws))) }
    ensures refused { IfErr result (λ rest. IsWrong Lines text.now rest.now) }
{
    let mut line = value_line(text)?;
    let mut count = 0;
    while !is_last(line.word) {
        line = value_line(line.rest)?;
        count += 1;
    }
    if line.rest.is_empty() {
        Ok(count)
    } else {
        Err(line.rest)
    }
}

/// What stands behind the words in front of the name.
fn behind_heading(text: &[u8]) -> Result<&[u8], &[u8]>
    ensures read { IfOk result (λ rest. text.now ≡ joined heading ++ rest.now) }
    ensures refused { IfErr result (λ rest. IsWrong IsCheckpoint text.now rest.now) }
    ensures behind { IfOk result (λ rest. (place : List ℕ) → IsWrong Named rest.now place → IsWrong IsCheckpoint text.now place) }
{
    let rest = behind_fixed(text, b"hept-mem", b' ')?;
    let rest = behind_fixed(rest, b"1", b'\n')?;
    let rest = behind_fixed(rest, b"node", b' ')?;
    Ok(rest)
}

/// The words of a checkpoint, or what stands from the place on at which a text is refused.
pub(crate) fn checkpoint_of(text: &[u8]) -> Result<Checkpoint<'_>, &[u8]>
    ensures read { IfOk result (λ c. (ws : List (List ℕ)) × (Says text.now c.node.now ws × (c.count ≡ length ws) × (c.lines.now ≡ joined (value_lines ws)))) }
    ensures refused { IfErr result (λ rest. IsWrong IsCheckpoint text.now rest.now) }
{
    let rest = behind_heading(text)?;
    let name = name_line(rest)?;
    let count = count_values(name.rest)?;
    Ok(Checkpoint {
        node: name.word,
        count,
        lines: name.rest,
    })
}
