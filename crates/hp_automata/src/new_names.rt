//! The names of new variables.
ghost use Rattle.std.specs.Prelude.{◌≡◌, ◌≤◌, ◌++◌, length, take, IfOk, OnOk};
ghost use Rattle.hp_automata.specs.NewNames.{is_new, text, letters, digits, numbered, word_name, state_word, transition_word, signed, value_name};

use hp_base::Name;
use itoa::Buffer;
use std::alloc::{AllocError, Global};

/// The sign that no name of a source text holds.
const SIGN: u8 = b'$';

/// The words of an automaton, of its states and of their transitions.
#[derive(Clone, Copy, Debug)]
pub enum Word {
    /// The jump of this instant.
    Jump,
    /// The jump of the next instant, also as a state hands it on.
    Next,
    /// The jump that a state and those behind it choose.
    From,
    /// Whether a state is active.
    On,
    /// The jump that a strong transition and those behind it choose.
    Strong,
    /// The same of a weak transition.
    Weak,
}

impl Word {
    fn text(self) -> &'static str
        ensures { result.now ≡ text self }
    {
        match self {
            Word::Jump => "jump$",
            Word::Next => "next$",
            Word::From => "from$",
            Word::On => "on$",
            Word::Strong => "strong$",
            Word::Weak => "weak$",
        }
    }
}

/// Whether the name has a sign.
#[tactic(auto, using(crate::proofs::Rules::signs))]
fn is_new(text: &[u8]) -> bool
    ensures { result ≡ is_new text.now }
{
    for i in 0..text.len() {
        if text[i] == SIGN {
            return true;
        }
    }
    false
}

/// Adds how many automata are around, in letters.
fn add_letters(depth: u64, into: &mut Vec<u8>) -> Result<(), AllocError>
    ensures { OnOk result (into.new.items ≡ into.old.items ++ letters depth) }
{
    if depth < 10 {
        into.push(97 + depth as u8)?;
        return Ok(());
    }
    into.push(97 + (depth / 10 % 10) as u8)?;
    into.push(97 + (depth % 10) as u8)?;
    Ok(())
}

/// Adds the number of a state or a transition.
fn add_digits(number: u64, into: &mut Vec<u8>) -> Result<(), AllocError>
    ensures { OnOk result (into.new.items ≡ into.old.items ++ digits number) }
{
    let mut buffer = Buffer::new();
    into.extend_from_slice(buffer.format(number.min(999_999)).as_bytes())?;
    Ok(())
}

/// Adds such a number behind its mark.
fn add_number(number: u64, into: &mut Vec<u8>) -> Result<(), AllocError>
    ensures { OnOk result (into.new.items ≡ numbered into.old.items number) }
{
    into.push(b'_')?;
    add_digits(number, into)
}

fn add_word(word: Word, depth: u64, into: &mut Vec<u8>) -> Result<(), AllocError>
    ensures { OnOk result (into.new.items ≡ into.old.items ++ word_name word depth) }
{
    into.extend_from_slice(word.text().as_bytes())?;
    add_letters(depth, into)
}

/// A word of an automaton with so many automata around.
pub fn word_name(alloc: Global, word: Word, depth: u64) -> Result<Name, AllocError>
    ensures { IfOk result (λ name. name ≡ word_name word depth) }
{
    let mut bytes = Vec::new(alloc);
    add_word(word, depth, &mut bytes)?;
    Name::new(alloc, &bytes)
}

/// A word of the state with this number.
pub fn state_word(alloc: Global, word: Word, depth: u64, state: u64) -> Result<Name, AllocError>
    ensures { IfOk result (λ name. name ≡ state_word word depth state) }
{
    let mut bytes = Vec::new(alloc);
    add_word(word, depth, &mut bytes)?;
    add_number(state, &mut bytes)?;
    Name::new(alloc, &bytes)
}

/// A word of a transition of that state.
pub fn transition_word(
    alloc: Global,
    word: Word,
    depth: u64,
    state: u64,
    number: u64,
) -> Result<Name, AllocError>
    ensures { IfOk result (λ name. name ≡ transition_word word depth state number) }
{
    let mut bytes = Vec::new(alloc);
    add_word(word, depth, &mut bytes)?;
    add_number(state, &mut bytes)?;
    add_number(number, &mut bytes)?;
    Name::new(alloc, &bytes)
}

/// The first bytes of a text, at most `room`.
fn head(text: &[u8], room: usize) -> &[u8]
    ensures { result.now ≡ take room text.now }
{
    &text[..text.len().min(room)]
}

/// The bytes of a name, with a sign.
#[tactic(auto, using(crate::proofs::Rules::signs))]
fn signed(alloc: Global, text: &[u8]) -> Result<Vec<u8>, AllocError>
    ensures { IfOk result (λ bytes. bytes.items ≡ signed text.now) }
{
    if is_new(text) {
        return Vec::from_slice(alloc, head(text, 262));
    }
    let mut bytes = Vec::from_slice(alloc, head(text, 261))?;
    bytes.push(SIGN)?;
    Ok(bytes)
}

/// The value of a name in a state.
pub fn value_name(alloc: Global, depth: u64, state: u64, text: &[u8]) -> Result<Name, AllocError>
    ensures { IfOk result (λ name. name ≡ value_name depth state text.now) }
{
    let mut bytes = signed(alloc, text)?;
    add_letters(depth, &mut bytes)?;
    add_digits(state, &mut bytes)?;
    Name::new(alloc, &bytes)
}
