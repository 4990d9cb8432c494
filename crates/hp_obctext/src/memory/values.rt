//! The values that the words of a checkpoint spell.
ghost use Rattle.std.specs.Prelude.{◌≡◌, ◌≤◌, length, map, option_map, Some, IsSome};
ghost use Rattle.std.specs.List.{position};
ghost use Rattle.std.specs.Str.{bytes_eq};
ghost use Rattle.hp_base.specs.declared.value.Value.TheVariants.{E};
ghost use Rattle.hp_lines.specs.Refusals.{wrong_word};
ghost use Rattle.hp_lines.specs.Values.{bool_of, value_of, values_of};
ghost use Rattle.hp_obc.specs.Form.{TypesForm};
ghost use Rattle.hp_obctext.specs.MemoryKinds.{constructors_at, kind_at, kinds_at};
ghost use Rattle.hp_obctext.specs.MemoryReading.{first_words};

use crate::memory::word::{behind_line, first_word};
use hp_base::{Name, Value};
use hp_lines::read_int;
use hp_obc::ObcType;

/// The constructors of the type of a number.
pub(crate) fn constructors_at(types: &[ObcType], number: u16) -> &[Name]
    ensures { result.now ≡ constructors_at types.now number }
{
    match types.get(usize::from(number)) {
        None => &[],
        Some(declared) => declared.cons.as_slice(),
    }
}

fn truth(word: &[u8]) -> Option<Value>
    ensures { result ≡ bool_of word.now }
{
    if word == b"true".as_slice() {
        Some(Value::B(true))
    } else if word == b"false".as_slice() {
        Some(Value::B(false))
    } else {
        None
    }
}

/// The place of the first of some names that is the word.
fn place_of(word: &[u8], names: &[Name]) -> Option<u8>
    requires { length names.now ≤ 64 }
    ensures { result ≡ position (bytes_eq word.now) names.now }
{
    let number = names.iter().position(|name| word == name.bytes())?;
    Some(number as u8)
}

/// The constructor of the type of a number that a word spells.
#[tactic(auto, using(crate::proofs::MemoryTypes::few_constructors))]
fn constructor(types: &[ObcType], number: u16, word: &[u8]) -> Option<Value>
    requires { TypesForm types.now }
    ensures { result ≡ option_map (E number) (position (bytes_eq word.now) (constructors_at types.now number)) }
{
    let place = place_of(word, constructors_at(types, number))?;
    Some(Value::E(number, place))
}

/// The value of the kind of another that a word spells.
fn value_like(types: &[ObcType], now: Value, word: &[u8]) -> Option<Value>
    requires { TypesForm types.now }
    ensures { result ≡ value_of (kind_at types.now now) word.now }
{
    match now {
        Value::B(_) => truth(word),
        Value::I(_) => Some(Value::I(read_int(word)?)),
        Value::E(number, _) => constructor(types, number, word),
        _ => None,
    }
}

/// The first word, counted from 1, that spells no value of the kind of the value at its place.
pub(crate) fn wrong_value(types: &[ObcType], now: &[Value], lines: &[u8]) -> Option<u64>
    requires { TypesForm types.now }
    ensures { result ≡ wrong_word 1 (kinds_at types.now now.now) (first_words (length now.now) lines.now) }
{
    let mut rest = lines;
    for i in 0..now.len() {
        let (word, _) = first_word(rest);
        let Some(_) = value_like(types, now[i], word) else {
            return Some(i as u64 + 1);
        };
        rest = behind_line(rest);
    }
    None
}

/// Writes the values that the words spell.
pub(crate) fn fill(types: &[ObcType], now: &[Value], lines: &[u8], into: &mut [Value])
    requires form { TypesForm types.now }
    requires places { length into.old ≡ length now.now }
    requires spelled { IsSome (values_of (kinds_at types.now now.now) (first_words (length now.now) lines.now)) }
    ensures { values_of (kinds_at types.now now.now) (first_words (length now.now) lines.now) ≡ Some into.new }
{
    let mut rest = lines;
    for i in 0..now.len() {
        let (word, _) = first_word(rest);
        let Some(value) = value_like(types, now[i], word) else {
            unreachable!();
        };
        into[i] = value;
        rest = behind_line(rest);
    }
}
