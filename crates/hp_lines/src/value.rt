ghost use Rattle.std.specs.Prelude.{◌≡◌, ◌≤◌, length, option_map, List, ℕ};
ghost use Rattle.std.specs.List.{position};
ghost use Rattle.std.specs.Str.{bytes_eq};
ghost use Rattle.hp_base.specs.Kinds.{kind_seen};
ghost use Rattle.hp_lines.specs.Values.{bool_of, value_of, HasFewConstructors};

use crate::number::read_int;
use hp_base::{Kind, Name, Value};

fn read_bool(word: &[u8]) -> Option<Value>
    ensures { result ≡ bool_of word.now }
{
    if word == b"true".as_slice() {
        Some(Value::B(true))
    } else if word == b"false".as_slice() {
        Some(Value::B(false))
    } else {
        None
    }
}

/// The number of the first of some names that is the word.
fn read_constructor(word: &[u8], names: &[Name]) -> Option<u8>
    requires { length names.now ≤ 64 }
    ensures { result ≡ position (bytes_eq word.now) names.now }
{
    let number = names.iter().position(|name| word == name.bytes())?;
    Some(number as u8)
}

/// The value of a kind that a word spells.
pub(crate) fn read_value(word: &[u8], kind: &Kind) -> Option<Value>
    requires { HasFewConstructors (kind_seen kind.now) }
    ensures { result ≡ value_of (kind_seen kind.now) word.now }
{
    match kind {
        Kind::Bool => read_bool(word),
        Kind::Int => Some(Value::I(read_int(word)?)),
        Kind::Enum { number, cons } => Some(Value::E(*number, read_constructor(word, cons)?)),
    }
}
