ghost use Rattle.std.specs.Prelude.{◌≡◌, ◌+◌, ◌≤◌, ◌<◌, ◌++◌, ◌∷◌, [], ◌⊎◌, List, length, slice_index_or, vec_len, vec_capacity};
ghost use Rattle.std.specs.List.{join_with_byte, sum_by};
ghost use Rattle.std.specs.Fmt.{signed_decimal};
ghost use Rattle.hp_base.specs.Kinds.{kinds_of, kind_seen, IsOfKind, AreOfKinds};
ghost use Rattle.hp_base.specs.SignatureView.{kinds_seen};
ghost use Rattle.hp_base.specs.declared.value.Value.{Value};
ghost use Rattle.hp_lines.specs.Lines.{text_of, texts_of, spaced, line_of, longest, longest_word, longest_line, line_bound, word_room};

use hp_base::{Kind, MAX_NAME, Name, Signature, Value};
use itoa::Buffer;

fn longest_name(names: &[Name]) -> usize
    ensures longest { result ≡ longest names.now }
    ensures within { result ≤ MAX_NAME }
{
    let mut most = 0;
    for name in names {
        most = most.max(name.bytes().len());
    }
    most
}

/// The length of the longest word that spells a value of the kind, and the byte behind it.
fn room_of(kind: &Kind) -> usize
    ensures { result ≡ word_room (kind_seen kind.now) }
{
    match kind {
        Kind::Bool => 6,
        Kind::Int => 12,
        Kind::Enum { cons, .. } => longest_name(cons) + 1,
    }
}

fn room_of_line(outputs: &[(Name, Kind)]) -> usize
    ensures { result ≡ line_bound (kinds_seen outputs.now) }
{
    let mut room: usize = 0;
    for (_, kind) in outputs {
        room = room.saturating_add(room_of(kind));
    }
    room.max(1)
}

/// The length of the longest line of values of the outputs, or the greatest `usize` where it is greater. It takes no memory.
pub fn line_room(s: &Signature) -> usize
    ensures exact { result ≡ line_bound (kinds_of s.now.outputs) }
    ensures bounds { (values : List Value) → AreOfKinds (kinds_of s.now.outputs) values → (length (line_of (kinds_of s.now.outputs) values) ≤ result) ⊎ (result ≡ usize.MAX) }
{
    room_of_line(&s.outputs)
}

/// Appends bytes for which there is room.
fn append(bytes: &[u8], into: &mut Vec<u8>)
    requires { vec_len into.old + length bytes.now ≤ vec_capacity into.old }
    ensures items { into.new.items ≡ into.old.items ++ bytes.now }
    ensures len { vec_len into.new ≡ vec_len into.old + length bytes.now }
    ensures capacity { vec_capacity into.old ≤ vec_capacity into.new }
{
    if into.extend_from_slice(bytes).is_err() {
        unreachable!();
    }
}

fn append_int(number: i32, into: &mut Vec<u8>)
    requires { vec_len into.old + 11 ≤ vec_capacity into.old }
    ensures items { into.new.items ≡ into.old.items ++ signed_decimal number }
    ensures len { vec_len into.new ≤ vec_len into.old + 11 }
    ensures capacity { vec_capacity into.old ≤ vec_capacity into.new }
{
    let mut buffer = Buffer::new();
    append(buffer.format(number).as_bytes(), into);
}

/// The name of a constructor.
#[tactic(auto, using(crate::proofs::LineLaws::longest_bounds))]
fn constructor(names: &[Name], number: u8) -> &[u8]
    requires { number < length names.now }
    ensures name { result.now ≡ slice_index_or names.now number [] }
    ensures length { length result.now ≤ longest names.now }
{
    names[usize::from(number)].bytes()
}

/// Appends the word that spells a value.
fn append_value(value: &Value, kind: &Kind, into: &mut Vec<u8>)
    requires kind { IsOfKind (kind_seen kind.now) value.now }
    requires room { vec_len into.old + longest_word (kind_seen kind.now) ≤ vec_capacity into.old }
    ensures items { into.new.items ≡ into.old.items ++ text_of (kind_seen kind.now) value.now }
    ensures len { vec_len into.new ≤ vec_len into.old + longest_word (kind_seen kind.now) }
    ensures capacity { vec_capacity into.old ≤ vec_capacity into.new }
{
    match (kind, value) {
        (Kind::Bool, Value::B(true)) => append(b"true", into),
        (Kind::Bool, Value::B(false)) => append(b"false", into),
        (Kind::Int, Value::I(n)) => append_int(*n, into),
        (Kind::Enum { cons, .. }, Value::E(_, c)) => append(constructor(cons, *c), into),
        _ => unreachable!(),
    }
}

/// Appends the words that spell some values, each with a space in front.
fn append_more(values: &[Value], outputs: &[(Name, Kind)], into: &mut Vec<u8>)
    requires kinds { AreOfKinds (kinds_seen outputs.now) values.now }
    requires lengths { length values.now ≡ length outputs.now }
    requires room { vec_len into.old + sum_by word_room (kinds_seen outputs.now) ≤ vec_capacity into.old }
    ensures items { into.new.items ≡ into.old.items ++ spaced (texts_of (kinds_seen outputs.now) values.now) }
    ensures len { vec_len into.new ≤ vec_len into.old + sum_by word_room (kinds_seen outputs.now) }
    ensures capacity { vec_capacity into.old ≤ vec_capacity into.new }
{
    for (i, (_, kind)) in outputs.iter().enumerate() {
        append(b" ", into);
        append_value(&values[i], kind, into);
    }
}

/// Appends the words that spell some values, with one space between them.
fn append_words(values: &[Value], outputs: &[(Name, Kind)], into: &mut Vec<u8>)
    requires kinds { AreOfKinds (kinds_seen outputs.now) values.now }
    requires lengths { length values.now ≡ length outputs.now }
    requires room { vec_len into.old + longest_line (kinds_seen outputs.now) ≤ vec_capacity into.old }
    ensures items { into.new.items ≡ into.old.items ++ join_with_byte 32 (texts_of (kinds_seen outputs.now) values.now) }
    ensures len { vec_len into.new < vec_len into.old + longest_line (kinds_seen outputs.now) }
    ensures capacity { vec_capacity into.old ≤ vec_capacity into.new }
{
    if let [(_, kind), others @ ..] = outputs {
        append_value(&values[0], kind, into);
        append_more(&values[1..], others, into);
    }
}

/// Appends the line of the outputs' values: one space between their words, and a newline. It takes no memory.
pub fn write_line(values: &[Value], s: &Signature, into: &mut Vec<u8>)
    requires kinds { AreOfKinds (kinds_of s.now.outputs) values.now }
    requires room { vec_len into.old + line_bound (kinds_of s.now.outputs) ≤ vec_capacity into.old }
    ensures items { into.new.items ≡ into.old.items ++ line_of (kinds_of s.now.outputs) values.now }
    ensures capacity { vec_capacity into.old ≤ vec_capacity into.new }
{
    append_words(values, &s.outputs, into);
    append(b"\n", into);
}
