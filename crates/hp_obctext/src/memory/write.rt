//! Checkpoints that are written.
ghost use Rattle.std.specs.Prelude.{◌≡◌, ◌+◌, ◌≤◌, ◌<◌, ◌++◌, ◌∷◌, ◌⊎◌, [], min, List, length, slice_index_or, IsSome, vec_len, vec_capacity};
ghost use Rattle.std.specs.List.{sum_by};
ghost use Rattle.std.specs.Fmt.{signed_decimal};
ghost use Rattle.hp_base.specs.Kinds.{IsOfKind, AreOfKinds};
ghost use Rattle.hp_base.specs.declared.value.Value.{Value};
ghost use Rattle.hp_lines.specs.Lines.{text_of, texts_of, longest, longest_word, word_room};
ghost use Rattle.hp_obc.specs.Form.{machine_named};
ghost use Rattle.hp_obctext.specs.MemoryKinds.{kind_at, kinds_at, AreOfTypes, memory_text, memory_bound};
ghost use Rattle.hp_obctext.specs.MemoryTexts.{joined, value_lines};

use crate::memory::values::constructors_at;
use hp_base::{MAX_NAME, Name, Value};
use hp_obc::{Obc, ObcType};
use itoa::Buffer;

fn longest_name(names: &[Name]) -> usize
    ensures longest { result ≡ longest names.now }
    ensures within { result ≤ MAX_NAME }
{
    let mut most = 0;
    for name in names {
        most = most.max(name.bytes().len());
    }
    most
}

/// The length of the longest word that spells a value of the kind of a value, and the byte behind it.
fn room_of(types: &[ObcType], value: Value) -> u64
    ensures { result ≡ word_room (kind_at types.now value) }
{
    match value {
        Value::B(_) => 6,
        Value::I(_) => 12,
        Value::E(number, _) => longest_name(constructors_at(types, number)) as u64 + 1,
        _ => 1,
    }
}

/// The same for some values, and a length in front of them; the greatest `u64` where it is greater.
fn room_of_values(types: &[ObcType], values: &[Value], front: u64) -> u64
    ensures { result ≡ min 18446744073709551615 (front + sum_by word_room (kinds_at types.now values.now)) }
{
    let mut room = front;
    for value in values {
        room = room.saturating_add(room_of(types, *value));
    }
    room
}

/// The length of the longest checkpoint of a node with values of the kinds of these, or the greatest `u64` where it is greater. It
/// takes no memory.
pub fn memory_room(o: &Obc, node: &str, values: &[Value]) -> u64
    requires machine { IsSome (machine_named o.now.machines node.now) }
    requires kinds { AreOfTypes o.now.types values.now }
    ensures exact { result ≡ memory_bound node.now (kinds_at o.now.types values.now) }
    ensures bounds { (others : List Value) → AreOfKinds (kinds_at o.now.types values.now) others → (length (memory_text o.now.types node.now others) ≤ result) ⊎ (result ≡ u64.MAX) }
{
    room_of_values(o.types(), values, 21 + node.len() as u64)
}

/// Appends bytes for which there is room.
fn append(bytes: &[u8], into: &mut Vec<u8>)
    requires { vec_len into.old + length bytes.now ≤ vec_capacity into.old }
    ensures items { into.new.items ≡ into.old.items ++ bytes.now }
    ensures len { vec_len into.new ≡ vec_len into.old + length bytes.now }
    ensures capacity { vec_capacity into.old ≤ vec_capacity into.new }
{
    if into.extend_from_slice(bytes).is_err() {
        unreachable!();
    }
}

fn append_int(number: i32, into: &mut Vec<u8>)
    requires { vec_len into.old + 11 ≤ vec_capacity into.old }
    ensures items { into.new.items ≡ into.old.items ++ signed_decimal number }
    ensures len { vec_len into.new ≤ vec_len into.old + 11 }
    ensures capacity { vec_capacity into.old ≤ vec_capacity into.new }
{
    let mut buffer = Buffer::new();
    append(buffer.format(number).as_bytes(), into);
}

/// The name of a constructor.
#[tactic(auto, using(crate::proofs::MemorySizes::longest_bounds))]
fn name_at(names: &[Name], number: u8) -> &[u8]
    requires { number < length names.now }
    ensures name { result.now ≡ slice_index_or names.now number [] }
    ensures length { length result.now ≤ longest names.now }
{
    names[usize::from(number)].bytes()
}

/// Appends the word that spells a value.
fn append_value(types: &[ObcType], value: Value, into: &mut Vec<u8>)
    requires kind { IsOfKind (kind_at types.now value) value }
    requires room { vec_len into.old + longest_word (kind_at types.now value) ≤ vec_capacity into.old }
    ensures items { into.new.items ≡ into.old.items ++ text_of (kind_at types.now value) value }
    ensures len { vec_len into.new ≤ vec_len into.old + longest_word (kind_at types.now value) }
    ensures capacity { vec_capacity into.old ≤ vec_capacity into.new }
{
    match value {
        Value::B(true) => append(b"true", into),
        Value::B(false) => append(b"false", into),
        Value::I(number) => append_int(number, into),
        Value::E(number, place) => append(name_at(constructors_at(types, number), place), into),
        _ => unreachable!(),
    }
}

/// Appends a line for each value, and the last line.
fn append_lines(types: &[ObcType], values: &[Value], into: &mut Vec<u8>)
    requires kinds { AreOfTypes types.now values.now }
    requires room { vec_len into.old + sum_by word_room (kinds_at types.now values.now) + 4 ≤ vec_capacity into.old }
    ensures items { into.new.items ≡ into.old.items ++ joined (value_lines (texts_of (kinds_at types.now values.now) values.now)) }
    ensures capacity { vec_capacity into.old ≤ vec_capacity into.new }
{
    for i in 0..values.len() {
        append_value(types, values[i], into);
        append(b"\n", into);
    }
    append(b"end\n", into);
}

/// Appends the checkpoint of a node with some values, for which there is room. It takes no memory.
pub fn write_memory(o: &Obc, node: &str, values: &[Value], into: &mut Vec<u8>)
    requires machine { IsSome (machine_named o.now.machines node.now) }
    requires kinds { AreOfTypes o.now.types values.now }
    requires room { vec_len into.old + memory_bound node.now (kinds_at o.now.types values.now) ≤ vec_capacity into.old }
    ensures items { into.new.items ≡ into.old.items ++ memory_text o.now.types node.now values.now }
    ensures capacity { vec_capacity into.old ≤ vec_capacity into.new }
{
    append(b"hept-mem 1\nnode ", into);
    append(node.as_bytes(), into);
    append(b"\n", into);
    append_lines(o.types(), values, into);
}
