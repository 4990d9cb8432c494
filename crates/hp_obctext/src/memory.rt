//! Checkpoints: the text of what the machine of a node keeps, both ways.
ghost use Rattle.std.specs.Prelude.{◌≡◌, ◌≤◌, ◌++◌, List, ℕ, length, option_map, IsSome, IfOk, IfErr, OnOk, OnErr, Ok, Err};
ghost use Rattle.std.specs.Result.{result_err};
ghost use Rattle.hp_base.specs.Kinds.{AreOfKinds};
ghost use Rattle.hp_base.specs.declared.span.Span as place;
ghost use Rattle.hp_base.specs.declared.value.Value.{Value};
ghost use Rattle.hp_lines.specs.Refusals.{refusal};
ghost use Rattle.hp_obc.specs.Form.{TypesForm, machine_named};
ghost use Rattle.hp_obctext.specs.Places.{span_behind, IsEndOf};
ghost use Rattle.hp_obctext.specs.MemoryTexts.{AreValues, Says, joined, value_lines};
ghost use Rattle.hp_obctext.specs.MemoryKinds.{kinds_at, AreOfTypes, memory_text, of_line, misfit, Refuses};
ghost use Rattle.hp_obctext.specs.MemoryRefusals.{IsNoCheckpoint, size_at};
ghost use Rattle.hp_obctext.specs.declared.memory.error.MemErr.TheVariants as error;

mod error;
mod heading;
mod values;
mod word;
mod write;

use crate::memory::heading::{Checkpoint, checkpoint_of};
use crate::memory::values::{fill, wrong_value};
use crate::memory::word::size_at;
use crate::place::span_behind;
pub use error::MemErr;
use hp_base::{Span, Value};
use hp_obc::{Obc, ObcType};
pub use write::{memory_room, write_memory};

/// The place in a text from which on some bytes stand.
fn span_at(text: &[u8], rest: &[u8]) -> Span
    requires short { length text.now ≤ 67108864 }
    requires end { IsEndOf text.now rest.now }
    ensures { (front : List ℕ) → text.now ≡ front ++ rest.now → result ≡ span_behind front (size_at rest.now) }
{
    let (front, _) = text.split_at(text.len() - rest.len());
    span_behind(front, size_at(rest))
}

/// The words of a checkpoint.
fn read_words(text: &[u8]) -> Result<Checkpoint<'_>, MemErr>
    requires short { length text.now ≤ 67108864 }
    ensures read { IfOk result (λ c. (ws : List (List ℕ)) × (Says text.now c.node.now ws × (c.count ≡ length ws) × (c.lines.now ≡ joined (value_lines ws)))) }
    ensures refused { IfErr result (λ e. (span : place.Span) × ((e ≡ error.Syntax span) × IsNoCheckpoint text.now span)) }
{
    match checkpoint_of(text) {
        Ok(checkpoint) => Ok(checkpoint),
        Err(rest) => Err(MemErr::Syntax {
            span: span_at(text, rest),
        }),
    }
}

/// Says which values of a checkpoint are not like those that a machine keeps.
fn judge_values(checkpoint: &Checkpoint<'_>, types: &[ObcType], now: &[Value]) -> Result<(), MemErr>
    requires { TypesForm types.now }
    ensures { (ws : List (List ℕ)) → AreValues ws → checkpoint.now.count ≡ length ws → checkpoint.now.lines.now ≡ joined (value_lines ws)
        → result_err result ≡ option_map of_line (refusal (kinds_at types.now now.now) ws) }
{
    if checkpoint.count != now.len() as u64 {
        return Err(MemErr::Count {
            found: checkpoint.count,
        });
    }
    match wrong_value(types, now, checkpoint.lines) {
        Some(number) => Err(MemErr::Word { number }),
        None => Ok(()),
    }
}

/// Says what of a checkpoint does not fit a node, with values like those that its machine keeps.
fn judge(
    checkpoint: &Checkpoint<'_>,
    types: &[ObcType],
    node: &[u8],
    now: &[Value],
) -> Result<(), MemErr>
    requires { TypesForm types.now }
    ensures { (ws : List (List ℕ)) → AreValues ws → checkpoint.now.count ≡ length ws → checkpoint.now.lines.now ≡ joined (value_lines ws)
        → result_err result ≡ misfit node.now (kinds_at types.now now.now) checkpoint.now.node.now ws }
{
    if checkpoint.node == node {
        judge_values(checkpoint, types, now)
    } else {
        Err(MemErr::Node)
    }
}

/// Reads a checkpoint of a node, with values like those that its machine keeps now: as many, and each of the same kind. What is
/// refused first is its text, then its name, then the number of its values, and then the first that is of another kind. After an error
/// the places are as before. It takes no memory.
pub fn read_memory(
    text: &[u8],
    o: &Obc,
    node: &str,
    now: &[Value],
    into: &mut [Value],
) -> Result<(), MemErr>
    requires short { length text.now ≤ 67108864 }
    requires machine { IsSome (machine_named o.now.machines node.now) }
    requires kinds { AreOfTypes o.now.types now.now }
    requires places { length into.old ≡ length now.now }
    ensures values { OnOk result (AreOfKinds (kinds_at o.now.types now.now) into.new) }
    ensures text { OnOk result (text.now ≡ memory_text o.now.types node.now into.new) }
    ensures read { (values : List Value) → AreOfKinds (kinds_at o.now.types now.now) values → text.now ≡ memory_text o.now.types node.now values → (result ≡ Ok tt) × (into.new ≡ values) }
    ensures fits { (name : List ℕ) (ws : List (List ℕ)) → Says text.now name ws → result_err result ≡ misfit node.now (kinds_at o.now.types now.now) name ws }
    ensures refused { IfErr result (Refuses text.now) }
    ensures syntax { (span : place.Span) → IsNoCheckpoint text.now span → result ≡ Err (error.Syntax span) }
    ensures kept { OnErr result (into.new ≡ into.old) }
{
    let types = o.types();
    let checkpoint = match read_words(text) {
        Ok(checkpoint) => checkpoint,
        Err(error) => return Err(error),
    };
    if let Err(misfit) = judge(&checkpoint, types, node.as_bytes(), now) {
        return Err(misfit);
    }
    fill(types, now, checkpoint.lines, into);
    Ok(())
}
