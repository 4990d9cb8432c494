//! A machine that answers the lines of a trace, and tells behind its outputs what a contract assumes and enforces.
ghost use Rattle.std.specs.Prelude.{◌≡◌, ◌≤◌, ◌+◌, ◌++◌, ◌∷◌, [], true, length, take, slice_index_or, IfOk, OnOk};
ghost use Rattle.hp_base.specs.Kinds.{kinds_of, kind_seen, Constructors};
ghost use Rattle.hp_base.specs.SignatureView.{kinds_seen};
ghost use Rattle.hp_base.specs.declared.value.Value.TheVariants.{B};
ghost use Rattle.hp_lines.specs.Lines.{line_bound};
ghost use Rattle.hp_lines.specs.Values.{HaveFewConstructors};
ghost use Rattle.hp_driver.specs.Executing.{HasBehaviour};
ghost use Rattle.hp_driver.specs.Teller.{teller};
ghost use Rattle.hp_driver.specs.Telling.{count_before, shown_kinds, shown_values, word, word_kinds};

use crate::execution::room_for;
use crate::trace_limits::Reactor;
use hp_base::{Kind, MAX_NAME, Name, Signature, Value, copy_names};
use hp_lines::{LineErr, line_room, read_line, write_line};
use hp_native::Steps;
use std::alloc::{AllocError, Global};
use std::marker::Model;

/// What stands behind the outputs of a node.
#[derive(Clone, Copy, Debug, PartialEq, Eq)]
pub(crate) enum Ending {
    /// The last two outputs of the machine are what is assumed and enforced.
    Told,
    /// There is no contract, so what is assumed and enforced is true.
    Kept,
}

/// The numbers of the types of the two words. They are no types of a program, whose types have numbers below 1,000.
const ASSUMED: u16 = 65_534;

const ENFORCED: u16 = 65_535;

/// A machine with room for the inputs, and for the outputs and the two words of a step. Contracts see the executor and the ending.
#[derive(Drop)]
pub(crate) struct Telling<S: Steps> {
    exec: S,
    inputs: Vec<Value>,
    outputs: Vec<Value>,
    ending: Ending,
    /// The outputs that stand before the words, and the words.
    shown: Vec<Value>,
    /// The kinds of what is shown.
    words: Signature,
    /// The length of the longest line.
    room: usize,
}

impl<S: Steps> Model for Telling<S> {
    ghost use Rattle.hp_driver.specs.Teller.{Teller, teller, teller_code};

    ghost Value = { Teller };

    ghost coded = { teller_code };

    ghost use Rattle.hp_driver.specs.TellingView.{IsTelling};

    ghost view = { λ t. teller (S.executor t.exec) t.ending };

    ghost invariant = { λ t. IsTelling (S.executor t.exec) t.ending t.inputs.items t.outputs.items t.shown.items t.words t.room };
}

/// How many outputs stand before the words.
fn count_before(ending: Ending, outputs: usize) -> usize
    ensures { result ≡ count_before ending outputs }
{
    match ending {
        Ending::Told => outputs.saturating_sub(2),
        Ending::Kept => outputs,
    }
}

/// The kind of a word, whose constructors are its two spellings.
fn word_kind(alloc: Global, number: u16, no: &[u8], yes: &[u8]) -> Result<Kind, AllocError>
    requires no { length no.now ≤ MAX_NAME }
    requires yes { length yes.now ≤ MAX_NAME }
    ensures { IfOk result (λ kind. kind_seen kind ≡ Constructors number (no.now ∷ yes.now ∷ [])) }
{
    let mut cons = Vec::new(alloc);
    cons.push(Name::new(alloc, no)?)?;
    cons.push(Name::new(alloc, yes)?)?;
    Ok(Kind::Enum { number, cons })
}

/// A copy of a kind.
fn copy_kind(alloc: Global, kind: &Kind) -> Result<Kind, AllocError>
    ensures { IfOk result (λ copy. kind_seen copy ≡ kind_seen kind.now) }
{
    match kind {
        Kind::Bool => Ok(Kind::Bool),
        Kind::Int => Ok(Kind::Int),
        Kind::Enum { number, cons } => Ok(Kind::Enum {
            number: *number,
            cons: copy_names(alloc, cons)?,
        }),
    }
}

/// Adds an output of a kind, whose name no line shows.
fn add_kind(alloc: Global, kind: Kind, outputs: &mut Vec<(Name, Kind)>) -> Result<(), AllocError>
    ensures { OnOk result (kinds_seen outputs.new.items ≡ kinds_seen outputs.old.items ++ kind_seen kind ∷ []) }
{
    let name = Name::new(alloc, b"")?;
    outputs.push((name, kind))?;
    Ok(())
}

/// Adds the kinds of the first so many outputs.
fn add_kinds(
    alloc: Global,
    from: &[(Name, Kind)],
    count: usize,
    outputs: &mut Vec<(Name, Kind)>,
) -> Result<(), AllocError>
    ensures { OnOk result (kinds_seen outputs.new.items ≡ kinds_seen outputs.old.items ++ take count (kinds_seen from.now)) }
{
    for i in 0..count.min(from.len()) {
        let kind = copy_kind(alloc, &from[i].1)?;
        add_kind(alloc, kind, outputs)?;
    }
    Ok(())
}

/// The kinds of what is shown: of the outputs before the words, and of the words.
fn words_of(alloc: Global, s: &Signature, count: usize) -> Result<Signature, AllocError>
    ensures { IfOk result (λ words. kinds_of words.outputs ≡ take count (kinds_of s.now.outputs) ++ word_kinds) }
{
    let mut outputs = Vec::new(alloc);
    add_kinds(alloc, &s.outputs, count, &mut outputs)?;
    let assumed = word_kind(alloc, ASSUMED, b"assume=false", b"assume=true")?;
    add_kind(alloc, assumed, &mut outputs)?;
    let enforced = word_kind(alloc, ENFORCED, b"enforce=false", b"enforce=true")?;
    add_kind(alloc, enforced, &mut outputs)?;
    Ok(Signature {
        name: s.name.copy(alloc)?,
        inputs: Vec::new(alloc),
        outputs,
        contract: false,
    })
}

/// The word of a truth value.
fn word(number: u16, value: Value) -> Value
    ensures { result ≡ word number value }
{
    match value {
        Value::B(true) => Value::E(number, 1),
        _ => Value::E(number, 0),
    }
}

/// The output at a place; true where there is none.
fn output_at(outputs: &[Value], at: usize) -> Value
    ensures { result ≡ slice_index_or outputs.now at (B true) }
{
    match outputs.get(at) {
        None => Value::B(true),
        Some(value) => *value,
    }
}

/// Shows the outputs of a step that stand before the words, and the two words.
fn show(ending: Ending, outputs: &[Value], shown: &mut [Value])
    requires { length shown.old ≡ count_before ending (length outputs.now) + 2 }
    ensures { shown.new ≡ shown_values ending outputs.now }
{
    let count = count_before(ending, outputs.len());
    let assumed = word(ASSUMED, output_at(outputs, count));
    let enforced = word(ENFORCED, output_at(outputs, count + 1));
    shown[..count].copy_from_slice(&outputs[..count]);
    shown[count] = assumed;
    shown[count + 1] = enforced;
}

/// Room for what is shown of a step, and the kinds of that.
fn shown_for(
    alloc: Global,
    ending: Ending,
    s: &Signature,
) -> Result<(Vec<Value>, Signature), AllocError>
    ensures shown { IfOk result (λ r. length r.0.items ≡ count_before ending (length s.now.outputs) + 2) }
    ensures words { IfOk result (λ r. kinds_of r.1.outputs ≡ shown_kinds ending (kinds_of s.now.outputs)) }
{
    let count = count_before(ending, s.outputs.len());
    let words = words_of(alloc, s, count)?;
    let shown = vec![in alloc; Value::Absent; words.outputs.len()]?;
    Ok((shown, words))
}

impl<S: Steps + Drop> Telling<S> {
    pub(crate) fn new(alloc: Global, exec: S, ending: Ending) -> Result<Telling<S>, AllocError>
        requires few { HaveFewConstructors (kinds_of (S.executor exec).signature.inputs) }
        requires behaves { HasBehaviour (S.executor exec) }
        ensures { IfOk result (λ t. t ≡ teller (S.executor exec) ending) }
    {
        let (inputs, outputs) = room_for(alloc, exec.signature())?;
        let (shown, words) = shown_for(alloc, ending, exec.signature())?;
        let room = line_room(&words);
        Ok(Telling {
            exec,
            inputs,
            outputs,
            ending,
            shown,
            words,
            room,
        })
    }
}

impl<S: Steps> Reactor for Telling<S> {
    ghost use Rattle.hp_driver.specs.Teller.{telling};
    ghost use Rattle.hp_driver.specs.Telling.{shown_kinds};

    ghost machine = { telling };

    ghost room = { λ t. line_bound (shown_kinds t.ending (kinds_of t.executor.signature.outputs)) };

    fn room(&self) -> usize {
        self.room
    }

    fn answer(&mut self, line: &[u8], into: &mut Vec<u8>) -> Result<(), LineErr> {
        read_line(line, self.exec.signature(), &mut self.inputs)?;
        self.exec.step(&self.inputs, &mut self.outputs);
        show(self.ending, &self.outputs, &mut self.shown);
        write_line(&self.shown, &self.words, into);
        Ok(())
    }
}
