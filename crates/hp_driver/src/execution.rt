//! A machine as what answers the lines of a trace.
ghost use Rattle.std.specs.Prelude.{◌≡◌, length, IfOk};
ghost use Rattle.hp_base.specs.Kinds.{kinds_of};
ghost use Rattle.hp_lines.specs.Lines.{line_bound};
ghost use Rattle.hp_lines.specs.Values.{HaveFewConstructors};
ghost use Rattle.hp_driver.specs.Executing.{HasBehaviour};

use crate::trace_limits::Reactor;
use hp_base::{Signature, Value};
use hp_exec::Exec;
use hp_lines::{LineErr, line_room, read_line, write_line};
use hp_native::Steps;
use std::alloc::{AllocError, Global};
use std::marker::Model;

/// A machine with room for the inputs and the outputs of a step. Contracts see the executor.
#[derive(Drop)]
pub(crate) struct Execution<S: Steps> {
    exec: S,
    inputs: Vec<Value>,
    outputs: Vec<Value>,
    /// The length of the longest line of the outputs.
    room: usize,
}

impl<S: Steps> Model for Execution<S> {
    ghost use Rattle.hp_exec.specs.Executors.{Executor, executor_code};

    ghost Value = { Executor };

    ghost coded = { executor_code };

    ghost use Rattle.hp_driver.specs.ExecutionView.{IsFit};

    ghost view = { λ e. S.executor e.exec };

    ghost invariant = { λ e. IsFit (S.executor e.exec) e.inputs.items e.outputs.items e.room };
}

/// Room for the inputs and for the outputs of a step.
pub(crate) fn room_for(
    alloc: Global,
    signature: &Signature,
) -> Result<(Vec<Value>, Vec<Value>), AllocError>
    ensures inputs { IfOk result (λ r. length r.0.items ≡ length signature.now.inputs) }
    ensures outputs { IfOk result (λ r. length r.1.items ≡ length signature.now.outputs) }
{
    let inputs = vec![in alloc; Value::Absent; signature.inputs.len()]?;
    let outputs = vec![in alloc; Value::Absent; signature.outputs.len()]?;
    Ok((inputs, outputs))
}

impl<S: Steps + Drop> Execution<S> {
    pub(crate) fn new(alloc: Global, exec: S) -> Result<Execution<S>, AllocError>
        requires few { HaveFewConstructors (kinds_of (S.executor exec).signature.inputs) }
        requires behaves { HasBehaviour (S.executor exec) }
        ensures { IfOk result (λ e. e ≡ S.executor exec) }
    {
        let (inputs, outputs) = room_for(alloc, exec.signature())?;
        let room = line_room(exec.signature());
        Ok(Execution {
            exec,
            inputs,
            outputs,
            room,
        })
    }
}

impl Execution<Exec> {
    /// What the machine keeps, in the order of `Exec::memory`.
    pub(crate) fn memory(&self) -> &[Value]
        ensures { result.now ≡ self.now.values }
    {
        self.exec.memory()
    }
}

impl<S: Steps> Reactor for Execution<S> {
    ghost use Rattle.hp_driver.specs.Executing.{executing};

    ghost machine = { executing };

    ghost room = { λ e. line_bound (kinds_of e.signature.outputs) };

    fn room(&self) -> usize {
        self.room
    }

    fn answer(&mut self, line: &[u8], into: &mut Vec<u8>) -> Result<(), LineErr> {
        read_line(line, self.exec.signature(), &mut self.inputs)?;
        self.exec.step(&self.inputs, &mut self.outputs);
        write_line(&self.outputs, self.exec.signature(), into);
        Ok(())
    }
}
