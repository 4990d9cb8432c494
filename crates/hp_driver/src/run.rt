ghost use Rattle.std.specs.Prelude.{◌≡◌, ◌<◌, ◌≤◌, [], vec_capacity, length, IfOk};
ghost use Rattle.hp_driver.specs.Hearing.{HasRoom};
ghost use Rattle.hp_driver.specs.Ran.{Ran, RanTo};
ghost use Rattle.hp_driver.specs.Faults.{TakeFaults, BothPutFaults};
ghost use Rattle.hp_driver.specs.Happened.{Happened};
ghost use Rattle.hp_driver.specs.Status.{code_of};

use crate::follow::follow;
use crate::report::{LINE_ROOM, report_bad_line};
use crate::status::Status;
use crate::trace_limits::{End, Hearing, PIECE, Reactor};
use hp_io::{Console, Sink};
use std::alloc::{AllocError, Global};

/// What a trace needs: made before the first take, so that no memory is taken behind it.
#[derive(Drop)]
struct Room {
    hearing: Hearing,
    buffer: Vec<u8>,
    line: Vec<u8>,
}

impl Room {
    fn new(alloc: Global, answer: usize) -> Result<Room, AllocError>
        ensures hearing { IfOk result (λ room. HasRoom room.hearing answer) }
        ensures piece { IfOk result (λ room. room.hearing.piece.items ≡ []) }
        ensures pending { IfOk result (λ room. room.hearing.pending.items ≡ []) }
        ensures number { IfOk result (λ room. room.hearing.number ≡ 0) }
        ensures buffer { IfOk result (λ room. 0 < length room.buffer.items) }
        ensures line { IfOk result (λ room. room.line.items ≡ []) }
        ensures line_room { IfOk result (λ room. LINE_ROOM ≤ vec_capacity room.line) }
    {
        Ok(Room {
            hearing: Hearing::new(alloc, answer)?,
            buffer: vec![in alloc; 0; PIECE]?,
            line: Vec::with_capacity(alloc, LINE_ROOM)?,
        })
    }
}

/// Runs a reactor on the trace that the console gives, and gives the status.
pub(crate) fn run_trace<R: Reactor, C: Console, E: Sink>(
    alloc: Global,
    reactor: &mut R,
    console: &mut C,
    diag: &mut E,
) -> Status
    ensures ran { Happened (C.events console.old) (C.events console.new) (C.left console.old) (C.left console.new) (E.took diag.old) (E.took diag.new)
        (λ log line. Ran R.machine reactor.old log line (code_of result) × RanTo R.machine reactor.old log (code_of result) reactor.new) }
    ensures takes { TakeFaults (code_of result) (C.take_faults console.old) (C.take_faults console.new) }
    ensures puts { BothPutFaults (code_of result) (C.put_faults console.old) (C.put_faults console.new) (E.faults diag.old) (E.faults diag.new) }
{
    let Ok(mut room) = Room::new(alloc, reactor.room()) else {
        return Status::NoMemory;
    };
    match follow(
        reactor,
        &mut room.hearing,
        console,
        room.buffer.as_mut_slice(),
    ) {
        End::Done => Status::Done,
        End::Refused(line) => report_bad_line(diag, &mut room.line, line),
        End::TakeFailed => Status::ReadFailed,
        End::PutFailed => Status::WriteFailed,
    }
}
