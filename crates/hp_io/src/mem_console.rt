ghost use Rattle.std.specs.Prelude.{◌≡◌, ◌<◌, ◌≤◌, ◌++◌, [], drop, length, min, take, is_err, false, IfOk, OnOk, OnErr, IsErr};
ghost use Rattle.hp_io.specs.Faults.{one_more};
ghost use Rattle.hp_io.specs.Events.{take_events, put_events, said_bytes};
ghost use Rattle.hp_io.specs.Memory.{IsDue, bound_of};

use crate::counts::{Schedule, raise};
use crate::{Console, Event, Failed};
use std::alloc::{AllocError, Global};
use std::marker::Model;

/// A console in memory, which tells everything.
#[derive(Debug, Drop)]
pub struct MemConsole {
    input: Vec<u8>,
    heard: usize,
    events: Vec<Event>,
    gives: Vec<usize>,
    takes: usize,
    schedule: Schedule,
    take_count: u64,
    put_count: u64,
    has_failed: bool,
}

impl Model for MemConsole {
    ghost use Rattle.std.specs.Prelude.{◌≤◌, drop, length};
    ghost use Rattle.hp_io.specs.Memory.{ConsoleState};

    ghost Value = { ConsoleState };

    ghost view = { λ c. record {
      left = drop c.heard c.input.items;
      events = c.events.items;
      gives = drop c.takes c.gives.items;
      fails = c.schedule.fails.items;
      calls = c.schedule.calls;
      take_faults = c.take_count;
      put_faults = c.put_count;
      has_failed = c.has_failed;
    } };

    ghost invariant = { λ c. (c.heard ≤ length c.input.items) × (c.takes ≤ length c.gives.items) };
}

impl MemConsole {
    /// `gives` has, for each take in order, the greatest number of bytes that it gives, where 0 counts as 1; later takes
    /// have no such bound. `fails` has the numbers, from 1 over all calls, of those that are to fail.
    pub fn new(input: Vec<u8>, gives: Vec<usize>, fails: Vec<u64>) -> MemConsole
        ensures left { result.left ≡ input.items }
        ensures events { result.events ≡ [] }
        ensures gives { result.gives ≡ gives.items }
        ensures fails { result.fails ≡ fails.items }
        ensures calls { result.calls ≡ 0 }
        ensures take_faults { result.take_faults ≡ 0 }
        ensures put_faults { result.put_faults ≡ 0 }
        ensures has_failed { result.has_failed ≡ false }
    {
        MemConsole {
            events: Vec::new(*input.allocator()),
            input,
            heard: 0,
            gives,
            takes: 0,
            schedule: Schedule::new(fails),
            take_count: 0,
            put_count: 0,
            has_failed: false,
        }
    }

    /// What has happened, oldest first.
    pub fn events(&self) -> &[Event]
        ensures { result.now ≡ self.now.events }
    {
        self.events.as_slice()
    }

    /// The bytes that were said.
    pub fn said(&self, alloc: Global) -> Result<Vec<u8>, AllocError>
        ensures { IfOk result (λ said. said.items ≡ said_bytes self.now.events) }
    {
        let said = |event: &Event| match event {
            Event::Said(byte) => Some(*byte),
            Event::Asked | Event::Heard(_) | Event::Ended => None,
        };
        self.events.iter().filter_map(said).collect(alloc)
    }
}

fn take_log(alloc: Global, bytes: &[u8]) -> Result<Vec<Event>, AllocError>
    ensures { IfOk result (λ log. log.items ≡ take_events (length bytes.now) bytes.now) }
{
    if bytes.is_empty() {
        return Ok(vec![in alloc; Event::Asked, Event::Ended]?);
    }
    let mut log = vec![in alloc; Event::Asked]?;
    for byte in bytes {
        log.push(Event::Heard(*byte))?;
    }
    Ok(log)
}

fn put_log(alloc: Global, piece: &[u8]) -> Result<Vec<Event>, AllocError>
    ensures { IfOk result (λ log. log.items ≡ put_events piece.now) }
{
    piece.iter().map(|byte| Event::Said(*byte)).collect(alloc)
}

fn log_take(events: &mut Vec<Event>, bytes: &[u8]) -> Result<(), AllocError>
    ensures ok { OnOk result (events.new.items ≡ events.old.items ++ take_events (length bytes.now) bytes.now) }
    ensures err { OnErr result (events.new.items ≡ events.old.items) }
{
    let log = take_log(*events.allocator(), bytes)?;
    events.extend_from_slice(&log)
}

fn log_put(events: &mut Vec<Event>, piece: &[u8]) -> Result<(), AllocError>
    ensures ok { OnOk result (events.new.items ≡ events.old.items ++ put_events piece.now) }
    ensures err { OnErr result (events.new.items ≡ events.old.items) }
{
    let log = put_log(*events.allocator(), piece)?;
    events.extend_from_slice(&log)
}

/// The first bytes, so many at most.
pub(crate) fn front(bytes: &[u8], most: usize) -> &[u8]
    ensures { result.now ≡ take most bytes.now }
{
    &bytes[..most.min(bytes.len())]
}

/// How much the next take gives at most, and one take more.
fn next_bound(gives: &[usize], takes: &mut usize, room: usize) -> usize
    requires { takes.old ≤ length gives.now }
    ensures bound { result ≡ bound_of (drop takes.old gives.now) room }
    ensures rest { drop takes.new gives.now ≡ drop 1 (drop takes.old gives.now) }
    ensures within { takes.new ≤ length gives.now }
{
    if *takes == gives.len() {
        return room;
    }
    let give = gives[*takes];
    *takes += 1;
    give.max(1).min(room)
}

impl Console for MemConsole {
    ghost use Rattle.std.specs.Prelude.{Some};

    ghost left = { λ c. Some c.left };

    ghost events = { λ c. Some c.events };

    ghost take_faults = { λ c. record { count = c.take_faults; is_last = c.has_failed; is_calm = false } };

    ghost put_faults = { λ c. record { count = c.put_faults; is_last = c.has_failed; is_calm = false } };

    fn take(&mut self, into: &mut [u8]) -> Result<usize, Failed>
        requires room { 0 < length into.old }

        ensures due { IsDue self.old.fails self.old.calls → IsErr result }
        ensures count { IfOk result (λ n. n ≡ min (bound_of self.old.gives (length into.old)) (length self.old.left)) }
        ensures within { IfOk result (λ n. n ≤ length into.new) }
        ensures left { IfOk result (λ n. self.old.left ≡ take n into.new ++ self.new.left) }
        ensures end { IfOk result (λ n. n ≡ 0 → self.old.left ≡ []) }
        ensures events { IfOk result (λ n. self.new.events ≡ self.old.events ++ take_events n into.new) }
        ensures failed_left { OnErr result (self.new.left ≡ self.old.left) }
        ensures failed_events { OnErr result (self.new.events ≡ self.old.events) }

        ensures gives { self.new.gives ≡ drop 1 self.old.gives }
        ensures fails { self.new.fails ≡ self.old.fails }
        ensures calls { self.new.calls ≡ one_more self.old.calls }
        ensures cause { OnErr result (self.new.take_faults ≡ one_more self.old.take_faults) }
        ensures no_other_cause { OnOk result (self.new.take_faults ≡ self.old.take_faults) }
        ensures has_failed { self.new.has_failed ≡ is_err result }
        ensures puts { self.new.put_faults ≡ self.old.put_faults }
    {
        let bound = next_bound(&self.gives, &mut self.takes, into.len());
        let given = front(&self.input[self.heard..], bound);
        self.has_failed = true;
        if self.schedule.next_fails() || log_take(&mut self.events, given).is_err() {
            raise(&mut self.take_count);
            return Err(Failed);
        }
        self.has_failed = false;
        into[..given.len()].copy_from_slice(given);
        self.heard += given.len();
        Ok(given.len())
    }

    fn put(&mut self, piece: &[u8]) -> Result<usize, Failed>
        requires something { 0 < length piece.now }

        ensures due { IsDue self.old.fails self.old.calls → IsErr result }
        ensures whole { IfOk result (λ n. n ≡ length piece.now) }
        ensures events { OnOk result (self.new.events ≡ self.old.events ++ put_events piece.now) }
        ensures failed_events { OnErr result (self.new.events ≡ self.old.events) }
        ensures left { self.new.left ≡ self.old.left }

        ensures gives { self.new.gives ≡ self.old.gives }
        ensures fails { self.new.fails ≡ self.old.fails }
        ensures calls { self.new.calls ≡ one_more self.old.calls }
        ensures cause { OnErr result (self.new.put_faults ≡ one_more self.old.put_faults) }
        ensures no_other_cause { OnOk result (self.new.put_faults ≡ self.old.put_faults) }
        ensures has_failed { self.new.has_failed ≡ is_err result }
        ensures takes { self.new.take_faults ≡ self.old.take_faults }
    {
        self.has_failed = true;
        if self.schedule.next_fails() || log_put(&mut self.events, piece).is_err() {
            raise(&mut self.put_count);
            return Err(Failed);
        }
        self.has_failed = false;
        Ok(piece.len())
    }
}
