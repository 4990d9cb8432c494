ghost use Rattle.std.specs.Prelude.{◌≡◌, ◌+◌, ◌*◌, ◌<◌, ◌≤◌, ℕ, List, [], ◌∷◌, ◌++◌, length, take, drop, vec_len, vec_capacity, IfErr, OnOk, OnErr, Err, MatchOption};
ghost use Rattle.hp_io.specs.Faults.{Rose, Same};
ghost use Rattle.hp_io.specs.Told.{Grows};
ghost use Rattle.hp_io.specs.Events.{put_events};
ghost use Rattle.hp_io.specs.declared.console.Event.{Event};
ghost use Rattle.hp_driver.specs.Lines.{IsPiece};
ghost use Rattle.hp_driver.specs.Log.{HeardFrom};
ghost use Rattle.hp_driver.specs.Course.{Moves, Refuses, EndsBy, EndsIn, Reaches, weight};
ghost use Rattle.hp_driver.specs.Hearing.{at, HasRoom, AnswersLine, RefusesLine, PutCause, SaysPending, SaysBefore, Hears, TakeCauseOf, PutCauseOf, Course, end_of};

use crate::trace_limits::{BadLine, End, Fault, Hearing, MAX_LINES, Reactor, Stop};
use hp_io::{Console, Failed};
use hp_lines::MAX_LINE;

/// Says all of a text, in as many puts as that takes.
pub(crate) fn say<C: Console>(console: &mut C, text: &[u8]) -> Result<(), Failed>
    ensures ok { OnOk result (Grows (C.events console.old) (C.events console.new) (put_events text.now)) }
    ensures err { OnErr result ((n : ℕ) × (n ≤ length text.now)
        × Grows (C.events console.old) (C.events console.new) (put_events (take n text.now))) }
    ensures left { C.left console.new ≡ C.left console.old }
    ensures cause { OnErr result (Rose (C.put_faults console.old) (C.put_faults console.new)) }
    ensures no_cause { OnOk result (Same (C.put_faults console.old) (C.put_faults console.new)) }
    ensures takes { Same (C.take_faults console.old) (C.take_faults console.new) }
{
    let mut done = 0;
    while done < text.len() {
        done += console.put(&text[done..])?;
    }
    Ok(())
}

/// Answers a line, or gives it where its words are refused.
fn answer_line<R: Reactor>(
    reactor: &mut R,
    hearing: &mut Hearing,
    line: &[u8],
) -> Result<(), BadLine>
    requires room { HasRoom hearing.old (R.room reactor.old) }
    requires nothing { hearing.old.piece.items ≡ [] }
    requires short { length line.now ≤ MAX_LINE }
    requires free { vec_len hearing.old.pending + R.room reactor.old ≤ vec_capacity hearing.old.pending }
    requires few { hearing.old.number < MAX_LINES }
    ensures answered { OnOk result (AnswersLine R.machine reactor.old reactor.new line.now hearing.old hearing.new) }
    ensures refused { IfErr result (λ bad. RefusesLine R.machine reactor.old line.now hearing.old hearing.new bad) }
    ensures room { HasRoom hearing.new (R.room reactor.new) }
    ensures same_room { R.room reactor.new ≡ R.room reactor.old }
{
    match reactor.answer(line, &mut hearing.pending) {
        Ok(()) => {
            hearing.number += 1;
            Ok(())
        }
        Err(error) => Err(hearing.refused(Fault::Line(error))),
    }
}

/// Answers the unfinished line, or gives it where its words are refused.
fn end_line<R: Reactor>(reactor: &mut R, hearing: &mut Hearing) -> Result<(), BadLine>
    requires room { HasRoom hearing.old (R.room reactor.old) }
    requires free { vec_len hearing.old.pending + R.room reactor.old ≤ vec_capacity hearing.old.pending }
    requires few { hearing.old.number < MAX_LINES }
    ensures answered { OnOk result (AnswersLine R.machine reactor.old reactor.new hearing.old.piece.items hearing.old hearing.new) }
    ensures refused { IfErr result (λ bad. RefusesLine R.machine reactor.old hearing.old.piece.items hearing.old hearing.new bad) }
    ensures room { HasRoom hearing.new (R.room reactor.new) }
    ensures same_room { R.room reactor.new ≡ R.room reactor.old }
{
    match reactor.answer(hearing.piece.as_slice(), &mut hearing.pending) {
        Ok(()) => {
            hearing.piece.clear();
            hearing.number += 1;
            Ok(())
        }
        Err(error) => Err(hearing.refused(Fault::Line(error))),
    }
}

/// Answers the line that ends behind these bytes, or gives it where its words are refused. Bytes with none in front are read
/// where they stand.
fn end_with<R: Reactor>(reactor: &mut R, hearing: &mut Hearing, bytes: &[u8]) -> Result<(), BadLine>
    requires room { HasRoom hearing.old (R.room reactor.old) }
    requires short { vec_len hearing.old.piece + length bytes.now ≤ MAX_LINE }
    requires free { vec_len hearing.old.pending + R.room reactor.old ≤ vec_capacity hearing.old.pending }
    requires few { hearing.old.number < MAX_LINES }
    ensures answered { OnOk result (AnswersLine R.machine reactor.old reactor.new (hearing.old.piece.items ++ bytes.now) hearing.old hearing.new) }
    ensures refused { IfErr result (λ bad. RefusesLine R.machine reactor.old (hearing.old.piece.items ++ bytes.now) hearing.old hearing.new bad) }
    ensures room { HasRoom hearing.new (R.room reactor.new) }
    ensures same_room { R.room reactor.new ≡ R.room reactor.old }
{
    if hearing.piece.is_empty() {
        return answer_line(reactor, hearing, bytes);
    }
    hearing.keep(bytes);
    end_line(reactor, hearing)
}

/// Hears bytes of which none is a newline, and the newline behind them. A line that is refused is given.
fn hear_line<R: Reactor>(
    reactor: &mut R,
    hearing: &mut Hearing,
    bytes: &[u8],
) -> Result<(), BadLine>
    requires room { HasRoom hearing.old (R.room reactor.old) }
    requires piece { IsPiece bytes.now }
    requires free { vec_len hearing.old.pending + R.room reactor.old ≤ vec_capacity hearing.old.pending }
    ensures moves { OnOk result (Moves R.machine (at reactor.old hearing.old) (bytes.now ++ 10 ∷ []) [] (at reactor.new hearing.new)) }
    ensures refuses { IfErr result (λ bad. Refuses R.machine (at reactor.old hearing.old) (bytes.now ++ 10 ∷ []) hearing.old.pending.items bad
        × (hearing.new.pending.items ≡ hearing.old.pending.items)) }
    ensures room { HasRoom hearing.new (R.room reactor.new) }
    ensures same_room { R.room reactor.new ≡ R.room reactor.old }
    ensures progress { OnOk result (weight (at reactor.old hearing.old) + length bytes.now + 1 ≤ weight (at reactor.new hearing.new)) }
{
    if let Err(line) = hearing.check(bytes) {
        return Err(line);
    }
    end_with(reactor, hearing, bytes)
}

/// How many bytes stand in front of the first newline, where there is one.
fn line_length(bytes: &[u8]) -> Option<usize>
    ensures { MatchOption result (IsPiece bytes.now) (λ n. (n < length bytes.now) × IsPiece (take n bytes.now)
        × (bytes.now ≡ take n bytes.now ++ 10 ∷ drop (n + 1) bytes.now)) }
{
    bytes.iter().position(|byte| *byte == b'\n')
}

/// Says the answers that are pending.
fn say_pending<C: Console>(hearing: &mut Hearing, console: &mut C) -> Result<(), Stop>
    ensures out { (out : List ℕ) × Grows (C.events console.old) (C.events console.new) (put_events out)
        × SaysPending result hearing.old.pending.items out }
    ensures pending { hearing.new.pending.items ≡ [] }
    ensures capacity { vec_capacity hearing.new.pending ≡ vec_capacity hearing.old.pending }
    ensures piece { hearing.new.piece ≡ hearing.old.piece }
    ensures number { hearing.new.number ≡ hearing.old.number }
    ensures left { C.left console.new ≡ C.left console.old }
    ensures cause { PutCause result (C.put_faults console.old) (C.put_faults console.new) }
    ensures takes { Same (C.take_faults console.old) (C.take_faults console.new) }
{
    let said = say(console, hearing.pending.as_slice());
    hearing.pending.clear();
    match said {
        Ok(()) => Ok(()),
        Err(_) => Err(Stop::PutFailed),
    }
}

/// Says the answers that are pending where there may be no room for another one.
fn make_room<R: Reactor, C: Console>(
    reactor: &R,
    hearing: &mut Hearing,
    console: &mut C,
) -> Result<(), Stop>
    requires { HasRoom hearing.old (R.room reactor.now) }
    ensures out { (out : List ℕ) × Grows (C.events console.old) (C.events console.new) (put_events out)
        × Hears R.machine result (at reactor.now hearing.old) [] out (at reactor.now hearing.new) }
    ensures room { HasRoom hearing.new (R.room reactor.now) }
    ensures free { OnOk result (vec_len hearing.new.pending + R.room reactor.now ≤ vec_capacity hearing.new.pending) }
    ensures weight { weight (at reactor.now hearing.new) ≡ weight (at reactor.now hearing.old) }
    ensures left { C.left console.new ≡ C.left console.old }
    ensures cause { PutCause result (C.put_faults console.old) (C.put_faults console.new) }
    ensures takes { Same (C.take_faults console.old) (C.take_faults console.new) }
{
    if hearing.pending.capacity() - hearing.pending.len() < reactor.room() {
        return say_pending(hearing, console);
    }
    Ok(())
}

/// Says the answers that are pending before this line is refused.
fn refuse<C: Console>(hearing: &mut Hearing, console: &mut C, line: BadLine) -> Stop
    ensures out { (out : List ℕ) × Grows (C.events console.old) (C.events console.new) (put_events out)
        × SaysBefore result line hearing.old.pending.items out }
    ensures capacity { vec_capacity hearing.new.pending ≡ vec_capacity hearing.old.pending }
    ensures piece { hearing.new.piece ≡ hearing.old.piece }
    ensures number { hearing.new.number ≡ hearing.old.number }
    ensures left { C.left console.new ≡ C.left console.old }
    ensures cause { PutCause {T = ℕ} (Err result) (C.put_faults console.old) (C.put_faults console.new) }
    ensures takes { Same (C.take_faults console.old) (C.take_faults console.new) }
{
    match say_pending(hearing, console) {
        Ok(()) => Stop::Refused(line),
        Err(stop) => stop,
    }
}

/// Hears a line and its newline, of which the first bytes may have been heard. Before a refusal the answers to the earlier
/// lines are said.
fn hear_next<R: Reactor, C: Console>(
    reactor: &mut R,
    hearing: &mut Hearing,
    console: &mut C,
    bytes: &[u8],
) -> Result<(), Stop>
    requires room { HasRoom hearing.old (R.room reactor.old) }
    requires piece { IsPiece bytes.now }
    ensures out { (out : List ℕ) × Grows (C.events console.old) (C.events console.new) (put_events out)
        × Hears R.machine result (at reactor.old hearing.old) (bytes.now ++ 10 ∷ []) out (at reactor.new hearing.new) }
    ensures room { HasRoom hearing.new (R.room reactor.new) }
    ensures same_room { R.room reactor.new ≡ R.room reactor.old }
    ensures progress { OnOk result (weight (at reactor.old hearing.old) + length bytes.now + 1 ≤ weight (at reactor.new hearing.new)) }
    ensures left { C.left console.new ≡ C.left console.old }
    ensures cause { PutCause result (C.put_faults console.old) (C.put_faults console.new) }
    ensures takes { Same (C.take_faults console.old) (C.take_faults console.new) }
{
    if let Err(stop) = make_room(reactor, hearing, console) {
        return Err(stop);
    }
    if let Err(line) = hear_line(reactor, hearing, bytes) {
        return Err(refuse(hearing, console, line));
    }
    Ok(())
}

/// Keeps the bytes behind the last newline of a piece, and says the answers to the lines before them.
fn hear_rest<R: Reactor, C: Console>(
    reactor: &R,
    hearing: &mut Hearing,
    console: &mut C,
    bytes: &[u8],
) -> Result<(), Stop>
    requires room { HasRoom hearing.old (R.room reactor.now) }
    requires piece { IsPiece bytes.now }
    ensures out { (out : List ℕ) × Grows (C.events console.old) (C.events console.new) (put_events out)
        × Hears R.machine result (at reactor.now hearing.old) bytes.now out (at reactor.now hearing.new) }
    ensures pending { OnOk result (hearing.new.pending.items ≡ []) }
    ensures room { HasRoom hearing.new (R.room reactor.now) }
    ensures progress { OnOk result (weight (at reactor.now hearing.old) + length bytes.now ≤ weight (at reactor.now hearing.new)) }
    ensures left { C.left console.new ≡ C.left console.old }
    ensures cause { PutCause result (C.put_faults console.old) (C.put_faults console.new) }
    ensures takes { Same (C.take_faults console.old) (C.take_faults console.new) }
{
    if bytes.is_empty() {
        return say_pending(hearing, console);
    }
    if let Err(line) = hearing.check(bytes) {
        return Err(refuse(hearing, console, line));
    }
    hearing.keep(bytes);
    say_pending(hearing, console)
}

/// Hears a piece of the input line by line, and says the answers to all lines that end in it.
fn hear<R: Reactor, C: Console>(
    reactor: &mut R,
    hearing: &mut Hearing,
    console: &mut C,
    piece: &[u8],
) -> Result<(), Stop>
    requires { HasRoom hearing.old (R.room reactor.old) }
    ensures out { (out : List ℕ) × Grows (C.events console.old) (C.events console.new) (put_events out)
        × Hears R.machine result (at reactor.old hearing.old) piece.now out (at reactor.new hearing.new) }
    ensures pending { OnOk result (hearing.new.pending.items ≡ []) }
    ensures room { HasRoom hearing.new (R.room reactor.new) }
    ensures same_room { R.room reactor.new ≡ R.room reactor.old }
    ensures progress { OnOk result (weight (at reactor.old hearing.old) + length piece.now ≤ weight (at reactor.new hearing.new)) }
    ensures left { C.left console.new ≡ C.left console.old }
    ensures cause { PutCause result (C.put_faults console.old) (C.put_faults console.new) }
    ensures takes { Same (C.take_faults console.old) (C.take_faults console.new) }
{
    let mut rest = piece;
    while let Some(length) = line_length(rest) {
        if let Err(stop) = hear_next(reactor, hearing, console, &rest[..length]) {
            return Err(stop);
        }
        rest = &rest[length + 1..];
    }
    hear_rest(reactor, hearing, console, rest)
}

/// Answers the line that the end of the input ends, if there is one.
fn finish<R: Reactor, C: Console>(reactor: &mut R, hearing: &mut Hearing, console: &mut C) -> End
    requires room { HasRoom hearing.old (R.room reactor.old) }
    requires pending { hearing.old.pending.items ≡ [] }
    ensures out { (out : List ℕ) × Grows (C.events console.old) (C.events console.new) (put_events out)
        × EndsBy R.machine (at reactor.old hearing.old) out result
        × EndsIn R.machine (at reactor.old hearing.old) out result reactor.new }
    ensures left { C.left console.new ≡ C.left console.old }
    ensures cause { PutCauseOf result (C.put_faults console.old) (C.put_faults console.new) }
    ensures takes { Same (C.take_faults console.old) (C.take_faults console.new) }
{
    if hearing.piece.is_empty() {
        return End::Done;
    }
    if hearing.number >= MAX_LINES {
        return End::Refused(hearing.refused(Fault::Many));
    }
    if let Err(line) = end_line(reactor, hearing) {
        return End::Refused(line);
    }
    match say_pending(hearing, console) {
        Ok(()) => End::Done,
        Err(_) => End::PutFailed,
    }
}

impl From<Stop> for End {
    ghost use Rattle.hp_driver.specs.Hearing.{end_of};
    ghost use Rattle.std.specs.Prelude.{◌≡◌};

    ghost from_gives = { λ stop end. end ≡ end_of stop };

    fn from(stop: Stop) -> End {
        match stop {
            Stop::Refused(line) => End::Refused(line),
            Stop::PutFailed => End::PutFailed,
        }
    }
}

/// Answers the lines that a console gives, each before more input is asked for, up to the first one that is refused or
/// the first call that fails. `buffer` takes a piece of the input. No memory is taken.
pub fn follow<R: Reactor, C: Console>(
    reactor: &mut R,
    hearing: &mut Hearing,
    console: &mut C,
    buffer: &mut [u8],
) -> End
    requires room { HasRoom hearing.old (R.room reactor.old) }
    requires buffer { 0 < length buffer.old }
    requires piece { hearing.old.piece.items ≡ [] }
    requires pending { hearing.old.pending.items ≡ [] }
    requires number { hearing.old.number ≡ 0 }
    ensures course { (log : List Event) × Grows (C.events console.old) (C.events console.new) log
        × HeardFrom (C.left console.old) (C.left console.new) log
        × Course R.machine reactor.old log result
        × Reaches R.machine reactor.old log result reactor.new }
    ensures take_cause { TakeCauseOf result (C.take_faults console.old) (C.take_faults console.new) }
    ensures put_cause { PutCauseOf result (C.put_faults console.old) (C.put_faults console.new) }
{
    loop {
        let Ok(count) = console.take(buffer) else {
            return End::TakeFailed;
        };
        if count == 0 {
            return finish(reactor, hearing, console);
        }
        if let Err(stop) = hear(reactor, hearing, console, &buffer[..count]) {
            return End::from(stop);
        }
    }
}
