//! The outside: the objects in memory, and the real ones.
ghost use Rattle.std.specs.Prelude.{◌≡◌, [], IfOk};

use hp_io::{
    CalmConsole, CalmFolder, CalmSink, Console, Event, Failed, Folder, MemConsole, MemFolder,
    MemSink, ReadErr, RealConsole, RealFolder, RealSink, Sink, read_once, write_once,
};
use std::alloc::{AllocError, Global};
use std::io::{self, ErrorKind, Read, Write};
use std::process::Abort;
use std::test::Fail;

#[test]
fn a_folder_holds_what_is_written(rt: HostRuntime) -> Result<(), Fail> {
    let alloc = rt.alloc();
    let file = (String::from_str(alloc, "a")?, b"one".to_vec(alloc)?);
    let mut folder = MemFolder::new(vec![in alloc; file]?, vec![in alloc; 4]?);
    folder.write("b", b"two")?;
    folder.write("a", b"three")?;
    let mut into = Vec::new(alloc);
    folder.read("a", 5, &mut into)?;
    assert_eq!(rt; into.as_slice(), b"three".as_slice());
    let mut into = Vec::new(alloc);
    assert_eq!(rt;
        folder.read("a", 5, &mut into),
        Err(ReadErr::Failed),
        "the fourth call"
    );
    assert_eq!(rt;
        folder.read("a", 4, &mut into),
        Err(ReadErr::TooLong { limit: 4 })
    );
    assert_eq!(rt; folder.read("c", 4, &mut into), Err(ReadErr::Failed));
    assert_eq!(rt; folder.file("b"), Some(b"two".as_slice()));
    Ok(())
}

/// Takes and puts of a console whose third and sixth call fail, and whose first two takes give 1 and 9 bytes at most.
fn check_calls(rt: &impl Abort, console: &mut MemConsole) {
    let mut buffer = [0; 8];
    assert_eq!(rt; console.take(&mut buffer), Ok(1));
    assert_eq!(rt; console.put(b"1"), Ok(1));
    assert_eq!(rt; console.take(&mut buffer), Err(Failed));
    assert_eq!(rt; console.take(&mut buffer), Ok(3));
    assert_eq!(rt; &buffer[..3], b" 1\n".as_slice());
    assert_eq!(rt; console.take(&mut buffer), Ok(0));
    assert_eq!(rt; console.put(b"x"), Err(Failed));
}

const EVENTS: [Event; 9] = [
    Event::Asked,
    Event::Heard(b'0'),
    Event::Said(b'1'),
    Event::Asked,
    Event::Heard(b' '),
    Event::Heard(b'1'),
    Event::Heard(b'\n'),
    Event::Asked,
    Event::Ended,
];

fn console(alloc: Global) -> Result<MemConsole, AllocError> {
    let (gives, fails) = (vec![in alloc; 1, 9]?, vec![in alloc; 3, 6]?);
    Ok(MemConsole::new(b"0 1\n".to_vec(alloc)?, gives, fails))
}

#[test]
fn a_console_gives_what_it_is_told_to(rt: HostRuntime) -> Result<(), Fail> {
    let mut console = console(rt.alloc())?;
    check_calls(&rt, &mut console);
    assert_eq!(rt; console.events(), EVENTS.as_slice());
    assert_eq!(rt; console.said(rt.alloc())?.as_slice(), b"1".as_slice());
    Ok(())
}

#[test]
fn the_second_put_fails(rt: HostRuntime) -> Result<(), Fail> {
    let mut sink = MemSink::new(vec![in rt.alloc(); 2]?);
    assert_eq!(rt; sink.put(b"E1 "), Ok(3));
    assert_eq!(rt; sink.put(b"lost"), Err(Failed));
    assert_eq!(rt; sink.put(b"2\n"), Ok(2));
    assert_eq!(rt; sink.bytes(), b"E1 2\n".as_slice());
    Ok(())
}

/// Reads and writes of files of more than one piece.
fn check_file<F: Folder>(rt: &impl Abort, folder: &mut F, into: &mut Vec<u8>) -> Result<(), Fail>
    requires { into.old.items ≡ [] }
{
    folder.write("a", &[7; 5000])?;
    folder.write("a", &[8; 4097])?;
    let too_long = folder.read("a", 4096, into);
    assert_eq!(rt; too_long, Err(ReadErr::TooLong { limit: 4096 }));
    into.clear();
    assert_eq!(rt; folder.read("b", 4096, into), Err(ReadErr::Failed));
    into.clear();
    folder.read("a", 4097, into)?;
    assert_eq!(rt; into.as_slice(), [8; 4097].as_slice());
    Ok(())
}

#[test]
fn a_file_is_read_as_it_was_written(rt: HostRuntime) -> Result<(), Fail> {
    let mut folder = RealFolder::new(&rt);
    let mut into = Vec::new(rt.alloc());
    check_file(&rt, &mut folder, &mut into)
}

#[test]
fn a_console_says_and_comes_to_its_end(rt: HostRuntime) -> Result<(), Fail> {
    let mut console = RealConsole::new(&rt);
    assert_eq!(rt; console.put(b"1\n"), Ok(2));
    assert_eq!(rt; console.take(&mut [0; 8]), Ok(0));
    Ok(())
}

#[test]
fn a_sink_takes_a_line(rt: HostRuntime) -> Result<(), Fail> {
    assert_eq!(rt; RealSink::new(rt.stderr()).put(b"E1\n"), Ok(3));
    Ok(())
}

#[test]
fn a_calm_folder_fails_at_names_alone_that_it_does_not_hold(rt: HostRuntime) -> Result<(), Fail> {
    let alloc = rt.alloc();
    let file = (String::from_str(alloc, "a")?, b"one".to_vec(alloc)?);
    let mut folder = CalmFolder::new(vec![in alloc; file]?);
    let mut into = Vec::new(alloc);
    assert_eq!(rt; folder.read("b", 4, &mut into), Err(ReadErr::Failed));
    folder.write("b", b"two")?;
    folder.read("b", 4, &mut into)?;
    assert_eq!(rt; into.as_slice(), b"two".as_slice());
    into.clear();
    folder.read("a", 3, &mut into)?;
    assert_eq!(rt; into.as_slice(), b"one".as_slice());
    Ok(())
}

#[test]
fn a_calm_console_gives_all_of_its_input(rt: HostRuntime) -> Result<(), Fail> {
    let mut console = CalmConsole::new(b"0 1".to_vec(rt.alloc())?);
    let mut buffer = [0; 2];
    assert_eq!(rt; console.take(&mut buffer), Ok(2));
    assert_eq!(rt; &buffer, b"0 ");
    assert_eq!(rt; console.put(b"y"), Ok(1));
    assert_eq!(rt; console.take(&mut buffer), Ok(1));
    assert_eq!(rt; &buffer[..1], b"1".as_slice());
    assert_eq!(rt; console.take(&mut buffer), Ok(0));
    Ok(())
}

#[test]
fn a_calm_sink_takes_all(rt: HostRuntime) -> Result<(), Fail> {
    assert_eq!(rt; CalmSink::new().put(b"E1\n"), Ok(3));
    Ok(())
}

/// Input and output of which the first calls are interrupted, so many as this says. Later ones give and take one byte.
#[derive(Drop)]
struct Interrupted {
    times: u32,
}

impl Interrupted {
    /// Fails as an interrupted call does, as long as it is to.
    fn pass(&mut self) -> io::Result<usize>
        ensures { IfOk result (λ n. n ≡ 1) }
    {
        if self.times == 0 {
            return Ok(1);
        }
        self.times -= 1;
        Err(io::Error::from(ErrorKind::Interrupted))
    }
}

impl Read for Interrupted {
    fn read(&mut self, into: &mut [u8]) -> io::Result<usize> {
        Ok(self.pass()?.min(into.len()))
    }
}

impl Write for Interrupted {
    fn write(&mut self, piece: &[u8]) -> io::Result<usize> {
        Ok(self.pass()?.min(piece.len()))
    }

    fn flush(&mut self) -> io::Result<()> {
        Ok(())
    }
}

#[test]
fn the_thousandth_try_reads(rt: HostRuntime) -> Result<(), Fail> {
    let mut buffer = [0; 2];
    assert_eq!(rt;
        read_once(&mut Interrupted { times: 999 }, &mut buffer),
        Ok(1)
    );
    Ok(())
}

#[test]
fn a_thousand_interrupted_reads_have_failed(rt: HostRuntime) -> Result<(), Fail> {
    let mut reader = Interrupted { times: 1000 };
    let mut buffer = [0; 2];
    assert_eq!(rt; read_once(&mut reader, &mut buffer), Err(Failed));
    assert_eq!(rt; reader.times, 0);
    Ok(())
}

#[test]
fn the_thousandth_try_writes(rt: HostRuntime) -> Result<(), Fail> {
    assert_eq!(rt; write_once(&mut Interrupted { times: 999 }, b"12"), Ok(1));
    Ok(())
}

#[test]
fn a_thousand_interrupted_writes_have_failed(rt: HostRuntime) -> Result<(), Fail> {
    let mut writer = Interrupted { times: 1000 };
    assert_eq!(rt; write_once(&mut writer, b"12"), Err(Failed));
    assert_eq!(rt; writer.times, 0);
    Ok(())
}
