//! The real objects over stand-ins for the system: output that takes one byte at a time and keeps what arrived, input of known bytes, and files of more than one piece.
use hp_io::{Console, Folder, RealConsole, RealFolder, RealSink, Sink};
use std::alloc::{AllocError, Allocator, Global};
use std::cell::Cell;
use std::fmt::Display;
use std::io::{self, BufRead, ErrorKind, Lines};
use std::test::Fail;

/// The first bytes that arrived, and how many there were.
#[derive(Clone, Copy)]
struct Arrived {
    bytes: [u8; 8],
    count: usize,
}

/// Standard input of known bytes, and output that takes one byte of each call and keeps it.
#[derive(Drop)]
struct Narrow {
    arrived: Cell<Arrived>,
}

/// The input: 160 bytes, so more than a piece of 64 bytes, and more than one buffer.
const INPUT: &[u8] = b"0123456789abcdefghijklmnopqrstuvwxyz0123456789abcdefghijklmnopqrstuvwxyz\
0123456789abcdefghijklmnopqrstuvwxyz0123456789abcdefghijklmnopqrstuvwxyz0123456789abcdef";

impl Narrow {
    fn new() -> Narrow {
        Narrow {
            arrived: Cell::new(Arrived {
                bytes: [0; 8],
                count: 0,
            }),
        }
    }

    fn keep(&self, byte: u8) {
        let Arrived { mut bytes, count } = self.arrived.get();
        if let Some(place) = bytes.get_mut(count) {
            *place = byte;
        }
        self.arrived.set(Arrived {
            bytes,
            count: count.saturating_add(1),
        });
    }

    /// Whether just these bytes arrived.
    fn has(&self, bytes: &[u8]) -> bool {
        let arrived = self.arrived.get();
        arrived.count == bytes.len() && arrived.bytes.get(..arrived.count) == Some(bytes)
    }
}

/// What it cannot do, which no real object asks for.
fn unsupported() -> io::Result<()> {
    Err(io::Error::from(ErrorKind::Unsupported))
}

impl Print for Narrow {
    fn print<D: Display + Drop>(&self, _value: D) -> io::Result<()> {
        unsupported()
    }

    fn println<D: Display + Drop>(&self, _value: D) -> io::Result<()> {
        unsupported()
    }

    fn write_all(&self, _bytes: &[u8]) -> io::Result<()> {
        unsupported()
    }

    fn write_some(&self, bytes: &[u8]) -> io::Result<usize> {
        match bytes.first() {
            None => Ok(0),
            Some(byte) => {
                self.keep(*byte);
                Ok(1)
            }
        }
    }
}

impl Input for Narrow {
    type Reader = &'static [u8];

    fn read_line<A: Allocator + Clone>(&self, buf: &mut String<A>) -> io::Result<usize> {
        self.reader().read_line(buf)
    }

    fn lines<A: Allocator>(&self, alloc: A) -> Lines<&'static [u8], A> {
        self.reader().lines(alloc)
    }

    fn reader(&self) -> &'static [u8] {
        INPUT
    }
}

#[test]
fn a_sink_writes_what_it_answers(rt: HostRuntime) -> Result<(), Fail> {
    let error = Narrow::new();
    let mut sink = RealSink::new(&error);
    assert_eq!(rt; sink.put(b"E1\n"), Ok(1));
    assert!(rt; error.has(b"E"));
    assert_eq!(rt; sink.put(b"1\n"), Ok(1));
    assert!(rt; error.has(b"E1"));
    Ok(())
}

#[test]
fn a_console_says_what_it_answers(rt: HostRuntime) -> Result<(), Fail> {
    let system = Narrow::new();
    let mut console = RealConsole::new(&system);
    assert_eq!(rt; console.put(b"12\n"), Ok(1));
    assert!(rt; system.has(b"1"));
    assert_eq!(rt; console.put(b"2\n"), Ok(1));
    assert!(rt; system.has(b"12"));
    Ok(())
}

#[test]
fn a_console_gives_all_of_its_input(rt: HostRuntime) -> Result<(), Fail> {
    let system = Narrow::new();
    let mut console = RealConsole::new(&system);
    let mut buffer = [0; 100];
    assert_eq!(rt; console.take(&mut buffer), Ok(100));
    assert_eq!(rt; Some(buffer.as_slice()), INPUT.get(..100));
    assert_eq!(rt; console.take(&mut buffer), Ok(60));
    assert_eq!(rt; buffer.get(..60), INPUT.get(100..));
    assert_eq!(rt; console.take(&mut buffer), Ok(0));
    Ok(())
}

/// So many bytes, of which the last one differs from the others.
fn bytes_of(alloc: Global, count: usize) -> Result<Vec<u8>, AllocError> {
    let mut bytes = vec![in alloc; 7; count]?;
    bytes.push(8)?;
    Ok(bytes)
}

/// Writes a file and reads it back.
fn check_long<F: Folder>(alloc: Global, folder: &mut F, bytes: &[u8]) -> Result<bool, Fail> {
    folder.write("long", bytes)?;
    let mut into = Vec::new(alloc);
    folder.read("long", bytes.len(), &mut into)?;
    Ok(into.as_slice() == bytes)
}

#[test]
fn a_long_file_is_read_as_it_was_written(rt: HostRuntime) -> Result<(), Fail> {
    let bytes = bytes_of(rt.alloc(), 1_200_000)?;
    let mut folder = RealFolder::new(&rt);
    assert!(rt; check_long(rt.alloc(), &mut folder, bytes.as_slice())?);
    Ok(())
}
