//! Standard input of known bytes, and output that takes a part of a piece and keeps what arrives.
use std::alloc::{Allocator, Global};
use std::cell::RefCell;
use std::fmt::Display;
use std::io::{self, BufRead, ErrorKind, Lines};

/// How many bytes of a piece are taken at most, as a pipe may take only some.
const TAKEN: usize = 5;

/// What stands in for the standard streams.
#[derive(Drop)]
pub struct Stream<'a> {
    input: &'a [u8],
    arrived: RefCell<Vec<u8>>,
}

impl<'a> Stream<'a> {
    pub fn new(alloc: Global, input: &'a [u8]) -> Stream<'a> {
        Stream {
            input,
            arrived: RefCell::new(Vec::new(alloc)),
        }
    }

    /// What arrived.
    pub fn into_arrived(self) -> Vec<u8> {
        let Stream { arrived, .. } = self;
        arrived.into_inner()
    }
}

/// What no object asks for that is over these streams.
fn unsupported() -> io::Result<()> {
    Err(io::Error::from(ErrorKind::Unsupported))
}

impl Print for Stream<'_> {
    fn print<D: Display + Drop>(&self, _value: D) -> io::Result<()> {
        unsupported()
    }

    fn println<D: Display + Drop>(&self, _value: D) -> io::Result<()> {
        unsupported()
    }

    fn write_all(&self, _bytes: &[u8]) -> io::Result<()> {
        unsupported()
    }

    fn write_some(&self, bytes: &[u8]) -> io::Result<usize> {
        let count = bytes.len().min(TAKEN);
        match self.arrived.try_borrow_mut() {
            Err(_) => Err(io::Error::from(ErrorKind::Other)),
            Ok(mut arrived) => {
                arrived.extend_from_slice(&bytes[..count])?;
                Ok(count)
            }
        }
    }
}

impl<'a> Input for Stream<'a> {
    type Reader = &'a [u8];

    fn read_line<A: Allocator + Clone>(&self, buf: &mut String<A>) -> io::Result<usize> {
        self.reader().read_line(buf)
    }

    fn lines<A: Allocator>(&self, alloc: A) -> Lines<&'a [u8], A> {
        self.reader().lines(alloc)
    }

    fn reader(&self) -> &'a [u8] {
        self.input
    }
}
