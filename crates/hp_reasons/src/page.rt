//! A text of lines, each of words between tabs.

use hp_base::Span;
use itoa::Buffer;
use std::alloc::{AllocError, Global};

/// Adds a number in decimals.
fn add_number(number: u64, into: &mut Vec<u8>) -> Result<(), AllocError> {
    let mut digits = Buffer::new();
    into.extend_from_slice(digits.format(number).as_bytes())
}

/// Adds a place as line and column.
pub fn add_place(span: Span, into: &mut Vec<u8>) -> Result<(), AllocError> {
    add_number(u64::from(span.line), into)?;
    into.push(b':')?;
    add_number(u64::from(span.col), into)
}

/// The lines so far.
#[derive(Drop)]
pub struct Page {
    pub text: Vec<u8>,
}

impl Page {
    pub fn new(alloc: Global) -> Page {
        Page {
            text: Vec::new(alloc),
        }
    }

    pub fn into_text(self) -> Vec<u8> {
        let Page { text } = self;
        text
    }

    /// Begins a line.
    pub fn begin(&mut self, word: &[u8]) -> Result<(), AllocError> {
        self.text.extend_from_slice(word)
    }

    /// Ends the last word, so that another one can be written into the text.
    pub fn tab(&mut self) -> Result<(), AllocError> {
        self.text.push(b'\t')?;
        Ok(())
    }

    /// Adds a word to the last line.
    pub fn word(&mut self, word: &[u8]) -> Result<(), AllocError> {
        self.tab()?;
        self.text.extend_from_slice(word)
    }

    /// Adds a number to the last line.
    pub fn number(&mut self, number: usize) -> Result<(), AllocError> {
        self.tab()?;
        add_number(number as u64, &mut self.text)
    }

    /// Adds a place to the last line: its line, its column, and the offset behind it.
    pub fn span(&mut self, span: Span) -> Result<(), AllocError> {
        self.number(span.line as usize)?;
        self.number(span.col as usize)?;
        self.number(span.end as usize)
    }

    /// Adds truth values to the last line, as a word of zeros and ones.
    pub fn bits(&mut self, bits: &[bool]) -> Result<(), AllocError> {
        self.tab()?;
        for bit in bits {
            self.text.push(if *bit { b'1' } else { b'0' })?;
        }
        Ok(())
    }

    /// Ends the last line.
    pub fn end(&mut self) -> Result<(), AllocError> {
        self.text.push(b'\n')?;
        Ok(())
    }
}
