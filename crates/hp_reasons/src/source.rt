//! The source text, by places.

use hp_base::{Span, is_blank_byte};
use std::alloc::{AllocError, Global};

/// A source text and where its lines begin.
#[derive(Drop)]
pub struct Source<'s> {
    text: &'s [u8],
    lines: Vec<usize>,
}

impl<'s> Source<'s> {
    pub fn new(alloc: Global, text: &'s [u8]) -> Result<Source<'s>, AllocError> {
        let mut lines = vec![in alloc; 0]?;
        for i in 0..text.len() {
            if text[i] == b'\n' {
                lines.push(i + 1)?;
            }
        }
        Ok(Source { text, lines })
    }

    /// The bytes at a place; none where it is no place of the text.
    pub fn bytes(&self, span: Span) -> &'s [u8] {
        let line = (span.line as usize).saturating_sub(1);
        let Some(first) = self.lines.get(line) else {
            return &[];
        };
        let from = first.saturating_add((span.col as usize).saturating_sub(1));
        match self.text.get(from..span.end as usize) {
            None => &[],
            Some(bytes) => bytes,
        }
    }

    /// Adds the text at a place, with one blank for blanks and ends of lines, and no more than so many bytes.
    pub fn add(&self, span: Span, most: usize, into: &mut Vec<u8>) -> Result<(), AllocError> {
        let mut count = 0;
        let mut is_blank = false;
        for byte in self.bytes(span) {
            if is_blank_byte(*byte) {
                is_blank = true;
                continue;
            }
            if count >= most {
                return into.extend_from_slice(b" ..");
            }
            if is_blank {
                into.push(b' ')?;
            }
            is_blank = false;
            into.push(*byte)?;
            count = count.saturating_add(1);
        }
        Ok(())
    }
}
