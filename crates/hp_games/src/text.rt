//! Texts of certificates, each on a line.
use std::alloc::{AllocError, Global};

/// Adds a part of a line, and behind it a newline unless it is the last.
fn add_part(part: &str, is_last: bool, into: &mut Vec<u8>) -> Result<(), AllocError> {
    into.extend_from_slice(part.as_bytes())?;
    if !is_last {
        into.push(b'\n')?;
    }
    Ok(())
}

/// The text behind the word `text`, in which `\n` stands for each newline.
pub fn text_of(alloc: Global, line: &str) -> Result<Option<Vec<u8>>, AllocError> {
    let Some(mut rest) = line.strip_prefix("text ") else {
        return Ok(None);
    };
    let mut text = Vec::new(alloc);
    for _ in 0..rest.len() {
        let Some((part, behind)) = rest.split_once("\\n") else {
            break;
        };
        add_part(part, false, &mut text)?;
        rest = behind;
    }
    add_part(rest, true, &mut text)?;
    Ok(Some(text))
}
