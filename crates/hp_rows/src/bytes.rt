//! The bytes of the texts of a table.
use crate::malformed::Malformed;
use serde_json::Value;

/// Adds the bytes of a string: each character is the byte of its number.
fn add_string(text: &str, into: &mut Vec<u8>) -> Result<(), Malformed> {
    for character in text.chars() {
        let Ok(byte) = u8::try_from(u32::from(character)) else {
            return Err(Malformed::NoText);
        };
        into.push(byte)?;
    }
    Ok(())
}

/// A piece of a text, and how often it stands there: a string stands once.
fn piece_of(piece: &Value) -> Option<(&str, u64)> {
    if let Some(text) = piece.as_str() {
        return Some((text, 1));
    }
    let text = piece.get("text")?.as_str()?;
    let times = piece.get("times")?.as_u64()?;
    Some((text, times))
}

fn add_piece(piece: &Value, into: &mut Vec<u8>) -> Result<(), Malformed> {
    let Some((text, times)) = piece_of(piece) else {
        return Err(Malformed::NoText);
    };
    for _ in 0..times {
        add_string(text, into)?;
    }
    Ok(())
}

/// Adds the bytes of a text: a string, or a list of pieces.
pub fn add_text(text: &Value, into: &mut Vec<u8>) -> Result<(), Malformed> {
    let Some(pieces) = text.as_array() else {
        return add_piece(text, into);
    };
    for piece in pieces {
        add_piece(piece, into)?;
    }
    Ok(())
}
