//! The names of memories and instances.
ghost use Rattle.std.specs.Prelude.{◌≡◌, IfOk};
ghost use Rattle.hp_toobc.specs.Labels.{stem, made_name};

use hp_base::Name;
use itoa::Buffer;
use std::alloc::{AllocError, Global};

/// The sign that no name of a source text holds.
const SIGN: u8 = b'$';

/// The most bytes of a name in front of the sign.
const STEM: usize = 255;

/// The most digits of a place.
const DIGITS: usize = 13;

/// The part of the name before the sign.
#[tactic(auto, using(crate::proofs::Rules::stems))]
fn stem(text: &[u8]) -> &[u8]
    ensures { result.now ≡ stem text.now }
{
    for i in 0..text.len() {
        if text[i] == SIGN {
            return &text[..i];
        }
    }
    text
}

/// The part of the name before the sign, then a sign with this letter, and a place in decimal.
pub fn made_name(alloc: Global, text: &[u8], letter: u8, place: usize) -> Result<Name, AllocError>
    ensures { IfOk result (λ name. name ≡ made_name text.now letter place) }
{
    let front = stem(text);
    let mut bytes = Vec::from_slice(alloc, &front[..front.len().min(STEM)])?;
    bytes.push(SIGN)?;
    bytes.push(letter)?;
    let mut buffer = Buffer::new();
    let digits = buffer.format(place).as_bytes();
    bytes.extend_from_slice(&digits[..digits.len().min(DIGITS)])?;
    let name = Name::new(alloc, &bytes)?;
    Ok(name)
}
