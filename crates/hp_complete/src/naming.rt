//! The names of new variables.
ghost use Rattle.std.specs.Prelude.{◌≡◌, IfOk};
ghost use Rattle.law_equations.specs.Made.Making.{new_name, stem};

use hp_base::Name;
use itoa::Buffer;
use std::alloc::{AllocError, Global};

/// The sign that no name of a source text holds.
const SIGN: u8 = b'$';

/// The most bytes that are taken from a name.
const ROOM: usize = 248;

/// The part of the name before the sign.
#[tactic(auto, using(crate::proofs::Rules::stems))]
fn stem(text: &[u8]) -> &[u8]
    ensures { result.now ≡ stem text.now }
{
    for i in 0..text.len() {
        if text[i] == SIGN {
            return &text[..i];
        }
    }
    text
}

/// The name of a new variable that stands for this name: its part before the sign, `$x` and the number.
#[tactic(auto, using(crate::proofs::Rules::stems))]
pub fn new_name(alloc: Global, text: &[u8], number: u64) -> Result<Name, AllocError>
    ensures { IfOk result (λ name. name ≡ new_name text.now number) }
{
    let stem = stem(text);
    let mut bytes = Vec::from_slice(alloc, &stem[..stem.len().min(ROOM)])?;
    bytes.extend_from_slice(b"$x")?;
    let mut buffer = Buffer::new();
    bytes.extend_from_slice(buffer.format(number).as_bytes())?;
    let name = Name::new(alloc, &bytes)?;
    Ok(name)
}
