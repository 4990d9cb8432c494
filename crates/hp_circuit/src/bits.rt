//! Numbers in bits.
ghost use Rattle.std.specs.Prelude.{◌≡◌, ◌≤◌, ◌<◌, IfOk, nat_eq};
ghost use Rattle.hp_circuit.specs.Numbers.{pow2, to_bits, width};
ghost use Rattle.hp_circuit.specs.Shapes.{shape_width};

use crate::circuit::Shape;
use std::alloc::{AllocError, Global};

/// Two to the power of a number.
fn power(exponent: usize) -> usize
    requires { exponent < 64 }
    ensures { result ≡ pow2 exponent }
{
    1 << (exponent as u32)
}

/// The least number of bits that give so many values a code.
fn width(count: usize) -> usize
    ensures is { result ≡ width count }
    ensures within { result ≤ 64 }
{
    for width in 0..64 {
        if count <= power(width) {
            return width;
        }
    }
    64
}

/// How many bits a value of the shape takes.
pub fn shape_width(shape: Shape) -> usize
    ensures is { result ≡ shape_width shape }
    ensures within { result ≤ 64 }
{
    match shape {
        Shape::Truth => 1,
        Shape::Cons { count } => width(count),
        Shape::Mark => 0,
    }
}

/// Whether so many values have all codes of their bits.
pub fn is_full(count: usize) -> bool
    ensures { result ≡ nat_eq (pow2 (width count)) count }
{
    let width = width(count);
    width < 64 && power(width) == count
}

/// A number in so many bits, the most significant first.
pub fn bits(alloc: Global, width: usize, number: usize) -> Result<Vec<bool>, AllocError>
    requires { width ≤ 64 }
    ensures { IfOk result (λ bits. bits.items ≡ to_bits width number) }
{
    let mut bits = Vec::new(alloc);
    let mut left = number;
    for i in 0..width {
        let high = power(width - 1 - i);
        bits.push(high <= left)?;
        if high <= left {
            left -= high;
        }
    }
    Ok(bits)
}
