//! Signs.
ghost use Rattle.std.specs.Prelude.{◌≡◌};
ghost use Rattle.hp_lexer.specs.Reading.{one_byte_sign, two_byte_sign, sign_in};

use crate::token::Sign;

/// The sign of two bytes.
fn long_sign(first: u8, second: u8) -> Option<Sign>
    ensures { result ≡ two_byte_sign first second }
{
    match (first, second) {
        (b'<', b'>') => Some(Sign::Unequal),
        (b'<', b'=') => Some(Sign::AtMost),
        (b'>', b'=') => Some(Sign::AtLeast),
        (b'&', b'&') => Some(Sign::AndAnd),
        (b'|', b'|') => Some(Sign::BarBar),
        (b'-', b'>') => Some(Sign::Arrow),
        (b'=', b'>') => Some(Sign::Implies),
        _ => None,
    }
}

/// The sign of one byte.
fn short_sign(byte: u8) -> Option<Sign>
    ensures { result ≡ one_byte_sign byte }
{
    match byte {
        b'(' => Some(Sign::Open),
        b')' => Some(Sign::Close),
        b',' => Some(Sign::Comma),
        b';' => Some(Sign::Semicolon),
        b':' => Some(Sign::Colon),
        b'=' => Some(Sign::Equal),
        b'<' => Some(Sign::Less),
        b'>' => Some(Sign::Greater),
        b'+' => Some(Sign::Plus),
        b'-' => Some(Sign::Minus),
        b'*' => Some(Sign::Star),
        b'/' => Some(Sign::Slash),
        b'%' => Some(Sign::Percent),
        b'&' => Some(Sign::And),
        b'|' => Some(Sign::Bar),
        _ => None,
    }
}

/// The longest sign in front of a text, and its length.
pub(crate) fn first_sign(text: &[u8]) -> Option<(Sign, usize)>
    ensures { result ≡ sign_in text.now }
{
    if let [first, second, ..] = text
        && let Some(sign) = long_sign(*first, *second)
    {
        return Some((sign, 2));
    }
    let sign = short_sign(*text.first()?)?;
    Some((sign, 1))
}
