//! The bytes of a text, by what they may stand in.
ghost use Rattle.std.specs.Prelude.{◌≡◌};
ghost use Rattle.hp_base.specs.Bytes.{is_small, is_capital, is_digit, is_word_byte, is_blank};

/// Whether it is a letter `a` to `z`.
pub fn is_small_letter(byte: u8) -> bool
    ensures { result ≡ is_small byte }
{
    b'a' <= byte && byte <= b'z'
}

/// Whether it is a letter `A` to `Z`.
pub fn is_capital_letter(byte: u8) -> bool
    ensures { result ≡ is_capital byte }
{
    b'A' <= byte && byte <= b'Z'
}

/// Whether it is a digit `0` to `9`.
pub fn is_digit_byte(byte: u8) -> bool
    ensures { result ≡ is_digit byte }
{
    b'0' <= byte && byte <= b'9'
}

/// Whether it is a letter, a digit or `_`.
pub fn is_word_part(byte: u8) -> bool
    ensures { result ≡ is_word_byte byte }
{
    is_small_letter(byte) || is_capital_letter(byte) || is_digit_byte(byte) || byte == b'_'
}

/// Whether it is a space, a tab, a carriage return or a newline.
pub fn is_blank_byte(byte: u8) -> bool
    ensures { result ≡ is_blank byte }
{
    byte == b' ' || byte == b'\t' || byte == b'\r' || byte == b'\n'
}
