//! The bytes of names, and words that are names.
ghost use Rattle.std.specs.Prelude.{◌≡◌};
ghost use Rattle.std.specs.List.{list_all};
ghost use Rattle.hp_base.specs.Bytes.{is_word_byte};
ghost use Rattle.hp_obc.specs.Form.{is_name_byte, is_reserved, is_name, is_constructor};

use hp_base::{is_capital_letter, is_small_letter, is_word_part};

/// Whether it is a letter, a digit, `_`, or the `$` of a name that the compiler made.
pub fn is_name_part(byte: u8) -> bool
    ensures { result ≡ is_name_byte byte }
{
    is_word_part(byte) || byte == b'$'
}

/// Whether a word means something else where a name may stand.
pub fn is_reserved_word(word: &[u8]) -> bool
    ensures { result ≡ is_reserved word.now }
{
    word == b"true".as_slice()
        || word == b"false".as_slice()
        || word == b"bool".as_slice()
        || word == b"int".as_slice()
}

fn are_name_parts(bytes: &[u8]) -> bool
    ensures { result ≡ list_all is_name_byte bytes.now }
{
    bytes.iter().all(|byte| is_name_part(*byte))
}

fn are_word_parts(bytes: &[u8]) -> bool
    ensures { result ≡ list_all is_word_byte bytes.now }
{
    bytes.iter().all(|byte| is_word_part(*byte))
}

/// Whether a word is the name of a type, a machine, a variable, a memory or an instance.
pub fn spells_name(word: &[u8]) -> bool
    ensures { result ≡ is_name word.now }
{
    match word {
        [] => false,
        [first, others @ ..] => {
            is_small_letter(*first)
                && are_name_parts(others)
                && word.len() <= 270
                && !is_reserved_word(word)
        }
    }
}

/// Whether a word is the name of a constructor.
pub fn spells_constructor(word: &[u8]) -> bool
    ensures { result ≡ is_constructor word.now }
{
    match word {
        [] => false,
        [first, others @ ..] => {
            is_capital_letter(*first) && are_word_parts(others) && word.len() <= 255
        }
    }
}
