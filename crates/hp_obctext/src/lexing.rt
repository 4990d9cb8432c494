//! The words of a text.
ghost use Rattle.std.specs.Prelude.{◌≡◌, ◌+◌, ◌≤◌, ◌∷◌, [], length, take_while, MatchOption, IfSome};
ghost use Rattle.hp_obctext.specs.Places.{IsEndOf};
ghost use Rattle.hp_base.specs.Bytes.{is_blank};
ghost use Rattle.hp_obctext.specs.Lexing.{words, goes_on, BeginsWord};

use hp_base::{is_blank_byte, is_capital_letter, is_digit_byte, is_small_letter, is_word_part};
use hp_obc::spelling::is_name_part;

/// Whether a byte goes on with a word that begins with another.
fn continues(first: u8, byte: u8) -> bool
    ensures { result ≡ goes_on first byte }
{
    if is_small_letter(first) || first == b'@' {
        is_name_part(byte)
    } else if is_capital_letter(first) {
        is_word_part(byte)
    } else if is_digit_byte(first) || first == b'-' {
        is_digit_byte(byte)
    } else {
        false
    }
}

/// How many bytes in front go on with a word that begins with a byte.
fn run_length(first: u8, text: &[u8]) -> usize
    ensures { result ≡ length (take_while (goes_on first) text.now) }
{
    text.iter()
        .take_while(|byte| continues(first, **byte))
        .count()
}

/// How many blanks stand in front.
fn blanks_length(text: &[u8]) -> usize
    ensures { result ≡ length (take_while is_blank text.now) }
{
    text.iter().take_while(|byte| is_blank_byte(**byte)).count()
}

/// What stands behind the blanks in front.
pub(crate) fn skip_blanks(text: &[u8]) -> &[u8]
    ensures words { words result.now ≡ words text.now }
    ensures begins { BeginsWord result.now }
    ensures shorter { length result.now ≤ length text.now }
    ensures end { IsEndOf text.now result.now }
{
    let (_, rest) = text.split_at(blanks_length(text));
    rest
}

/// The first word of a text, and what stands behind it.
#[tactic(auto, using(crate::proofs::PlaceLaws::ends))]
pub(crate) fn first_word(text: &[u8]) -> Option<(&[u8], &[u8])>
    ensures words { MatchOption result (words text.now ≡ []) (λ found. words text.now ≡ found.0.now ∷ words found.1.now) }
    ensures shorter { MatchOption result (words text.now ≡ []) (λ found. length found.1.now + 1 ≤ length text.now) }
    ensures end { IfSome result (λ found. IsEndOf text.now found.1.now) }
    ensures within { IfSome result (λ found. length found.0.now ≤ length text.now) }
{
    let text = skip_blanks(text);
    let [first, tail @ ..] = text else {
        return None;
    };
    Some(text.split_at(1 + run_length(*first, tail)))
}
