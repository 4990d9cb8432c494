//! The places of words in a text.
ghost use Rattle.std.specs.Prelude.{◌≡◌, ◌≤◌, ◌+◌, length, drop};
ghost use Rattle.hp_obctext.specs.Rules.{behind};
ghost use Rattle.hp_obctext.specs.Lexing.{words, BeginsWord};
ghost use Rattle.hp_obctext.specs.Places.{span_behind, IsEndOf, IsPlaceOf};

use crate::lexing::{first_word, skip_blanks};
use hp_base::Span;
use hp_lines::{last_line, newlines};

/// The place of a word of some bytes behind others.
pub(crate) fn span_behind(front: &[u8], size: usize) -> Span
    requires { length front.now + size ≤ 67108864 }
    ensures { result ≡ span_behind front.now size }
{
    Span {
        line: 1 + newlines(front) as u32,
        col: 1 + last_line(front) as u32,
        end: (front.len() + size) as u32,
    }
}

/// How many words a text has.
pub(crate) fn count_words(text: &[u8]) -> usize
    ensures count { result ≡ length (words text.now) }
    ensures within { result ≤ length text.now }
{
    let mut rest = text;
    let mut count = 0;
    while let Some((_, behind)) = first_word(rest) {
        count += 1;
        rest = behind;
    }
    count
}

/// What stands in a text from the word of a number on.
#[tactic(auto, using(crate::proofs::PlaceLaws::ends))]
fn from_word(text: &[u8], number: usize) -> &[u8]
    ensures end { IsEndOf text.now result.now }
    ensures no_blank { BeginsWord result.now }
    ensures words { words result.now ≡ drop number (words text.now) }
{
    let mut rest = skip_blanks(text);
    for _i in 0..number {
        rest = skip_blanks(behind_word(rest));
    }
    rest
}

/// What stands behind the first word, if there is one.
#[tactic(auto, using(crate::proofs::PlaceLaws::behinds))]
fn behind_word(text: &[u8]) -> &[u8]
    ensures end { IsEndOf text.now result.now }
    ensures words { words result.now ≡ behind (words text.now) }
{
    match first_word(text) {
        None => text,
        Some((_, behind)) => behind,
    }
}

/// The place of the word of a number, counted from 0, or the one behind the text where there are only so many words.
pub(crate) fn place_of(text: &[u8], number: usize) -> Span
    requires { length text.now ≤ 67108864 }
    ensures { IsPlaceOf text.now number result }
{
    let rest = from_word(text, number);
    let front = &text[..text.len() - rest.len()];
    let size = match first_word(rest) {
        None => 0,
        Some((word, _)) => word.len(),
    };
    span_behind(front, size)
}
