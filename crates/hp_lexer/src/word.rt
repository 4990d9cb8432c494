//! Words: keywords and names.
ghost use Rattle.std.specs.Prelude.{◌≡◌, length, take_while, find};
ghost use Rattle.std.specs.Str.{bytes_eq};
ghost use Rattle.hp_lexer.specs.Spelling.{keyword_text};
ghost use Rattle.hp_lexer.specs.Reading.{keyword_of, keywords_with};
ghost use Rattle.hp_base.specs.Bytes.{is_digit, is_word_byte};

use crate::token::Keyword;
use hp_base::{is_digit_byte, is_word_part};

/// How many bytes in front are letters, digits and `_`.
pub(crate) fn word_length(text: &[u8]) -> usize
    ensures { result ≡ length (take_while is_word_byte text.now) }
{
    text.iter().take_while(|byte| is_word_part(**byte)).count()
}

/// How many bytes in front are digits.
pub(crate) fn digits_length(text: &[u8]) -> usize
    ensures { result ≡ length (take_while is_digit text.now) }
{
    text.iter().take_while(|byte| is_digit_byte(**byte)).count()
}

/// The keywords that begin with a letter.
fn keywords_with(first: u8) -> &'static [Keyword]
    ensures { result.now ≡ keywords_with first }
{
    match first {
        b'a' => &[Keyword::Assume, Keyword::Automaton],
        b'b' => &[Keyword::Bool],
        b'c' => &[Keyword::Continue, Keyword::Contract],
        b'd' => &[Keyword::Do],
        b'e' => &[
            Keyword::Else,
            Keyword::End,
            Keyword::Enforce,
            Keyword::Every,
        ],
        b'f' => &[Keyword::False, Keyword::Fby],
        b'i' => &[Keyword::If, Keyword::In, Keyword::Inlined, Keyword::Int],
        b'l' => &[Keyword::Last, Keyword::Let],
        b'm' => &[Keyword::Merge],
        b'n' => &[Keyword::Node, Keyword::Not],
        b'o' => &[Keyword::On, Keyword::Or],
        b'p' => &[Keyword::Pre],
        b'r' => &[Keyword::Reset, Keyword::Returns],
        b's' => &[Keyword::State, Keyword::Switch],
        b't' => &[Keyword::Tel, Keyword::Then, Keyword::True, Keyword::Type],
        b'u' => &[Keyword::Unless, Keyword::Until],
        b'v' => &[Keyword::Var],
        b'w' => &[Keyword::When, Keyword::Whenot, Keyword::With],
        b'x' => &[Keyword::Xor],
        _ => &[],
    }
}

fn among(keywords: &[Keyword], word: &[u8]) -> Option<Keyword>
    ensures { result ≡ find (λ k. bytes_eq (keyword_text k) word.now) keywords.now }
{
    keywords
        .iter()
        .copied()
        .find(|keyword| keyword.text().as_bytes() == word)
}

/// The keyword that a word spells.
pub(crate) fn keyword(word: &[u8]) -> Option<Keyword>
    ensures { result ≡ keyword_of word.now }
{
    match word {
        [first, ..] => among(keywords_with(*first), word),
        _ => None,
    }
}
