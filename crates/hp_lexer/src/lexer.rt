ghost use Rattle.std.specs.Prelude.{◌≡◌, ◌⊎◌, ◌≢◌, ◌≤◌, ◌<◌, false, [], length, IfOk, IfErr, IfSome, MatchOption, MatchResult, IsErrAnd, List, All};
ghost use Rattle.hp_base.specs.Limits.{most};
ghost use Rattle.hp_base.specs.declared.limit.What.TheVariants.{Size};
ghost use Rattle.hp_lexer.specs.Bytes.{begins_blank, begins_comment};
ghost use Rattle.hp_lexer.specs.Reading.{HasRoom, place_behind, token_in, IsNext, Fails, Ends, StopsIn};
ghost use Rattle.hp_lexer.specs.Lexing.{AreTokensOf, Refuses, Reads, AreInOrder, IsTokenIn, span_behind};

use crate::gap::skip_gap;
use crate::numbers::number;
use crate::place::{Place, Rest};
use crate::sign::first_sign;
use crate::token::{Token, TokenKind};
use crate::word::{digits_length, keyword, word_length};
use hp_base::{Limit, Span, What, is_capital_letter, is_digit_byte, is_small_letter};
use std::alloc::{AllocFailed, Global};
use thiserror::Error;

/// Why a text has no tokens.
#[derive(Debug, Drop, Error)]
pub enum LexErr {
    /// A byte begins no token, a comment does not end, or a number is too large. The span is one byte:
    /// that byte, the `(` of the outermost comment, or the first digit.
    #[error("no token at line {}, column {}", .span.line, .span.col)]
    Bad { span: Span },
    /// The text or a name is too long. The span is the name, or the first byte that is too many.
    #[error("too long at line {}, column {}", .span.line, .span.col)]
    Limit { span: Span, limit: Limit },
    #[error("out of memory")]
    OutOfMemory,
}

impl<T: Drop> From<AllocFailed<T>> for LexErr {
    ghost use Rattle.hp_lexer.specs.declared.lexer.LexErr.TheVariants.{OutOfMemory};

    ghost from_gives = { λ _ e. e ≡ OutOfMemory };

    fn from(_failed: AllocFailed<T>) -> LexErr {
        LexErr::OutOfMemory
    }
}

/// The kind and the length of the token that a text begins with.
fn first_token(text: &[u8]) -> Option<(TokenKind, usize)>
    ensures token { result ≡ token_in text.now }
    ensures within { IfSome result (λ found. (0 < found.1) × (found.1 ≤ length text.now)) }
{
    let first = *text.first()?;
    if is_small_letter(first) {
        let length = word_length(text);
        let kind = match keyword(&text[..length]) {
            Some(keyword) => TokenKind::Keyword(keyword),
            None => TokenKind::Small,
        };
        Some((kind, length))
    } else if is_capital_letter(first) {
        Some((TokenKind::Capital, word_length(text)))
    } else if is_digit_byte(first) {
        Some((TokenKind::Number, digits_length(text)))
    } else {
        let (sign, length) = first_sign(text)?;
        Some((TokenKind::Sign(sign), length))
    }
}

/// The token in front, and what stands behind it.
fn token(rest: Rest<'_>) -> Result<(Token, Rest<'_>), LexErr>
    requires some { rest.bytes.now ≢ [] }
    requires room { HasRoom rest.place (length rest.bytes.now) }
    requires no_blank { begins_blank rest.bytes.now ≡ false }
    requires no_comment { begins_comment rest.bytes.now ≡ false }
    ensures next { IfOk result
        (λ found. IsNext rest.entry.bytes.now rest.entry.place found.0 found.1.bytes.now found.1.place) }
    ensures fails { IfErr result (Fails rest.entry.bytes.now rest.entry.place) }
{
    let place = rest.place;
    let Some((kind, length)) = first_token(rest.bytes) else {
        return Err(LexErr::Bad {
            span: place.span(1),
        });
    };
    let (spelling, bytes) = rest.bytes.split_at(length);
    let span = place.span(length);
    match kind {
        TokenKind::Small | TokenKind::Capital => {
            if length as u64 > What::Name.most() {
                let limit = Limit {
                    what: What::Name,
                    found: What::Name.most() + 1,
                };
                return Err(LexErr::Limit { span, limit });
            }
        }
        TokenKind::Number => {
            if number(spelling).is_none() {
                return Err(LexErr::Bad {
                    span: place.span(1),
                });
            }
        }
        TokenKind::Keyword(_) | TokenKind::Sign(_) => {}
    }
    let token = Token {
        kind,
        span,
        start: place.offset,
    };
    let behind = Rest {
        bytes,
        place: place.along(length),
    };
    Ok((token, behind))
}

/// The next token, and what stands behind it.
fn next(rest: Rest<'_>) -> Result<Option<(Token, Rest<'_>)>, LexErr>
    requires { HasRoom rest.place (length rest.bytes.now) }
    ensures next { IfOk result (λ found. MatchOption found (Ends rest.entry.bytes.now rest.entry.place)
        (λ n. IsNext rest.entry.bytes.now rest.entry.place n.0 n.1.bytes.now n.1.place)) }
    ensures fails { IfErr result (Fails rest.entry.bytes.now rest.entry.place) }
{
    match skip_gap(rest) {
        Err(at) => Err(LexErr::Bad { span: at.span(1) }),
        Ok(found) => {
            if found.bytes.is_empty() {
                return Ok(None);
            }
            Ok(Some(token(found)?))
        }
    }
}

fn read(alloc: Global, text: &[u8]) -> Result<Vec<Token>, LexErr>
    requires { length text.now ≤ most Size }
    ensures read { IfOk result (λ tokens. Reads text.now tokens.items []) }
    ensures fails { IfErr result (λ e. e ≢ LexErr.OutOfMemory → StopsIn text.now e) }
{
    let mut tokens = Vec::new(alloc);
    let mut rest = Rest {
        bytes: text,
        place: Place::start(),
    };
    while let Some((token, behind)) = next(rest)? {
        tokens.push(token)?;
        rest = behind;
    }
    Ok(tokens)
}

/// The place behind a text.
fn end_place(text: &[u8]) -> Place
    requires { length text.now ≤ most Size }
    ensures { result ≡ place_behind text.now }
{
    let mut place = Place::start();
    for byte in text {
        place = place.behind(*byte);
    }
    place
}

/// The place behind a text that is within its limit.
pub fn end_of(text: &[u8]) -> Span
    requires { length text.now ≤ most Size }
    ensures { result ≡ span_behind text.now 0 }
{
    end_place(text).span(0)
}

/// The refusal of a text that is too long, at its first byte that is too many.
fn too_long(text: &[u8]) -> LexErr
    requires { most Size < length text.now }
    ensures { Refuses text.now result }
{
    let size = What::Size.most();
    let limit = Limit {
        what: What::Size,
        found: size + 1,
    };
    LexErr::Limit {
        span: end_place(&text[..size as usize]).span(1),
        limit,
    }
}

/// The tokens of a text: names, numbers, keywords and signs, with blanks and comments between them.
pub fn lex(alloc: Global, text: &[u8]) -> Result<Vec<Token>, LexErr>
    // What is answered are the tokens of the text, or the refusal of the text.
    ensures tokens { IfOk result (λ tokens. AreTokensOf text.now tokens.items) }
    ensures refused { IfErr result (λ e. e ≢ LexErr.OutOfMemory → Refuses text.now e) }

    // The text's tokens and its refusal are answered, unless memory runs out.
    ensures tokens_given { (tokens : List Token) → AreTokensOf text.now tokens
        → MatchResult result (λ found. found.items ≡ tokens) (λ e. e ≡ LexErr.OutOfMemory) }
    ensures refusal_given { (error : LexErr) → Refuses text.now error
        → IsErrAnd result (λ e. (e ≡ error) ⊎ (e ≡ LexErr.OutOfMemory)) }

    // Each token stands in the text, and behind the token before it.
    ensures each { IfOk result (λ tokens. All (IsTokenIn text.now) tokens.items) }
    ensures in_order { IfOk result (λ tokens. AreInOrder 0 tokens.items) }
{
    if text.len() as u64 > What::Size.most() {
        return Err(too_long(text));
    }
    read(alloc, text)
}
