ghost use Rattle.std.specs.Prelude.{◌≡◌, ◌≤◌, ◌↔◌, List, ℕ, length, IfOk, IfSome, IfNone, IsTrue, true, [], ◌∷◌};
ghost use Rattle.std.specs.List.{list_all};
ghost use Rattle.hp_parser.specs.Lexemes.{Lexeme, lexemes, is_ahead, kind_ahead};
ghost use Rattle.hp_base.specs.Limits.{most};
ghost use Rattle.hp_base.specs.declared.limit.What.TheVariants.{Size};
ghost use Rattle.hp_base.specs.Bytes.{is_digit};
ghost use Rattle.hp_lexer.specs.Lexing.{AreTokensOf};
ghost use Rattle.hp_lexer.specs.Spelling.{IsWithin, Spells};
ghost use Rattle.hp_lexer.specs.declared.token.TokenKind.{TokenKind};
ghost use Rattle.hp_parser.specs.Outcomes.{Gives};
ghost use Rattle.hp_parser.specs.Reading.{reading, read_token};
ghost use Rattle.hp_parser.specs.Refusals.{place_of};
ghost use Rattle.hp_parser.specs.Seen.{word_seen};
ghost use Rattle.hp_parser.specs.Tokens.{keyword, sign_of, small, capital, number, constructor};

use crate::fault::{Fault, Stop};
use hp_base::Span;
use hp_lexer::{Keyword, Sign, Token, TokenKind, end_of};
use std::alloc::Global;
use std::marker::Model;

/// A token with what it spells.
#[derive(Clone, Copy, Debug)]
pub(crate) struct Word<'t> {
    pub kind: TokenKind,
    pub text: &'t [u8],
    pub span: Span,
}

/// The tokens ahead in a text. Contracts see them with what they spell.
#[derive(Drop)]
pub(crate) struct Reader<'t> {
    pub alloc: Global,
    text: &'t [u8],
    ahead: &'t [Token],
}

impl<'t> Model for Reader<'t> {
    ghost use Rattle.std.specs.Prelude.{List};
    ghost use Rattle.std.specs.List.{All};
    ghost use Rattle.hp_lexer.specs.Lexing.{IsTokenIn};
    ghost use Rattle.hp_parser.specs.Lexemes.{Lexeme, lexemes};

    ghost Value = { List Lexeme };

    ghost view = { λ r. lexemes r.text.now r.ahead.now };

    ghost invariant = { λ r. All (IsTokenIn r.text.now) r.ahead.now };
}

#[tactic(auto, using(crate::proofs::TokenSets::keyword_told))]
fn is_this_keyword(kind: TokenKind, word: Keyword) -> bool
    ensures { result ≡ keyword word kind }
{
    kind == TokenKind::Keyword(word)
}

#[tactic(auto, using(crate::proofs::TokenSets::sign_told))]
fn is_this_sign(kind: TokenKind, sign: Sign) -> bool
    ensures { result ≡ sign_of sign kind }
{
    kind == TokenKind::Sign(sign)
}

fn is_constructor_kind(kind: TokenKind) -> bool
    ensures { result ≡ constructor kind }
{
    matches!(
        kind,
        TokenKind::Capital | TokenKind::Keyword(Keyword::True | Keyword::False)
    )
}

pub(crate) const BAD: Stop = Stop::Fault(Fault::Bad);

impl<'t> Reader<'t> {
    /// Stands in front of all tokens of a text.
    pub fn new(alloc: Global, text: &'t [u8], tokens: &'t [Token]) -> Reader<'t>
        requires { AreTokensOf text.now tokens.now }
        ensures { result ≡ lexemes text.now tokens.now }
    {
        Reader {
            alloc,
            text,
            ahead: tokens,
        }
    }

    pub fn is_empty(&self) -> bool
        ensures { IsTrue result ↔ (self.now ≡ []) }
    {
        self.ahead.is_empty()
    }

    /// The place of the token ahead, or the one behind the text that is read.
    pub fn place(&self, text: &[u8]) -> Span
        requires { length text.now ≤ most Size }
        ensures { result ≡ place_of text.now self.now }
    {
        match self.ahead {
            [] => end_of(text),
            [token, ..] => token.span,
        }
    }

    /// The kind of the token ahead.
    pub fn kind(&self) -> Option<TokenKind>
        ensures { result ≡ kind_ahead self.now }
    {
        match self.ahead {
            [] => None,
            [token, ..] => Some(token.kind),
        }
    }

    /// Whether this keyword is ahead.
    pub fn is_keyword(&self, word: Keyword) -> bool
        ensures { result ≡ is_ahead (keyword word) self.now }
    {
        match self.ahead {
            [] => false,
            [token, ..] => is_this_keyword(token.kind, word),
        }
    }

    pub fn is_sign(&self, sign: Sign) -> bool
        ensures { result ≡ is_ahead (sign_of sign) self.now }
    {
        match self.ahead {
            [] => false,
            [token, ..] => is_this_sign(token.kind, sign),
        }
    }

    /// Whether a token that begins a small name, a capital name or a number is ahead.
    pub fn is_small(&self) -> bool
        ensures { result ≡ is_ahead small self.now }
    {
        match self.ahead {
            [] => false,
            [token, ..] => matches!(token.kind, TokenKind::Small),
        }
    }

    pub fn is_number(&self) -> bool
        ensures { result ≡ is_ahead number self.now }
    {
        match self.ahead {
            [] => false,
            [token, ..] => matches!(token.kind, TokenKind::Number),
        }
    }

    /// Whether `true`, `false` or a capital name is ahead.
    pub fn is_constructor(&self) -> bool
        ensures { result ≡ is_ahead constructor self.now }
    {
        match self.ahead {
            [] => false,
            [token, ..] => is_constructor_kind(token.kind),
        }
    }

    /// Takes the token ahead.
    pub fn take(&mut self) -> Option<Word<'t>>
        ensures none { IfNone result ((self.old ≡ []) × (self.new ≡ [])) }
        ensures some { IfSome result (λ w. self.old ≡ word_seen w ∷ self.new) }
        ensures limited { IfSome result (λ w. IsWithin w.kind w.text.now) }
        ensures spelled { IfSome result (λ w. Spells w.kind w.text.now) }
    {
        match self.ahead {
            [] => None,
            [token, rest @ ..] => {
                let word = Word {
                    kind: token.kind,
                    text: token.text(self.text),
                    span: token.span,
                };
                self.ahead = rest;
                Some(word)
            }
        }
    }

    /// Takes this keyword.
    pub fn keyword(&mut self, word: Keyword) -> Result<Word<'t>, Stop>
        ensures { Gives word_seen result self.new (read_token (keyword word) self.old) }
    {
        if !self.is_keyword(word) {
            return Err(BAD);
        }
        self.take().ok_or(BAD)
    }

    pub fn sign(&mut self, sign: Sign) -> Result<Word<'t>, Stop>
        ensures { Gives word_seen result self.new (read_token (sign_of sign) self.old) }
    {
        if !self.is_sign(sign) {
            return Err(BAD);
        }
        self.take().ok_or(BAD)
    }

    pub fn small(&mut self) -> Result<Word<'t>, Stop>
        ensures read { Gives word_seen result self.new (read_token small self.old) }
        ensures within { IfOk result (λ w. length w.text.now ≤ 255) }
    {
        match self.kind() {
            Some(TokenKind::Small) => self.take().ok_or(BAD),
            _ => Err(BAD),
        }
    }

    pub fn capital(&mut self) -> Result<Word<'t>, Stop>
        ensures read { Gives word_seen result self.new (read_token capital self.old) }
        ensures within { IfOk result (λ w. length w.text.now ≤ 255) }
    {
        match self.kind() {
            Some(TokenKind::Capital) => self.take().ok_or(BAD),
            _ => Err(BAD),
        }
    }

    #[tactic(auto, using(crate::proofs::Digits::numeral_digits))]
    pub fn number(&mut self) -> Result<Word<'t>, Stop>
        ensures read { Gives word_seen result self.new (read_token number self.old) }
        ensures within { IfOk result (λ w. IsWithin TokenKind.Number w.text.now) }
        ensures digits { IfOk result (λ w. list_all is_digit w.text.now ≡ true) }
    {
        match self.kind() {
            Some(TokenKind::Number) => self.take().ok_or(BAD),
            _ => Err(BAD),
        }
    }

    pub fn constructor(&mut self) -> Result<Word<'t>, Stop>
        ensures read { Gives word_seen result self.new (read_token constructor self.old) }
        ensures within { IfOk result (λ w. length w.text.now ≤ 255) }
    {
        match self.kind() {
            Some(TokenKind::Capital) => self.take().ok_or(BAD),
            Some(TokenKind::Keyword(Keyword::True)) => self.take().ok_or(BAD),
            Some(TokenKind::Keyword(Keyword::False)) => self.take().ok_or(BAD),
            _ => Err(BAD),
        }
    }
}
