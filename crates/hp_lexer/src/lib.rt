//! The tokens of a source text. Invariant: tokens stand in the order of the text, each the longest at its place, and tell their places. Used by `hp_parser`, `hp_compile`, `hp_print` and the laws.
#![tactic(auto)]

mod gap;
mod laws;
mod lexer;
mod numbers;
mod place;
mod sign;
mod token;
mod word;

pub use laws::{one_reading, tokens_or_refusal, written_tokens_are_read};
pub use lexer::{LexErr, end_of, lex};
pub use numbers::{MAX_NUMBER, number};
pub use token::{Keyword, Sign, Token, TokenKind};
