//! The places of pieces in a text.
ghost use Rattle.std.specs.Prelude.{◌≡◌, ◌≤◌, ◌+◌, ◌++◌, length};
ghost use Rattle.hp_cert.specs.Certtext.Pieces.{Pieces, pieces, joined};
ghost use Rattle.hp_cert.specs.Certtext.Refusals.{place_behind, first_length};

use crate::certtext::piece::first_piece;
use hp_base::Span;
use hp_lines::{last_line, newlines};

/// How long the first piece of a text is, if there is one.
fn first_length(text: &[u8]) -> usize
    ensures length { result ≡ first_length (pieces text.now) }
    ensures within { result ≤ length text.now }
{
    match first_piece(text) {
        None => 0,
        Some((piece, _)) => piece.len(),
    }
}

/// The place of the piece that begins behind so many bytes, or the place behind the text.
pub(crate) fn place_at(text: &[u8], at: usize) -> Span
    requires short { length text.now ≤ 67108864 }
    requires within { at ≤ length text.now }
    ensures { (front rest : Pieces) → pieces text.now ≡ front ++ rest → at ≡ length (joined front) → result ≡ place_behind front rest }
{
    let (front, rest) = text.split_at(at);
    Span {
        line: 1 + newlines(front) as u32,
        col: 1 + last_line(front) as u32,
        end: (at + first_length(rest)) as u32,
    }
}
