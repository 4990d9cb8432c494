//! The pieces ahead in a text.
ghost use Rattle.std.specs.Prelude.{◌≡◌, ◌<◌, ◌≤◌, ◌==◌, length, IfOk};
ghost use Rattle.std.specs.Fmt.{decimal};
ghost use Rattle.hp_cert.specs.Certtext.Outcomes.{Gives};
ghost use Rattle.hp_cert.specs.Certtext.Pieces.{pieces, joined};
ghost use Rattle.hp_cert.specs.Certtext.Reading.{fixed, either, number, name};
ghost use Rattle.hp_cert.specs.Certtext.Ahead.{stop_in};

use crate::certtext::piece::first_piece;
use crate::certtext::spelling::number_of;
use hp_lines::Stop;
use hp_obc::spelling::{is_reserved_word, spells_name};
use itoa::Buffer;
use std::alloc::Global;
use std::marker::Model;

/// The pieces ahead in a text.
#[derive(Drop)]
pub(crate) struct Reader<'t> {
    pub alloc: Global,
    rest: &'t [u8],
}

impl<'t> Model for Reader<'t> {
    ghost use Rattle.hp_cert.specs.Certtext.Pieces.{Pieces};
    ghost use Rattle.hp_cert.specs.Certtext.Ahead.{reader_seen};

    ghost Value = { Pieces };

    ghost view = { reader_seen };
}

impl<'t> Reader<'t> {
    /// Stands in front of a text.
    pub fn new(alloc: Global, text: &'t [u8]) -> Reader<'t>
        ensures { result ≡ pieces text.now }
    {
        Reader { alloc, rest: text }
    }

    /// How many bytes are ahead.
    pub fn bytes(&self) -> usize
        ensures { result ≡ length (joined self.now) }
    {
        self.rest.len()
    }

    /// Takes this word, space or newline.
    pub fn fixed(&mut self, word: &[u8]) -> Result<(), Stop>
        ensures { Gives (λ u. u) result self.new (fixed word.now self.old) }
    {
        let Some((piece, behind)) = first_piece(self.rest) else {
            return Err(Stop::Refused);
        };
        if piece == word {
            self.rest = behind;
            return Ok(());
        }
        self.rest = stop_at(word.starts_with(piece), self.rest, behind);
        Err(Stop::Refused)
    }

    /// Takes one of two words, and says whether it is the first.
    pub fn either(&mut self, word: &[u8], other: &[u8]) -> Result<bool, Stop>
        ensures read { Gives (λ b. b) result self.new (either word.now other.now self.old) }
        ensures shorter { IfOk result (λ b. length self.new < length self.old) }
    {
        let Some((piece, behind)) = first_piece(self.rest) else {
            return Err(Stop::Refused);
        };
        if piece == word {
            self.rest = behind;
            return Ok(true);
        }
        if piece == other {
            self.rest = behind;
            return Ok(false);
        }
        let on = word.starts_with(piece) || other.starts_with(piece);
        self.rest = stop_at(on, self.rest, behind);
        Err(Stop::Refused)
    }

    /// Takes a number from one up to, not including, another.
    pub fn number(&mut self, from: usize, end: usize) -> Result<usize, Stop>
        ensures read { Gives (λ n. n) result self.new (number from end self.old) }
        ensures below { IfOk result (λ n. n < end) }
    {
        let Some((piece, behind)) = first_piece(self.rest) else {
            return Err(Stop::Refused);
        };
        let Some(number) = number_of(from, end, piece) else {
            return Err(Stop::Refused);
        };
        self.rest = behind;
        Ok(number)
    }

    /// Takes this number.
    pub fn decimal(&mut self, number: usize) -> Result<(), Stop>
        ensures { Gives (λ u. u) result self.new (fixed (decimal number) self.old) }
    {
        let mut buffer = Buffer::new();
        self.fixed(buffer.format(number).as_bytes())
    }

    /// Takes a name.
    pub fn name(&mut self) -> Result<&'t [u8], Stop>
        ensures read { Gives (λ w. w.now) result self.new (name self.old) }
        ensures short { IfOk result (λ w. length w.now ≤ 270) }
    {
        let Some((piece, behind)) = first_piece(self.rest) else {
            return Err(Stop::Refused);
        };
        if spells_name(piece) {
            self.rest = behind;
            return Ok(piece);
        }
        self.rest = stop_at(is_reserved_word(piece), self.rest, behind);
        Err(Stop::Refused)
    }

    /// Whether nothing is ahead.
    pub fn is_empty(&self) -> bool
        ensures { result ≡ (length self.now == 0) }
    {
        self.rest.is_empty()
    }
}

/// Where a text is refused whose first piece is refused: behind its end, where this is its last piece and can go on.
fn stop_at<'t>(goes_on: bool, text: &'t [u8], behind: &'t [u8]) -> &'t [u8]
    ensures { result.now ≡ stop_in goes_on text.now behind.now }
{
    if goes_on && behind.is_empty() {
        behind
    } else {
        text
    }
}
