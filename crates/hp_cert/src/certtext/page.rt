//! A text of a certificate that grows.
ghost use Rattle.std.specs.Prelude.{◌≡◌, ◌++◌, ◌∷◌, [], OnOk, IfOk};
ghost use Rattle.std.specs.Fmt.{decimal};
ghost use Rattle.hp_cert.specs.Certtext.Texts.{newline, space};
ghost use Rattle.hp_cert.specs.Certtext.Written.{written};

use itoa::Buffer;
use std::alloc::{AllocError, Global};
use std::marker::Model;

/// A text that is being written. Contracts see its bytes.
#[derive(Drop)]
pub(crate) struct Page {
    text: Vec<u8>,
}

impl Model for Page {
    ghost use Rattle.std.specs.Prelude.{List, ℕ};

    ghost Value = { List ℕ };

    ghost view = { λ p. p.text.items };
}

impl Page {
    pub fn new(alloc: Global) -> Page
        ensures { result ≡ [] }
    {
        Page {
            text: Vec::new(alloc),
        }
    }

    /// All that was written.
    pub fn text(self) -> Vec<u8>
        ensures { result.items ≡ self }
    {
        let Page { text } = self;
        text
    }

    /// Writes a piece.
    #[tactic(auto, unfolding(crate::specs::Certtext::Written::written), using(crate::proofs::CerttextLemmas::WrittenLaws::writing))]
    pub fn piece(&mut self, piece: &[u8]) -> Result<(), AllocError>
        ensures { OnOk result (self.new ≡ written self.old (piece.now ∷ [])) }
    {
        self.text.extend_from_slice(piece)?;
        Ok(())
    }

    /// Writes a space and a number.
    #[tactic(auto, using(crate::proofs::CerttextLemmas::WrittenLaws::writing))]
    pub fn number(&mut self, number: usize) -> Result<(), AllocError>
        ensures { OnOk result (self.new ≡ written self.old (space ∷ decimal number ∷ [])) }
    {
        let mut buffer = Buffer::new();
        self.piece(b" ")?;
        self.piece(buffer.format(number).as_bytes())?;
        Ok(())
    }

    /// Writes a line of two words.
    #[tactic(auto, using(crate::proofs::CerttextLemmas::WrittenLaws::writing))]
    pub fn words(&mut self, first: &[u8], second: &[u8]) -> Result<(), AllocError>
        ensures { OnOk result (self.new ≡ written self.old (first.now ∷ space ∷ second.now ∷ newline ∷ [])) }
    {
        self.piece(first)?;
        self.piece(b" ")?;
        self.piece(second)?;
        self.piece(b"\n")?;
        Ok(())
    }
}
