//! A text that grows word by word.
ghost use Rattle.std.specs.Prelude.{◌≡◌, ◌++◌, ◌∷◌, [], List, ℕ, IfOk, OnOk};
ghost use Rattle.hp_obctext.specs.Words.{Word, leading, fixed, small, capital, number, with_word};

use hp_base::Name;
use itoa::Buffer;
use std::alloc::{AllocError, Global};
use std::marker::Model;

/// A text of machines that is being written. Contracts see its bytes.
#[derive(Drop)]
pub(crate) struct Page {
    text: Vec<u8>,
}

impl Model for Page {
    ghost use Rattle.std.specs.Prelude.{List, ℕ};

    ghost Value = { List ℕ };

    ghost view = { λ p. p.text.items };
}

/// Appends a byte and some bytes.
fn append(text: &mut Vec<u8>, gap: u8, word: &[u8]) -> Result<(), AllocError>
    ensures { OnOk result (text.new.items ≡ text.old.items ++ gap ∷ word.now) }
{
    text.push(gap)?;
    text.extend_from_slice(word)?;
    Ok(())
}

impl Page {
    /// A page that begins with some bytes.
    pub fn begun(alloc: Global, bytes: &[u8]) -> Result<Page, AllocError>
        ensures { IfOk result (λ page. page ≡ bytes.now) }
    {
        Ok(Page {
            text: Vec::from_slice(alloc, bytes)?,
        })
    }

    /// The text, with a newline at its end.
    pub fn ended(self) -> Result<Vec<u8>, AllocError>
        ensures { IfOk result (λ text. text.items ≡ self ++ 10 ∷ []) }
    {
        let Page { text } = self;
        let mut text = text;
        text.push(b'\n')?;
        Ok(text)
    }

    /// A word that begins a line.
    #[tactic(auto, unfolding(crate::specs::Words::with_word))]
    pub fn leading(&mut self, word: &[u8]) -> Result<(), AllocError>
        ensures { OnOk result (self.new ≡ with_word self.old (leading word.now)) }
    {
        append(&mut self.text, b'\n', word)
    }

    /// Another word that the grammar fixes.
    #[tactic(auto, unfolding(crate::specs::Words::with_word))]
    pub fn fixed(&mut self, word: &[u8]) -> Result<(), AllocError>
        ensures { OnOk result (self.new ≡ with_word self.old (fixed word.now)) }
    {
        append(&mut self.text, b' ', word)
    }

    #[tactic(auto, unfolding(crate::specs::Words::with_word))]
    pub fn small(&mut self, name: &Name) -> Result<(), AllocError>
        ensures { OnOk result (self.new ≡ with_word self.old (small name.now)) }
    {
        append(&mut self.text, b' ', name.bytes())
    }

    #[tactic(auto, unfolding(crate::specs::Words::with_word))]
    pub fn capital(&mut self, name: &Name) -> Result<(), AllocError>
        ensures { OnOk result (self.new ≡ with_word self.old (capital name.now)) }
    {
        append(&mut self.text, b' ', name.bytes())
    }

    #[tactic(auto, unfolding(crate::specs::Words::with_word))]
    pub fn number(&mut self, n: i32) -> Result<(), AllocError>
        ensures { OnOk result (self.new ≡ with_word self.old (number n)) }
    {
        let mut buffer = Buffer::new();
        append(&mut self.text, b' ', buffer.format(n).as_bytes())
    }
}
