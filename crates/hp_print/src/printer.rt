//! A text that grows by tokens.
ghost use Rattle.std.specs.Prelude.{◌≡◌, ◌∷◌, ◌++◌, [], OnOk};
ghost use Rattle.hp_print.specs.Tokens;
ghost use Rattle.hp_print.specs.Tokens.{behind_word, behind_sign, written_after};

use hp_base::Name;
use hp_lexer::{Keyword, Sign};
use itoa::Buffer;
use std::alloc::{AllocError, Global};
use std::marker::Model;

/// The text so far. Contracts see it as its bytes. Behind an error a part of what was to be written may stand in it.
#[derive(Drop)]
pub(crate) struct Printer {
    text: Vec<u8>,
}

impl Model for Printer {
    ghost use Rattle.std.specs.Prelude.{List, ℕ};

    ghost Value = { List ℕ };

    ghost view = { λ p. p.text.items };
}

fn behind_word(keyword: Keyword) -> u8
    ensures { result ≡ behind_word keyword }
{
    match keyword {
        Keyword::Tel => b'\n',
        _ => b' ',
    }
}

fn behind_sign(sign: Sign) -> u8
    ensures { result ≡ behind_sign sign }
{
    match sign {
        Sign::Semicolon => b'\n',
        _ => b' ',
    }
}

impl Printer {
    pub fn new(alloc: Global) -> Printer
        ensures { result ≡ [] }
    {
        Printer {
            text: Vec::new(alloc),
        }
    }

    pub fn into_text(self) -> Vec<u8>
        ensures { result.items ≡ self }
    {
        let Printer { text } = self;
        text
    }

    fn token(&mut self, bytes: &[u8], behind: u8) -> Result<(), AllocError>
        ensures { OnOk result (self.new ≡ self.old ++ (bytes.now ++ (behind ∷ []))) }
    {
        self.text.extend_from_slice(bytes)?;
        self.text.push(behind)?;
        Ok(())
    }

    #[tactic(auto, using(crate::proofs::Rules::tokens))]
    pub fn word(&mut self, keyword: Keyword) -> Result<(), AllocError>
        ensures { OnOk result (self.new ≡ written_after self.old (Tokens.word keyword ∷ [])) }
    {
        self.token(keyword.text().as_bytes(), behind_word(keyword))
    }

    #[tactic(auto, using(crate::proofs::Rules::tokens))]
    pub fn sign(&mut self, sign: Sign) -> Result<(), AllocError>
        ensures { OnOk result (self.new ≡ written_after self.old (Tokens.sign sign ∷ [])) }
    {
        self.token(sign.text().as_bytes(), behind_sign(sign))
    }

    #[tactic(auto, using(crate::proofs::Rules::tokens))]
    pub fn small(&mut self, name: &Name) -> Result<(), AllocError>
        ensures { OnOk result (self.new ≡ written_after self.old (Tokens.small name.now ∷ [])) }
    {
        self.token(name.bytes(), b' ')
    }

    #[tactic(auto, using(crate::proofs::Rules::tokens))]
    pub fn capital(&mut self, name: &Name) -> Result<(), AllocError>
        ensures { OnOk result (self.new ≡ written_after self.old (Tokens.capital name.now ∷ [])) }
    {
        self.token(name.bytes(), b' ')
    }

    #[tactic(auto, using(crate::proofs::Rules::tokens))]
    pub fn number(&mut self, value: u32) -> Result<(), AllocError>
        ensures { OnOk result (self.new ≡ written_after self.old (Tokens.number value ∷ [])) }
    {
        let mut buffer = Buffer::new();
        self.token(buffer.format(value).as_bytes(), b' ')
    }
}
