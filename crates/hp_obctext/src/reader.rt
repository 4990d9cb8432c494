//! The words ahead in a text.
ghost use Rattle.std.specs.Prelude.{◌≡◌, ◌∷◌, [], List, ℕ, not, length, ◌<◌, IfNone, IfSome, IfOk, OnOk};
ghost use Rattle.hp_obctext.specs.Lexing.{words};
ghost use Rattle.hp_obctext.specs.Outcomes.{Gives};
ghost use Rattle.hp_obctext.specs.Reading.{is_ahead, is_this, is_op, begins_step, fixed, one};
ghost use Rattle.hp_obctext.specs.Spelling.{name_of, constructor_of, ty_of, label_of, const_of, arg_of, op_of};

use crate::lexing::first_word;
use crate::place::count_words;
use crate::spelling::{arg_of, const_of, constructor_of, label_of, name_of, op_of, ty_of};
use hp_base::{Const, Name, Ty};
use hp_lines::Stop;
use hp_obc::{Arg, ObcOp};
use std::alloc::Global;
use std::marker::Model;

/// The words ahead in a text. Contracts see them as their bytes.
#[derive(Drop)]
pub(crate) struct Reader<'t> {
    pub alloc: Global,
    word: Option<&'t [u8]>,
    behind: &'t [u8],
}

impl<'t> Model for Reader<'t> {
    ghost use Rattle.std.specs.Prelude.{List, ℕ};
    ghost use Rattle.hp_obctext.specs.Ahead.{reader_seen};

    ghost Value = { List (List ℕ) };

    ghost view = { reader_seen };
}

fn begins_step(word: &[u8]) -> bool
    ensures { result ≡ begins_step word.now }
{
    word == b"set".as_slice()
        || word == b"call".as_slice()
        || word == b"reset".as_slice()
        || word == b"case".as_slice()
}

impl<'t> Reader<'t> {
    /// Stands in front of all words of a text.
    pub fn new(alloc: Global, text: &'t [u8]) -> Reader<'t>
        ensures { result ≡ words text.now }
    {
        match first_word(text) {
            None => Reader {
                alloc,
                word: None,
                behind: &text[text.len()..],
            },
            Some((word, behind)) => Reader {
                alloc,
                word: Some(word),
                behind,
            },
        }
    }

    /// Whether this word is ahead.
    pub fn is(&self, word: &[u8]) -> bool
        ensures { result ≡ is_ahead (is_this word.now) self.now }
    {
        match self.word {
            None => false,
            Some(ahead) => ahead == word,
        }
    }

    /// The word ahead.
    pub fn word(&self) -> Option<&'t [u8]>
        ensures none { IfNone result (self.now ≡ []) }
        ensures some { IfSome result (λ w. (ws : List (List ℕ)) × (self.now ≡ w.now ∷ ws)) }
    {
        self.word
    }

    /// Takes the word ahead.
    pub fn take(&mut self) -> Option<&'t [u8]>
        ensures none { IfNone result ((self.old ≡ []) × (self.new ≡ [])) }
        ensures some { IfSome result (λ w. self.old ≡ w.now ∷ self.new) }
    {
        let taken = self.word?;
        match first_word(self.behind) {
            None => self.word = None,
            Some((word, behind)) => {
                self.word = Some(word);
                self.behind = behind;
            }
        }
        Some(taken)
    }

    /// Whether a word is ahead that is not this one.
    pub fn is_other(&self, word: &[u8]) -> bool
        ensures { result ≡ is_ahead (λ w. not (is_this word.now w)) self.now }
    {
        match self.word {
            None => false,
            Some(ahead) => ahead != word,
        }
    }

    /// Whether a word is ahead that begins a step.
    pub fn is_step(&self) -> bool
        ensures { result ≡ is_ahead begins_step self.now }
    {
        match self.word {
            None => false,
            Some(word) => begins_step(word),
        }
    }

    pub fn is_op(&self) -> bool
        ensures { result ≡ is_ahead is_op self.now }
    {
        match self.word {
            None => false,
            Some(word) => op_of(word).is_some(),
        }
    }

    /// Takes this word.
    pub fn fixed(&mut self, word: &[u8]) -> Result<(), Stop>
        ensures read { Gives (λ u. u) result self.new (fixed word.now self.old) }
        ensures shorter { OnOk result (length self.new < length self.old) }
    {
        if !self.is(word) {
            return Err(Stop::Refused);
        }
        self.take().ok_or(Stop::Refused)?;
        Ok(())
    }

    /// Takes the word ahead, which stands for this, if it stands for anything.
    fn take_as<T: Drop>(&mut self, found: Option<T>) -> Result<T, Stop>
        ensures read { Gives (λ x. x) result self.new (one (λ w. found) self.old) }
        ensures shorter { IfOk result (λ x. length self.new < length self.old) }
    {
        let Some(value) = found else {
            return Err(Stop::Refused);
        };
        self.take().ok_or(Stop::Refused)?;
        Ok(value)
    }

    pub fn name(&mut self) -> Result<Name, Stop>
        ensures read { Gives (λ x. x) result self.new (one name_of self.old) }
        ensures shorter { IfOk result (λ x. length self.new < length self.old) }
    {
        let Some(word) = self.word() else {
            return Err(Stop::Refused);
        };
        let found = name_of(self.alloc, word)?;
        self.take_as(found)
    }

    pub fn constructor(&mut self) -> Result<Name, Stop>
        ensures read { Gives (λ x. x) result self.new (one constructor_of self.old) }
        ensures shorter { IfOk result (λ x. length self.new < length self.old) }
    {
        let Some(word) = self.word() else {
            return Err(Stop::Refused);
        };
        let found = constructor_of(self.alloc, word)?;
        self.take_as(found)
    }

    pub fn ty(&mut self) -> Result<Ty, Stop>
        ensures read { Gives (λ x. x) result self.new (one ty_of self.old) }
        ensures shorter { IfOk result (λ x. length self.new < length self.old) }
    {
        let Some(word) = self.word() else {
            return Err(Stop::Refused);
        };
        let found = ty_of(self.alloc, word)?;
        self.take_as(found)
    }

    /// The value of an arm.
    pub fn label(&mut self) -> Result<Const, Stop>
        ensures read { Gives (λ x. x) result self.new (one label_of self.old) }
        ensures shorter { IfOk result (λ x. length self.new < length self.old) }
    {
        let Some(word) = self.word() else {
            return Err(Stop::Refused);
        };
        let found = label_of(self.alloc, word)?;
        self.take_as(found)
    }

    pub fn constant(&mut self) -> Result<Const, Stop>
        ensures read { Gives (λ x. x) result self.new (one const_of self.old) }
        ensures shorter { IfOk result (λ x. length self.new < length self.old) }
    {
        let Some(word) = self.word() else {
            return Err(Stop::Refused);
        };
        let found = const_of(self.alloc, word)?;
        self.take_as(found)
    }

    pub fn arg(&mut self) -> Result<Arg, Stop>
        ensures read { Gives (λ x. x) result self.new (one arg_of self.old) }
        ensures shorter { IfOk result (λ x. length self.new < length self.old) }
    {
        let Some(word) = self.word() else {
            return Err(Stop::Refused);
        };
        let found = arg_of(self.alloc, word)?;
        self.take_as(found)
    }

    pub fn op(&mut self) -> Result<ObcOp, Stop>
        ensures read { Gives (λ x. x) result self.new (one op_of self.old) }
        ensures shorter { IfOk result (λ x. length self.new < length self.old) }
    {
        let Some(word) = self.word() else {
            return Err(Stop::Refused);
        };
        let found = op_of(word);
        self.take_as(found)
    }

    /// How many words are ahead.
    pub fn count(&self) -> usize
        ensures { result ≡ length self.now }
    {
        match self.word {
            None => 0,
            Some(_) => 1 + count_words(self.behind),
        }
    }
}
