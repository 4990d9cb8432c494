ghost use Rattle.std.specs.Prelude.{◌≡◌, ◌<◌, ◌≤◌, ℕ, length, IfOk};
ghost use Rattle.hp_lexer.specs.declared.token.Keyword.TheVariants.{Merge, Inlined, When, Whenot};
ghost use Rattle.hp_lexer.specs.declared.token.Sign.TheVariants.{Open};
ghost use Rattle.hp_parser.specs.declared.mode.Mode.TheVariants.{Whole};
ghost use Rattle.hp_parser.specs.Descent.{measured_seen, sample_seen, number_read, constructor_read, last_read, sample_read, of_constructor_read, operators};
ghost use Rattle.hp_parser.specs.Grammar.{of_sample};
ghost use Rattle.hp_parser.specs.Lexemes.{is_ahead};
ghost use Rattle.hp_parser.specs.Outcomes.{Gives};
ghost use Rattle.hp_parser.specs.Reading.{read_token, read_convert};
ghost use Rattle.hp_parser.specs.Seen.{word_seen};
ghost use Rattle.hp_parser.specs.Tokens.{only_whole, small, keyword, sign_of, prefix, begins_expression, begins_sample, begins_atom, is_arrow};

use crate::fault::{Fault, Stop};
use crate::level::Level;
use crate::measured::{Measured, Sample, cons};
use crate::mode::Mode;
use crate::reader::{BAD, Reader, Word};
use hp_base::{Name, What};
use hp_lexer::{Keyword, Sign};
use hp_tree::Cons;

/// There are too many levels.
pub(crate) const TOO_DEEP: Stop = Stop::Fault(Fault::Limit(What::Depth));

impl<'t> Reader<'t> {
    /// Whether an operator of the level is ahead.
    pub fn is_operator(&self, mode: Mode, level: Level) -> bool
        ensures { result ≡ is_ahead (operators mode level) self.now }
    {
        match self.kind() {
            None => false,
            Some(kind) => level.has(mode, kind),
        }
    }

    /// Takes an operator of the level, of whole expressions.
    pub fn operator(&mut self, level: Level) -> Result<Word<'t>, Stop>
        ensures { Gives word_seen result self.new (read_token (operators Whole level) self.old) }
    {
        if !self.is_operator(Mode::Whole, level) {
            return Err(BAD);
        }
        self.take().ok_or(BAD)
    }

    /// Whether `not`, `-` or `pre` is ahead.
    pub fn is_prefix(&self, mode: Mode) -> bool
        ensures { result ≡ is_ahead (prefix mode) self.now }
    {
        self.is_keyword(Keyword::Not)
            || self.is_sign(Sign::Minus)
            || (mode == Mode::Whole && self.is_keyword(Keyword::Pre))
    }

    pub fn prefix(&mut self, mode: Mode) -> Result<Word<'t>, Stop>
        ensures { Gives word_seen result self.new (read_token (prefix mode) self.old) }
    {
        if !self.is_prefix(mode) {
            return Err(BAD);
        }
        self.take().ok_or(BAD)
    }

    /// Whether `when` or `whenot` is ahead.
    pub fn is_sample(&self, mode: Mode) -> bool
        ensures { result ≡ is_ahead (begins_sample mode) self.now }
    {
        match mode {
            Mode::Whole => self.is_keyword(Keyword::When) || self.is_keyword(Keyword::Whenot),
            Mode::Plain => false,
        }
    }

    pub fn is_arrow(&self, mode: Mode) -> bool
        ensures { result ≡ is_ahead (is_arrow mode) self.now }
    {
        match mode {
            Mode::Whole => self.is_sign(Sign::Arrow),
            Mode::Plain => false,
        }
    }

    /// Whether the arguments of a call are ahead.
    pub fn is_call(&self, mode: Mode) -> bool
        ensures { result ≡ is_ahead (only_whole mode (sign_of Open)) self.now }
    {
        match mode {
            Mode::Whole => self.is_sign(Sign::Open),
            Mode::Plain => false,
        }
    }

    pub fn is_merge(&self, mode: Mode) -> bool
        ensures { result ≡ is_ahead (only_whole mode (keyword Merge)) self.now }
    {
        match mode {
            Mode::Whole => self.is_keyword(Keyword::Merge),
            Mode::Plain => false,
        }
    }

    pub fn is_inlined(&self, mode: Mode) -> bool
        ensures { result ≡ is_ahead (only_whole mode (keyword Inlined)) self.now }
    {
        match mode {
            Mode::Whole => self.is_keyword(Keyword::Inlined),
            Mode::Plain => false,
        }
    }

    /// Whether a token that begins an operand is ahead.
    fn is_atom(&self, mode: Mode) -> bool
        ensures { result ≡ is_ahead (begins_atom mode) self.now }
    {
        self.is_small()
            || self.is_constructor()
            || self.is_number()
            || self.is_sign(Sign::Open)
            || self.is_keyword(Keyword::Last)
            || self.is_merge(mode)
            || self.is_inlined(mode)
    }

    /// Whether a token that begins an expression is ahead.
    pub fn is_expression(&self, mode: Mode) -> bool
        ensures { result ≡ is_ahead (begins_expression mode) self.now }
    {
        self.is_keyword(Keyword::If) || self.is_prefix(mode) || self.is_atom(mode)
    }

    /// A decimal number.
    #[tactic(auto, unfolding(crate::specs::Descent::number_read))]
    pub fn number_value(&mut self) -> Result<Measured, Stop>
        ensures read { Gives measured_seen result self.new (number_read self.old) }
        ensures lowest { IfOk result (λ m. m.height ≡ 0) }
    {
        let word = self.number()?;
        Ok(Measured::number(self.alloc, word)?)
    }

    /// `true`, `false` or a capital name.
    #[tactic(auto, unfolding(crate::specs::Descent::constructor_read))]
    pub fn constructor_value(&mut self) -> Result<Measured, Stop>
        ensures read { Gives measured_seen result self.new (constructor_read self.old) }
        ensures lowest { IfOk result (λ m. m.height ≡ 0) }
    {
        let word = self.constructor()?;
        Ok(Measured::constructor(self.alloc, word)?)
    }

    /// `last x`
    #[tactic(auto, unfolding(crate::specs::Descent::last_read))]
    pub fn last_value(&mut self) -> Result<Measured, Stop>
        ensures read { Gives measured_seen result self.new (last_read self.old) }
        ensures lowest { IfOk result (λ m. m.height ≡ 0) }
    {
        let first = self.keyword(Keyword::Last)?;
        let word = self.small()?;
        Ok(Measured::last(self.alloc, first.span, word)?)
    }

    /// `c(x)`
    #[tactic(auto, unfolding(crate::specs::Descent::of_constructor_read))]
    fn constructor_sample(&mut self) -> Result<Sample, Stop>
        ensures { Gives sample_seen result self.new (of_constructor_read self.old) }
    {
        let word = self.constructor()?;
        self.sign(Sign::Open)?;
        let name = self.small()?;
        let close = self.sign(Sign::Close)?;
        Ok(Sample {
            cons: cons(self.alloc, word)?,
            name: Name::new(self.alloc, name.text)?,
            end: close.span.end,
        })
    }

    /// `x`, with what it is compared with.
    fn value_sample(&mut self, cons: Cons) -> Result<Sample, Stop>
        ensures { Gives sample_seen result self.new (read_convert (λ t. record { cons = cons; name = t.bytes; end = t.span.end }) (read_token small) self.old) }
    {
        let word = self.small()?;
        let name = Name::new(self.alloc, word.text)?;
        Ok(Sample {
            cons,
            name,
            end: word.span.end,
        })
    }

    /// `when c(x)`, `when x` or `whenot x`.
    #[tactic(auto, unfolding(crate::specs::Descent::sample_read, crate::specs::Descent::of_constructor_read))]
    fn sample(&mut self) -> Result<Sample, Stop>
        ensures { Gives sample_seen result self.new (sample_read self.old) }
    {
        if !self.is_keyword(Keyword::When) {
            self.keyword(Keyword::Whenot)?;
            return self.value_sample(Cons::False);
        }
        self.keyword(Keyword::When)?;
        if self.is_constructor() {
            return self.constructor_sample();
        }
        self.value_sample(Cons::True)
    }

    /// A sample of the operand `left`.
    pub fn when(&mut self, left: Measured) -> Result<Measured, Stop>
        requires { left.height < usize.MAX }
        ensures { Gives measured_seen result self.new (read_convert (of_sample (measured_seen left)) sample_read self.old) }
    {
        let sample = self.sample()?;
        Ok(left.with_sample(self.alloc, sample)?)
    }
}
