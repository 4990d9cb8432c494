ghost use Rattle.std.specs.Prelude.{◌≡◌, ◌<◌, ◌≤◌, ℕ, ◌-◌, List, map, length, IfOk, Some, None};
ghost use Rattle.hp_base.specs.declared.span.Span.{Span};
ghost use Rattle.hp_parser.specs.Descent.{measured_seen, part_seen, at_depth, atom_read, named_read, inlined_read, parentheses_read, call_read, arguments_read, parts_read, part_read, merged_read, sampled_read, arrowed_read, level_read, operand_read, joined_read};
ghost use Rattle.hp_parser.specs.Grammar.{deepest, Part};
ghost use Rattle.hp_parser.specs.Lexemes.{Lexeme};
ghost use Rattle.hp_parser.specs.Outcomes.{Gives};
ghost use Rattle.hp_parser.specs.Seen.{word_seen};

use crate::atom::TOO_DEEP;
use crate::fault::Stop;
use crate::level::Level;
use crate::measured::{Measured, Part, cons};
use crate::mode::Mode;
use crate::reader::{Reader, Word};
use hp_base::Span;
use hp_lexer::{Keyword, Sign};

impl<'t> Reader<'t> {
    /// An expression of at most `depth` levels: `if a then b else c`, or one without.
    #[cycle(expression)]
    #[tactic(auto, using(crate::proofs::DescentLaws::expression_rules))]
    pub fn expression(&mut self, mode: Mode, depth: usize) -> Result<Measured, Stop>
        requires { 1 ≤ depth }
        ensures read { Gives measured_seen result self.new ((at_depth mode depth).expression self.old) }
        ensures within { IfOk result (λ m. m.height < depth) }
    {
        if !self.is_keyword(Keyword::If) {
            return self.parse_arrow(mode, depth);
        }
        if depth < 2 {
            return Err(TOO_DEEP);
        }
        let word = self.keyword(Keyword::If)?;
        let condition = self.expression(mode, depth - 1)?;
        self.keyword(Keyword::Then)?;
        let positive = self.expression(mode, depth - 1)?;
        self.keyword(Keyword::Else)?;
        let negative = self.expression(mode, depth - 1)?;
        Ok(Measured::conditional(self.alloc, word, condition, positive, negative)?)
    }

    /// `a -> b`, or `a`.
    #[cycle(expression)]
    #[tactic(auto, using(crate::proofs::DescentLaws::arrowed_rules))]
    fn parse_arrow(&mut self, mode: Mode, depth: usize) -> Result<Measured, Stop>
        requires { 1 ≤ depth }
        ensures read { Gives measured_seen result self.new (arrowed_read mode depth self.old) }
        ensures within { IfOk result (λ m. m.height < depth) }
    {
        let left = self.parse_samples(mode, depth)?;
        if !self.is_arrow(mode) {
            return Ok(left);
        }
        if depth - left.height < 2 {
            return Err(TOO_DEEP);
        }
        let word = self.sign(Sign::Arrow)?;
        let right = self.expression(mode, depth - 1)?;
        Ok(left.arrow(self.alloc, word, right)?)
    }

    /// `a when c(x) whenot y ..`
    #[cycle(expression)]
    #[tactic(auto, using(crate::proofs::DescentLaws::sampled_rules))]
    fn parse_samples(&mut self, mode: Mode, depth: usize) -> Result<Measured, Stop>
        requires { 1 ≤ depth }
        ensures read { Gives measured_seen result self.new (sampled_read mode depth self.old) }
        ensures within { IfOk result (λ m. m.height < depth) }
    {
        let mut left = self.level(mode, depth, Level::Delay)?;
        while self.is_sample(mode) {
            if depth - left.height < 2 {
                return Err(TOO_DEEP);
            }
            left = self.when(left)?;
        }
        Ok(left)
    }

    /// Operands with operators of one level between them.
    #[cycle(expression)]
    #[tactic(auto, using(crate::proofs::DescentLaws::level_rules))]
    fn level(&mut self, mode: Mode, depth: usize, level: Level) -> Result<Measured, Stop>
        requires { 1 ≤ depth }
        ensures read { Gives measured_seen result self.new (level_read mode depth level self.old) }
        ensures within { IfOk result (λ m. m.height < depth) }
    {
        let mut left = self.operand(mode, depth, level.below())?;
        while self.is_operator(mode, level) {
            if depth - left.height < 2 {
                return Err(TOO_DEEP);
            }
            left = self.parse_operation(mode, depth, level, left)?;
            if !level.is_repeated() {
                return Ok(left);
            }
        }
        Ok(left)
    }

    /// An operand; no level is below all of them.
    #[cycle(expression)]
    #[tactic(auto, using(crate::proofs::DescentLaws::operand_rank_none, crate::proofs::DescentLaws::operand_rank_some))]
    fn operand(&mut self, mode: Mode, depth: usize, level: Option<Level>) -> Result<Measured, Stop>
        requires { 1 ≤ depth }
        ensures read { Gives measured_seen result self.new (operand_read mode depth level self.old) }
        ensures within { IfOk result (λ m. m.height < depth) }
    {
        match level {
            None => self.unary(mode, depth),
            Some(level) => self.level(mode, depth, level),
        }
    }

    /// An operator with its operand, behind the operand `left`.
    #[cycle(expression)]
    #[tactic(auto, using(crate::proofs::DescentLaws::operand_rank_most), unfolding(crate::specs::Descent::joined_read))]
    fn parse_operation(
        &mut self,
        mode: Mode,
        depth: usize,
        level: Level,
        left: Measured,
    ) -> Result<Measured, Stop>
        requires deep { 2 ≤ depth }
        requires left { left.height < depth - 1 }
        ensures read { Gives measured_seen result self.new (joined_read mode depth level (measured_seen left) self.old) }
        ensures within { IfOk result (λ m. m.height < depth) }
    {
        let word = self.operator(level)?;
        let right = self.operand(mode, depth - 1, level.behind())?;
        Ok(left.with_operand(self.alloc, level, word, right)?)
    }

    /// `not a`, `- a`, `pre a`, or an operand without.
    #[cycle(expression)]
    #[tactic(auto, using(crate::proofs::DescentLaws::unary_rules))]
    fn unary(&mut self, mode: Mode, depth: usize) -> Result<Measured, Stop>
        requires { 1 ≤ depth }
        ensures read { Gives measured_seen result self.new ((at_depth mode depth).unary self.old) }
        ensures within { IfOk result (λ m. m.height < depth) }
    {
        if !self.is_prefix(mode) {
            return self.atom(mode, depth);
        }
        if depth < 2 {
            return Err(TOO_DEEP);
        }
        let word = self.prefix(mode)?;
        let operand = self.unary(mode, depth - 1)?;
        Ok(operand.prefixed(self.alloc, word)?)
    }

    /// A name, a call, a constant, `last x`, a merge, or an expression between parentheses.
    #[cycle(expression)]
    #[tactic(auto, using(crate::proofs::DescentLaws::atom_rules))]
    fn atom(&mut self, mode: Mode, depth: usize) -> Result<Measured, Stop>
        requires { 1 ≤ depth }
        ensures read { Gives measured_seen result self.new (atom_read mode depth self.old) }
        ensures within { IfOk result (λ m. m.height < depth) }
    {
        if self.is_small() {
            return self.named(mode, depth);
        }
        if self.is_number() {
            return self.number_value();
        }
        if self.is_sign(Sign::Open) {
            return self.parentheses(mode, depth);
        }
        if self.is_keyword(Keyword::Last) {
            return self.last_value();
        }
        if self.is_merge(mode) {
            return self.parse_merge(mode, depth);
        }
        if self.is_inlined(mode) {
            return self.inlined_call(mode, depth);
        }
        self.constructor_value()
    }

    /// `x`, or `f(a, ..)`.
    #[cycle(expression)]
    #[tactic(auto, using(crate::proofs::DescentLaws::named_rules))]
    fn named(&mut self, mode: Mode, depth: usize) -> Result<Measured, Stop>
        requires { 1 ≤ depth }
        ensures read { Gives measured_seen result self.new (named_read mode depth self.old) }
        ensures within { IfOk result (λ m. m.height < depth) }
    {
        let word = self.small()?;
        if self.is_call(mode) {
            return self.call(mode, depth, word.span, false, word);
        }
        Ok(Measured::variable(self.alloc, word)?)
    }

    /// `inlined f(a, ..)`
    #[cycle(expression)]
    #[tactic(auto, using(crate::proofs::DescentLaws::inlined_call_is))]
    fn inlined_call(&mut self, mode: Mode, depth: usize) -> Result<Measured, Stop>
        requires { 1 ≤ depth }
        ensures read { Gives measured_seen result self.new (inlined_read mode depth self.old) }
        ensures within { IfOk result (λ m. m.height < depth) }
    {
        let first = self.keyword(Keyword::Inlined)?;
        let word = self.small()?;
        self.call(mode, depth, first.span, true, word)
    }

    /// `(e)`
    #[cycle(expression)]
    #[tactic(auto, using(crate::proofs::DescentLaws::two_yes, crate::proofs::DescentLaws::two_no), unfolding(crate::specs::Descent::parentheses_read))]
    fn parentheses(&mut self, mode: Mode, depth: usize) -> Result<Measured, Stop>
        requires { 1 ≤ depth }
        ensures read { Gives measured_seen result self.new (parentheses_read mode depth self.old) }
        ensures within { IfOk result (λ m. m.height < depth) }
    {
        if depth < 2 {
            return Err(TOO_DEEP);
        }
        let left = self.sign(Sign::Open)?;
        let inner = self.expression(mode, depth - 1)?;
        let right = self.sign(Sign::Close)?;
        Ok(inner.in_parentheses(left, right))
    }

    /// `(a, ..)` behind the name of a node, from `first` on.
    #[cycle(expression)]
    #[tactic(auto, unfolding(crate::specs::Descent::call_read))]
    fn call(
        &mut self,
        mode: Mode,
        depth: usize,
        first: Span,
        inlined: bool,
        word: Word<'t>,
    ) -> Result<Measured, Stop>
        requires deep { 1 ≤ depth }
        requires name { length word.text.now ≤ 255 }
        ensures read { Gives measured_seen result self.new (call_read mode depth first inlined (word_seen word.entry) self.old) }
        ensures within { IfOk result (λ m. m.height < depth) }
    {
        self.sign(Sign::Open)?;
        let args = self.arguments(mode, depth)?;
        let close = self.sign(Sign::Close)?;
        Ok(Measured::call(self.alloc, first, inlined, word, args, close)?)
    }

    /// `a, ..` or nothing.
    #[cycle(expression)]
    #[tactic(auto, using(crate::proofs::DescentLaws::arguments_rules))]
    fn arguments(&mut self, mode: Mode, depth: usize) -> Result<Vec<Measured>, Stop>
        requires { 1 ≤ depth }
        ensures read { Gives (λ ms. map measured_seen ms.items) result self.new (arguments_read mode depth self.old) }
        ensures within { IfOk result (λ ms. deepest (map measured_seen ms.items) < depth) }
    {
        let mut args = Vec::new(self.alloc);
        if !self.is_expression(mode) {
            return Ok(args);
        }
        if depth < 2 {
            return Err(TOO_DEEP);
        }
        args.push(self.expression(mode, depth - 1)?)?;
        while self.is_sign(Sign::Comma) {
            self.sign(Sign::Comma)?;
            args.push(self.expression(mode, depth - 1)?)?;
        }
        Ok(args)
    }

    /// `merge x (c -> e) ..`
    #[cycle(expression)]
    #[tactic(auto, using(crate::proofs::DescentLaws::two_yes, crate::proofs::DescentLaws::two_no), unfolding(crate::specs::Descent::merged_read))]
    fn parse_merge(&mut self, mode: Mode, depth: usize) -> Result<Measured, Stop>
        requires { 1 ≤ depth }
        ensures read { Gives measured_seen result self.new (merged_read mode depth self.old) }
        ensures within { IfOk result (λ m. m.height < depth) }
    {
        if depth < 2 {
            return Err(TOO_DEEP);
        }
        let first = self.keyword(Keyword::Merge)?;
        let word = self.small()?;
        let parts = self.parts(mode, depth)?;
        Ok(Measured::merge(self.alloc, first, word, parts)?)
    }

    /// `(c -> e) ..`
    #[cycle(expression)]
    #[tactic(auto, using(crate::proofs::DescentLaws::parts_rules))]
    fn parts(&mut self, mode: Mode, depth: usize) -> Result<Vec<Part>, Stop>
        requires { 2 ≤ depth }
        ensures read { Gives (λ ps. map part_seen ps.items) result self.new (parts_read mode depth self.old) }
        ensures within { IfOk result (λ ps. deepest (map (λ p. measured_seen p.value) ps.items) < depth) }
    {
        let mut parts = Vec::new(self.alloc);
        parts.push(self.part(mode, depth)?)?;
        while self.is_sign(Sign::Open) {
            parts.push(self.part(mode, depth)?)?;
        }
        Ok(parts)
    }

    /// `(c -> e)`
    #[cycle(expression)]
    #[tactic(auto, unfolding(crate::specs::Descent::part_read))]
    fn part(&mut self, mode: Mode, depth: usize) -> Result<Part, Stop>
        requires { 2 ≤ depth }
        ensures read { Gives part_seen result self.new (part_read mode depth self.old) }
        ensures within { IfOk result (λ p. p.value.height < depth - 1) }
    {
        self.sign(Sign::Open)?;
        let word = self.constructor()?;
        let cons = cons(self.alloc, word)?;
        self.sign(Sign::Arrow)?;
        let value = self.expression(mode, depth - 1)?;
        let close = self.sign(Sign::Close)?;
        Ok(Part {
            cons,
            value,
            end: close.span.end,
        })
    }
}
