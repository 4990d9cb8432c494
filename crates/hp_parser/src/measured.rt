ghost use Rattle.std.specs.Prelude.{◌≡◌, ◌<◌, ◌≤◌, ℕ, length, map, max, suc, IfOk, true, false};
ghost use Rattle.std.specs.List.{list_all};
ghost use Rattle.hp_base.specs.declared.span.Span.{Span};
ghost use Rattle.hp_base.specs.Bytes.{is_digit};
ghost use Rattle.hp_lexer.specs.Spelling.{value_of};
ghost use Rattle.hp_tree.specs.ExpressionView.{expr_at};
ghost use Rattle.hp_tree.specs.Expressions.{constant, variable, last_of};
ghost use Rattle.hp_parser.specs.Descent.{measured_seen, part_seen, sample_seen, joined_by, of_parts, end_of};
ghost use Rattle.hp_parser.specs.Grammar.{up_to, measured, of_token, of_name, of_operator, of_delay, of_arrow, of_sample, of_prefix, in_parentheses, of_call, of_merge, of_condition, deepest, prefixed, last_end};
ghost use Rattle.hp_parser.specs.Lexemes.{Lexeme};
ghost use Rattle.hp_parser.specs.Seen.{word_seen};
ghost use Rattle.hp_parser.specs.Tokens.{operator_of, constructor_of, constant_of, positive};

use crate::level::Level;
use crate::reader::Word;
use hp_base::{Const, Name, Span};
use hp_lexer::{Keyword, Sign, TokenKind, number};
use hp_tree::{Cons, Expr, ExprKind, Op1, Op2};
use std::alloc::{AllocError, Global};

/// An expression and what is known of it where it was read; parentheses around it count.
#[derive(Debug, Drop)]
pub(crate) struct Measured {
    pub expr: Expr,
    /// How many levels stand above its lowest one.
    pub height: usize,
    /// Its first token.
    pub first: Span,
    /// The offset behind its last token.
    pub end: u32,
}

/// What stands behind an operand in `e when c(x)`.
#[derive(Debug, Drop)]
pub(crate) struct Sample {
    pub cons: Cons,
    pub name: Name,
    /// The offset behind its last token.
    pub end: u32,
}

/// A part `(c -> e)` of a merge.
#[derive(Debug, Drop)]
pub(crate) struct Part {
    pub cons: Cons,
    pub value: Measured,
    /// The offset behind its parenthesis.
    pub end: u32,
}

/// The operator that a token is.
fn operator(kind: TokenKind) -> Op2
    ensures { result ≡ operator_of kind }
{
    match kind {
        TokenKind::Sign(Sign::Star) => Op2::Mul,
        TokenKind::Sign(Sign::Slash) => Op2::Div,
        TokenKind::Sign(Sign::Percent) => Op2::Rem,
        TokenKind::Sign(Sign::Plus) => Op2::Add,
        TokenKind::Sign(Sign::Minus) => Op2::Sub,
        TokenKind::Sign(Sign::Equal) => Op2::Eq,
        TokenKind::Sign(Sign::Unequal) => Op2::Ne,
        TokenKind::Sign(Sign::Less) => Op2::Lt,
        TokenKind::Sign(Sign::AtMost) => Op2::Le,
        TokenKind::Sign(Sign::Greater) => Op2::Gt,
        TokenKind::Sign(Sign::AtLeast) => Op2::Ge,
        TokenKind::Sign(Sign::And | Sign::AndAnd) => Op2::And,
        TokenKind::Sign(Sign::BarBar) | TokenKind::Keyword(Keyword::Or) => Op2::Or,
        TokenKind::Keyword(Keyword::Xor) => Op2::Xor,
        _ => Op2::Imp,
    }
}

/// The constructor that a token is.
pub(crate) fn cons(alloc: Global, word: Word) -> Result<Cons, AllocError>
    requires { length word.text.now ≤ 255 }
    ensures { IfOk result (λ c. c ≡ constructor_of (word_seen word.entry)) }
{
    match word.kind {
        TokenKind::Keyword(Keyword::False) => Ok(Cons::False),
        TokenKind::Keyword(Keyword::True) => Ok(Cons::True),
        _ => Ok(Cons::Named(Name::new(alloc, word.text)?)),
    }
}

fn constant_of_cons(cons: Cons) -> Const
    ensures { result ≡ constant_of cons }
{
    match cons {
        Cons::False => Const::B(false),
        Cons::True => Const::B(true),
        Cons::Named(name) => Const::E(name),
    }
}

/// How many levels an expression has above the lowest ones of its operands.
#[tactic(auto, using(crate::proofs::MeasuredLaws::deepest_more, crate::proofs::MeasuredLaws::deepest_at))]
fn deepest_of(operands: &[Measured]) -> usize
    requires { deepest (map measured_seen operands.now) ≤ usize.MAX }
    ensures { result ≡ deepest (map measured_seen operands.now) }
{
    let mut height = 0;
    for operand in operands {
        height = (operand.height + 1).max(height);
    }
    height
}

fn exprs(alloc: Global, operands: Vec<Measured>) -> Result<Vec<Expr>, AllocError>
    ensures { IfOk result (λ exprs. exprs.items ≡ map (λ m. m.expr) operands.items) }
{
    let mut exprs = Vec::new(alloc);
    for operand in operands {
        exprs.push(operand.expr)?;
    }
    Ok(exprs)
}

/// The same of the values of parts.
#[tactic(auto, using(crate::proofs::MeasuredLaws::deepest_part_more, crate::proofs::MeasuredLaws::deepest_part_at))]
fn deepest_part(parts: &[Part]) -> usize
    requires { deepest (map (λ p. measured_seen p.value) parts.now) ≤ usize.MAX }
    ensures { result ≡ deepest (map (λ p. measured_seen p.value) parts.now) }
{
    let mut height = 0;
    for part in parts {
        height = (part.value.height + 1).max(height);
    }
    height
}

/// The end of the last part.
#[tactic(auto, using(crate::proofs::MeasuredLaws::end_of_more))]
fn end_of_parts(parts: &[Part]) -> u32
    ensures { result ≡ end_of (map part_seen parts.now) }
{
    let mut end = 0;
    for part in parts {
        end = part.end;
    }
    end
}

fn cons_and_exprs(alloc: Global, parts: Vec<Part>) -> Result<Vec<(Cons, Expr)>, AllocError>
    ensures { IfOk result (λ pairs. pairs.items ≡ map (λ p. (p.cons, p.value.expr)) parts.items) }
{
    let mut pairs = Vec::new(alloc);
    for part in parts {
        pairs.push((part.cons, part.value.expr))?;
    }
    Ok(pairs)
}

impl Measured {
    fn new(
        alloc: Global,
        first: Span,
        end: u32,
        height: usize,
        kind: ExprKind,
    ) -> Result<Measured, AllocError>
        ensures { IfOk result (λ m. measured_seen m ≡ measured first end height (λ s. expr_at s kind)) }
    {
        let span = Span {
            line: first.line,
            col: first.col,
            end,
        };
        Ok(Measured {
            expr: Expr::new(alloc, span, kind)?,
            height,
            first,
            end,
        })
    }

    /// A decimal number.
    pub fn number(alloc: Global, word: Word) -> Result<Measured, AllocError>
        requires digits { list_all is_digit word.text.now ≡ true }
        requires within { value_of word.text.now ≤ 2147483647 }
        ensures { IfOk result (λ m. measured_seen m ≡ of_token (word_seen word.entry) (λ s. constant s (positive (word_seen word.entry)))) }
    {
        let value = match number(word.text) {
            Some(value) => value,
            None => unreachable!(),
        };
        Measured::new(
            alloc,
            word.span,
            word.span.end,
            0,
            ExprKind::Const(Const::I(value as i32)),
        )
    }

    /// A constructor as a value.
    pub fn constructor(alloc: Global, word: Word) -> Result<Measured, AllocError>
        requires { length word.text.now ≤ 255 }
        ensures { IfOk result (λ m. measured_seen m ≡ of_token (word_seen word.entry) (λ s. constant s (constant_of (constructor_of (word_seen word.entry))))) }
    {
        let value = constant_of_cons(cons(alloc, word)?);
        Measured::new(alloc, word.span, word.span.end, 0, ExprKind::Const(value))
    }

    pub fn variable(alloc: Global, word: Word) -> Result<Measured, AllocError>
        requires { length word.text.now ≤ 255 }
        ensures { IfOk result (λ m. measured_seen m ≡ of_token (word_seen word.entry) (λ s. variable s (word_seen word.entry).bytes)) }
    {
        let name = Name::new(alloc, word.text)?;
        Measured::new(alloc, word.span, word.span.end, 0, ExprKind::Name(name))
    }

    /// `last x`, where `first` is the place of the keyword.
    pub fn last(alloc: Global, first: Span, word: Word) -> Result<Measured, AllocError>
        requires { length word.text.now ≤ 255 }
        ensures { IfOk result (λ m. measured_seen m ≡ measured first (word_seen word.entry).span.end 0 (λ s. last_of s (word_seen word.entry).bytes)) }
    {
        let name = Name::new(alloc, word.text)?;
        Measured::new(alloc, first, word.span.end, 0, ExprKind::Last(name))
    }

    /// An operator in front of an operand.
    pub fn prefixed(self, alloc: Global, word: Word) -> Result<Measured, AllocError>
        requires { self.height < usize.MAX }
        ensures { IfOk result (λ m. measured_seen m ≡ of_prefix (word_seen word.entry) (measured_seen self)) }
    {
        let kind = match word.kind {
            TokenKind::Keyword(Keyword::Not) => ExprKind::One(Op1::Not, self.expr),
            TokenKind::Keyword(Keyword::Pre) => ExprKind::Pre(self.expr),
            _ => ExprKind::One(Op1::Neg, self.expr),
        };
        Measured::new(alloc, word.span, self.end, self.height + 1, kind)
    }

    /// The same between parentheses, whose places are these.
    pub fn in_parentheses(self, left: Word, right: Word) -> Measured
        requires { self.height < usize.MAX }
        ensures { measured_seen result ≡ in_parentheses (word_seen left.entry) (measured_seen self) (word_seen right.entry) }
    {
        Measured {
            expr: self.expr,
            height: self.height + 1,
            first: left.span,
            end: right.span.end,
        }
    }

    /// An operator between two operands.
    pub fn with_operator(
        self,
        alloc: Global,
        word: Word,
        right: Measured,
    ) -> Result<Measured, AllocError>
        requires left { self.height < usize.MAX }
        requires right { right.height < usize.MAX }
        ensures { IfOk result (λ m. measured_seen m ≡ of_operator (measured_seen self) (word_seen word.entry, measured_seen right)) }
    {
        let height = self.height.max(right.height) + 1;
        let kind = ExprKind::Two(operator(word.kind), self.expr, right.expr);
        Measured::new(alloc, self.first, right.end, height, kind)
    }

    /// `a fby b`
    pub fn delayed(self, alloc: Global, word: Word, right: Measured) -> Result<Measured, AllocError>
        requires left { self.height < usize.MAX }
        requires right { right.height < usize.MAX }
        ensures { IfOk result (λ m. measured_seen m ≡ of_delay (measured_seen self) (word_seen word.entry, measured_seen right)) }
    {
        let height = self.height.max(right.height) + 1;
        let kind = ExprKind::Fby(self.expr, right.expr);
        Measured::new(alloc, self.first, right.end, height, kind)
    }

    /// `a -> b`
    pub fn arrow(self, alloc: Global, word: Word, right: Measured) -> Result<Measured, AllocError>
        requires left { self.height < usize.MAX }
        requires right { right.height < usize.MAX }
        ensures { IfOk result (λ m. measured_seen m ≡ of_arrow (measured_seen self) (word_seen word.entry, measured_seen right)) }
    {
        let height = self.height.max(right.height) + 1;
        let kind = ExprKind::Arrow(self.expr, right.expr);
        Measured::new(alloc, self.first, right.end, height, kind)
    }

    /// `e when c(x)`
    pub fn with_sample(self, alloc: Global, sample: Sample) -> Result<Measured, AllocError>
        requires { self.height < usize.MAX }
        ensures { IfOk result (λ m. measured_seen m ≡ of_sample (measured_seen self) (sample_seen sample)) }
    {
        let kind = ExprKind::When(self.expr, sample.cons, sample.name);
        Measured::new(alloc, self.first, sample.end, self.height + 1, kind)
    }

    /// `if a then b else c`, where `word` is the `if`.
    pub fn conditional(
        alloc: Global,
        word: Word,
        condition: Measured,
        positive: Measured,
        negative: Measured,
    ) -> Result<Measured, AllocError>
        requires condition { condition.height < usize.MAX }
        requires positive { positive.height < usize.MAX }
        requires negative { negative.height < usize.MAX }
        ensures { IfOk result (λ m. measured_seen m ≡ of_condition (word_seen word.entry) (measured_seen condition) (measured_seen positive) (measured_seen negative)) }
    {
        let height = condition.height.max(positive.height.max(negative.height)) + 1;
        let kind = ExprKind::If(condition.expr, positive.expr, negative.expr);
        Measured::new(alloc, word.span, negative.end, height, kind)
    }

    /// `f(a, ..)` from `first` to the parenthesis `close`.
    #[tactic(auto, using(crate::proofs::MeasuredLaws::exprs_seen))]
    pub fn call(
        alloc: Global,
        first: Span,
        inlined: bool,
        word: Word,
        args: Vec<Measured>,
        close: Word,
    ) -> Result<Measured, AllocError>
        requires name { length word.text.now ≤ 255 }
        requires levels { deepest (map measured_seen args.items) ≤ usize.MAX }
        ensures { IfOk result (λ m. measured_seen m ≡ of_call first inlined (word_seen word.entry) (map measured_seen args.items) (word_seen close.entry)) }
    {
        let height = deepest_of(&args);
        let node = Name::new(alloc, word.text)?;
        let args = exprs(alloc, args)?;
        let kind = ExprKind::Call {
            node,
            inlined,
            args,
        };
        Measured::new(alloc, first, close.span.end, height, kind)
    }

    /// An operator of a level between two operands.
    pub fn with_operand(
        self,
        alloc: Global,
        level: Level,
        word: Word,
        right: Measured,
    ) -> Result<Measured, AllocError>
        requires left { self.height < usize.MAX }
        requires right { right.height < usize.MAX }
        ensures { IfOk result (λ m. measured_seen m ≡ joined_by level (measured_seen self) (word_seen word.entry, measured_seen right)) }
    {
        match level {
            Level::Delay => self.delayed(alloc, word, right),
            _ => self.with_operator(alloc, word, right),
        }
    }

    /// `merge x (c -> e) ..`, where there is one part at least.
    pub fn merge(
        alloc: Global,
        first: Word,
        word: Word,
        parts: Vec<Part>,
    ) -> Result<Measured, AllocError>
        requires name { length word.text.now ≤ 255 }
        requires levels { deepest (map (λ p. measured_seen p.value) parts.items) ≤ usize.MAX }
        ensures { IfOk result (λ m. measured_seen m ≡ of_parts (word_seen first.entry) (word_seen word.entry) (map part_seen parts.items)) }
    {
        let height = deepest_part(&parts);
        let end = end_of_parts(&parts);
        let name = Name::new(alloc, word.text)?;
        let parts = cons_and_exprs(alloc, parts)?;
        let kind = ExprKind::Merge(name, parts);
        Measured::new(alloc, first.span, end, height, kind)
    }
}
