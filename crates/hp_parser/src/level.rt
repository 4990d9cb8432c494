ghost use Rattle.std.specs.Prelude.{◌≡◌};
ghost use Rattle.hp_parser.specs.Descent.{operators, below, behind_operator, is_repeated};

use crate::mode::Mode;
use hp_lexer::{Keyword, Sign, TokenKind};

/// The levels of operators between two operands, from the tightest to the loosest.
#[derive(Clone, Copy, Debug, PartialEq, Eq)]
pub(crate) enum Level {
    Product,
    Sum,
    Comparison,
    Conjunction,
    Disjunction,
    Implication,
    Delay,
}

impl Level {
    /// Whether a token is an operator of the level.
    pub fn has(self, mode: Mode, kind: TokenKind) -> bool
        ensures { result ≡ operators mode self kind }
    {
        match self {
            Level::Product => matches!(
                kind,
                TokenKind::Sign(Sign::Star | Sign::Slash | Sign::Percent)
            ),
            Level::Sum => matches!(kind, TokenKind::Sign(Sign::Plus | Sign::Minus)),
            Level::Comparison => matches!(
                kind,
                TokenKind::Sign(
                    Sign::Equal
                        | Sign::Unequal
                        | Sign::Less
                        | Sign::AtMost
                        | Sign::Greater
                        | Sign::AtLeast
                )
            ),
            Level::Conjunction => matches!(kind, TokenKind::Sign(Sign::And | Sign::AndAnd)),
            Level::Disjunction => matches!(
                kind,
                TokenKind::Keyword(Keyword::Or | Keyword::Xor) | TokenKind::Sign(Sign::BarBar)
            ),
            Level::Implication => matches!(kind, TokenKind::Sign(Sign::Implies)),
            Level::Delay => match mode {
                Mode::Whole => matches!(kind, TokenKind::Keyword(Keyword::Fby)),
                Mode::Plain => false,
            },
        }
    }

    /// The level of an operand before an operator; `None` is below all levels.
    pub fn below(self) -> Option<Level>
        ensures { result ≡ below self }
    {
        match self {
            Level::Product => None,
            Level::Sum => Some(Level::Product),
            Level::Comparison => Some(Level::Sum),
            Level::Conjunction => Some(Level::Comparison),
            Level::Disjunction => Some(Level::Conjunction),
            Level::Implication => Some(Level::Disjunction),
            Level::Delay => Some(Level::Implication),
        }
    }

    /// The level of an operand behind an operator.
    pub fn behind(self) -> Option<Level>
        ensures { result ≡ behind_operator self }
    {
        match self {
            Level::Implication => Some(Level::Implication),
            Level::Delay => Some(Level::Delay),
            _ => self.below(),
        }
    }

    /// Whether any number of operators may stand behind an operand.
    pub fn is_repeated(self) -> bool
        ensures { result ≡ is_repeated self }
    {
        !matches!(self, Level::Comparison | Level::Implication | Level::Delay)
    }
}
