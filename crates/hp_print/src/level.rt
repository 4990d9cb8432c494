//! The levels of expressions.
ghost use Rattle.std.specs.Prelude.{◌≡◌};
ghost use Rattle.hp_print.specs.Levels.{rank, is_looser, level_of, level_of_operator, level_before, level_behind};

use hp_tree::{Expr, ExprKind, Op2};

/// How tightly an expression holds together, from the loosest level to the tightest.
#[derive(Clone, Copy)]
pub(crate) enum Level {
    Conditional,
    Arrow,
    Sample,
    Delay,
    Implication,
    Disjunction,
    Conjunction,
    Comparison,
    Sum,
    Product,
    Unary,
    Atom,
}

impl Level {
    fn rank(self) -> u8
        ensures { result ≡ rank self }
    {
        self as u8
    }

    pub fn is_looser(self, other: Level) -> bool
        ensures { result ≡ is_looser self other }
    {
        self.rank() < other.rank()
    }

    /// The level of an expression without parentheses around it.
    pub fn of(expr: &Expr) -> Level
        ensures { result ≡ level_of expr.now }
    {
        match &*expr.kind {
            ExprKind::If(..) => Level::Conditional,
            ExprKind::Arrow(..) => Level::Arrow,
            ExprKind::When(..) => Level::Sample,
            ExprKind::Fby(..) => Level::Delay,
            ExprKind::Two(op, ..) => Level::of_operator(*op),
            ExprKind::One(..) | ExprKind::Pre(_) => Level::Unary,
            ExprKind::Const(_)
            | ExprKind::Name(_)
            | ExprKind::Last(_)
            | ExprKind::Merge(..)
            | ExprKind::Call { .. } => Level::Atom,
        }
    }

    fn of_operator(op: Op2) -> Level
        ensures { result ≡ level_of_operator op }
    {
        match op {
            Op2::Imp => Level::Implication,
            Op2::Or | Op2::Xor => Level::Disjunction,
            Op2::And => Level::Conjunction,
            Op2::Eq | Op2::Ne | Op2::Lt | Op2::Le | Op2::Gt | Op2::Ge => Level::Comparison,
            Op2::Add | Op2::Sub => Level::Sum,
            Op2::Mul | Op2::Div | Op2::Rem => Level::Product,
        }
    }

    /// The level of the operand in front of an operator.
    pub fn before(op: Op2) -> Level
        ensures { result ≡ level_before op }
    {
        match op {
            Op2::Imp | Op2::Or | Op2::Xor => Level::Disjunction,
            Op2::And => Level::Conjunction,
            Op2::Eq | Op2::Ne | Op2::Lt | Op2::Le | Op2::Gt | Op2::Ge => Level::Sum,
            Op2::Add | Op2::Sub => Level::Sum,
            Op2::Mul | Op2::Div | Op2::Rem => Level::Product,
        }
    }

    /// The level of the operand behind an operator.
    pub fn behind(op: Op2) -> Level
        ensures { result ≡ level_behind op }
    {
        match op {
            Op2::Imp => Level::Implication,
            Op2::Or | Op2::Xor => Level::Conjunction,
            Op2::And => Level::Comparison,
            Op2::Eq | Op2::Ne | Op2::Lt | Op2::Le | Op2::Gt | Op2::Ge => Level::Sum,
            Op2::Add | Op2::Sub => Level::Product,
            Op2::Mul | Op2::Div | Op2::Rem => Level::Unary,
        }
    }
}
