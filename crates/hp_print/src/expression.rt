//! The text of expressions.
ghost use Rattle.std.specs.Prelude.{◌≡◌, ◌∷◌, [], OnOk};
ghost use Rattle.hp_tree.specs.Expressions.{exprs_of, parts_of, last_of, one, two, choose, pre, fby, arrow, when_is, merge, call};
ghost use Rattle.hp_print.specs.Places.{nowhere};
ghost use Rattle.hp_print.specs.Tokens.{cons_token, constant_tokens, integer_tokens, written_after};
ghost use Rattle.hp_print.specs.ExpressionTokens.{prefix_token, operator_token, inlined_tokens, of_constructor_tokens, expression_tokens, operand_tokens, arguments_tokens, more_arguments_tokens, parts_tokens};

use crate::level::Level;
use crate::printer::Printer;
use hp_base::{Const, Name};
use hp_lexer::{Keyword, Sign};
use hp_tree::{Cons, Expr, ExprKind, Op1, Op2};
use std::alloc::AllocError;

#[tactic(auto, using(crate::proofs::Rules::written))]
impl Printer {
    fn integer(&mut self, value: i32) -> Result<(), AllocError>
        ensures { OnOk result (self.new ≡ written_after self.old (integer_tokens value)) }
    {
        if value < 0 {
            self.sign(Sign::Minus)?;
        }
        self.number(value.unsigned_abs())
    }

    pub fn constant(&mut self, constant: &Const) -> Result<(), AllocError>
        ensures { OnOk result (self.new ≡ written_after self.old (constant_tokens constant.now)) }
    {
        match constant {
            Const::B(true) => self.word(Keyword::True),
            Const::B(false) => self.word(Keyword::False),
            Const::I(value) => self.integer(*value),
            Const::E(name) => self.capital(name),
        }
    }

    pub fn cons(&mut self, cons: &Cons) -> Result<(), AllocError>
        ensures { OnOk result (self.new ≡ written_after self.old (cons_token cons.now ∷ [])) }
    {
        match cons {
            Cons::False => self.word(Keyword::False),
            Cons::True => self.word(Keyword::True),
            Cons::Named(name) => self.capital(name),
        }
    }

    fn prefix(&mut self, op: Op1) -> Result<(), AllocError>
        ensures { OnOk result (self.new ≡ written_after self.old (prefix_token op ∷ [])) }
    {
        match op {
            Op1::Not => self.word(Keyword::Not),
            Op1::Neg => self.sign(Sign::Minus),
        }
    }

    fn operator(&mut self, op: Op2) -> Result<(), AllocError>
        ensures { OnOk result (self.new ≡ written_after self.old (operator_token op ∷ [])) }
    {
        match op {
            Op2::And => self.sign(Sign::And),
            Op2::Or => self.word(Keyword::Or),
            Op2::Xor => self.word(Keyword::Xor),
            Op2::Imp => self.sign(Sign::Implies),
            Op2::Eq => self.sign(Sign::Equal),
            Op2::Ne => self.sign(Sign::Unequal),
            Op2::Lt => self.sign(Sign::Less),
            Op2::Le => self.sign(Sign::AtMost),
            Op2::Gt => self.sign(Sign::Greater),
            Op2::Ge => self.sign(Sign::AtLeast),
            Op2::Add => self.sign(Sign::Plus),
            Op2::Sub => self.sign(Sign::Minus),
            Op2::Mul => self.sign(Sign::Star),
            Op2::Div => self.sign(Sign::Slash),
            Op2::Rem => self.sign(Sign::Percent),
        }
    }

    /// The expression, in parentheses where it is looser than what is wanted.
    #[cycle(expressions)]
    fn operand(&mut self, wanted: Level, expr: &Expr) -> Result<(), AllocError>
        ensures { OnOk result (self.new ≡ written_after self.old (operand_tokens wanted expr.now)) }
    {
        if Level::of(expr).is_looser(wanted) {
            self.sign(Sign::Open)?;
            self.expression(expr)?;
            self.sign(Sign::Close)
        } else {
            self.expression(expr)
        }
    }

    /// The expression without parentheses around it.
    #[cycle(expressions)]
    pub fn expression(&mut self, expr: &Expr) -> Result<(), AllocError>
        ensures { OnOk result (self.new ≡ written_after self.old (expression_tokens expr.now)) }
    {
        match &*expr.kind {
            ExprKind::Const(constant) => self.constant(constant),
            ExprKind::Name(name) => self.small(name),
            ExprKind::Last(name) => self.last(name),
            ExprKind::One(op, a) => self.prefixed(*op, a),
            ExprKind::Two(op, a, b) => self.operation(*op, a, b),
            ExprKind::If(condition, yes, no) => self.conditional(condition, yes, no),
            ExprKind::Pre(a) => self.previous(a),
            ExprKind::Fby(a, b) => self.delayed(a, b),
            ExprKind::Arrow(a, b) => self.initialised(a, b),
            ExprKind::When(a, cons, name) => self.sample(a, cons, name),
            ExprKind::Merge(name, parts) => self.merge(name, parts),
            ExprKind::Call {
                node,
                inlined,
                args,
            } => self.call(node, *inlined, args),
        }
    }

    fn last(&mut self, name: &Name) -> Result<(), AllocError>
        ensures { OnOk result (self.new ≡ written_after self.old (expression_tokens (last_of nowhere name.now))) }
    {
        self.word(Keyword::Last)?;
        self.small(name)
    }

    #[cycle(expressions)]
    fn prefixed(&mut self, op: Op1, a: &Expr) -> Result<(), AllocError>
        ensures { OnOk result (self.new ≡ written_after self.old (expression_tokens (one nowhere op a.now))) }
    {
        self.prefix(op)?;
        self.operand(Level::Unary, a)
    }

    #[cycle(expressions)]
    fn operation(&mut self, op: Op2, a: &Expr, b: &Expr) -> Result<(), AllocError>
        ensures { OnOk result (self.new ≡ written_after self.old (expression_tokens (two nowhere op a.now b.now))) }
    {
        self.operand(Level::before(op), a)?;
        self.operator(op)?;
        self.operand(Level::behind(op), b)
    }

    #[cycle(expressions)]
    fn conditional(&mut self, condition: &Expr, yes: &Expr, no: &Expr) -> Result<(), AllocError>
        ensures { OnOk result (self.new ≡ written_after self.old (expression_tokens (choose nowhere condition.now yes.now no.now))) }
    {
        self.word(Keyword::If)?;
        self.expression(condition)?;
        self.word(Keyword::Then)?;
        self.expression(yes)?;
        self.word(Keyword::Else)?;
        self.expression(no)
    }

    #[cycle(expressions)]
    fn previous(&mut self, a: &Expr) -> Result<(), AllocError>
        ensures { OnOk result (self.new ≡ written_after self.old (expression_tokens (pre nowhere a.now))) }
    {
        self.word(Keyword::Pre)?;
        self.operand(Level::Unary, a)
    }

    #[cycle(expressions)]
    fn delayed(&mut self, a: &Expr, b: &Expr) -> Result<(), AllocError>
        ensures { OnOk result (self.new ≡ written_after self.old (expression_tokens (fby nowhere a.now b.now))) }
    {
        self.operand(Level::Implication, a)?;
        self.word(Keyword::Fby)?;
        self.operand(Level::Delay, b)
    }

    #[cycle(expressions)]
    fn initialised(&mut self, a: &Expr, b: &Expr) -> Result<(), AllocError>
        ensures { OnOk result (self.new ≡ written_after self.old (expression_tokens (arrow nowhere a.now b.now))) }
    {
        self.operand(Level::Sample, a)?;
        self.sign(Sign::Arrow)?;
        self.expression(b)
    }

    #[cycle(expressions)]
    fn sample(&mut self, a: &Expr, cons: &Cons, name: &Name) -> Result<(), AllocError>
        ensures { OnOk result (self.new ≡ written_after self.old (expression_tokens (when_is nowhere a.now cons.now name.now))) }
    {
        self.operand(Level::Sample, a)?;
        self.word(Keyword::When)?;
        self.of_constructor(cons, name)
    }

    #[cycle(expressions)]
    fn merge(&mut self, name: &Name, parts: &[(Cons, Expr)]) -> Result<(), AllocError>
        ensures { OnOk result (self.new ≡ written_after self.old (expression_tokens (merge nowhere name.now (parts_of parts.now)))) }
    {
        self.word(Keyword::Merge)?;
        self.small(name)?;
        self.parts(parts)
    }

    #[cycle(expressions)]
    fn call(&mut self, node: &Name, inlined: bool, args: &[Expr]) -> Result<(), AllocError>
        ensures { OnOk result (self.new ≡ written_after self.old (expression_tokens (call nowhere node.now inlined (exprs_of args.now)))) }
    {
        self.inlined(inlined)?;
        self.small(node)?;
        self.sign(Sign::Open)?;
        self.arguments(args)?;
        self.sign(Sign::Close)
    }

    /// `c ( x )`
    pub fn of_constructor(&mut self, cons: &Cons, name: &Name) -> Result<(), AllocError>
        ensures { OnOk result (self.new ≡ written_after self.old (of_constructor_tokens cons.now name.now)) }
    {
        self.cons(cons)?;
        self.sign(Sign::Open)?;
        self.small(name)?;
        self.sign(Sign::Close)
    }

    fn inlined(&mut self, inlined: bool) -> Result<(), AllocError>
        ensures { OnOk result (self.new ≡ written_after self.old (inlined_tokens inlined)) }
    {
        if inlined {
            self.word(Keyword::Inlined)?;
        }
        Ok(())
    }

    #[cycle(expressions)]
    fn arguments(&mut self, args: &[Expr]) -> Result<(), AllocError>
        ensures { OnOk result (self.new ≡ written_after self.old (arguments_tokens (exprs_of args.now))) }
    {
        match args {
            [] => Ok(()),
            [first, others @ ..] => {
                self.expression(first)?;
                self.more_arguments(others)
            }
        }
    }

    /// The arguments behind the first.
    #[cycle(expressions)]
    #[tactic(auto, using(crate::proofs::Rules::written_in_expressions))]
    fn more_arguments(&mut self, args: &[Expr]) -> Result<(), AllocError>
        ensures { OnOk result (self.new ≡ written_after self.old (more_arguments_tokens (exprs_of args.now))) }
    {
        for arg in args {
            self.sign(Sign::Comma)?;
            self.expression(arg)?;
        }
        Ok(())
    }

    #[cycle(expressions)]
    #[tactic(auto, using(crate::proofs::Rules::written_in_expressions))]
    fn parts(&mut self, parts: &[(Cons, Expr)]) -> Result<(), AllocError>
        ensures { OnOk result (self.new ≡ written_after self.old (parts_tokens (parts_of parts.now))) }
    {
        for (cons, right) in parts {
            self.sign(Sign::Open)?;
            self.cons(cons)?;
            self.sign(Sign::Arrow)?;
            self.expression(right)?;
            self.sign(Sign::Close)?;
        }
        Ok(())
    }
}
