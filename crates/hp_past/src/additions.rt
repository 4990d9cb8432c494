//! New variables of a contract.
ghost use Rattle.std.specs.Prelude.{◌≡◌, suc, IfOk, OnOk};
ghost use Rattle.hp_tree.specs.Expressions as tree;
ghost use Rattle.hp_tree.specs.BlockView.{eqn_seen};
ghost use Rattle.hp_past.specs.Names.{past_name, is_taken, free};
ghost use Rattle.hp_past.specs.Unfolding.{nothing_added, fresh, first_value, boolean, equation, with_variable, with_argument, once_of, historically_of, since_of};
ghost use Rattle.hp_past.specs.Made.{added_of};

use crate::names::Names;
use crate::text::Text;
use hp_base::{Const, Name, Span, Ty};
use hp_tree::{Decl, Eqn, Expr, ExprKind, Op2};
use itoa::Buffer;
use std::alloc::{AllocError, Global};

/// What a contract gets behind its own declarations and equations, and the number from which the next name is looked for.
#[derive(Drop)]
pub struct Additions {
    pub next: u64,
    pub locals: Vec<Decl>,
    pub eqns: Vec<Eqn>,
}

/// The name with this number.
fn past_name(alloc: Global, number: u64) -> Result<Name, AllocError>
    ensures { IfOk result (λ name. name ≡ past_name number) }
{
    let mut buffer = Buffer::new();
    let mut bytes = Vec::from_slice(alloc, b"past_")?;
    bytes.extend_from_slice(buffer.format(number).as_bytes())?;
    Name::new(alloc, &bytes)
}

fn is_taken(alloc: Global, names: &Names<'_>, number: u64) -> Result<bool, AllocError>
    ensures { IfOk result (λ taken. taken ≡ is_taken names.now (past_name number)) }
{
    let name = past_name(alloc, number)?;
    Ok(names.has(&name))
}

/// The first number from this one on whose name does not occur.
#[tactic(auto, using(crate::proofs::Rules::free_numbers), unfolding(crate::specs::Names::free))]
fn free(alloc: Global, names: &Names<'_>, first: u64) -> Result<u64, AllocError>
    ensures { IfOk result (λ number. number ≡ free names.now first) }
{
    let mut number = first;
    let mut left = names.len();
    while left > 0 {
        if !is_taken(alloc, names, number)? {
            return Ok(number);
        }
        number = following(number)?;
        left -= 1;
    }
    Ok(number)
}

fn following(number: u64) -> Result<u64, AllocError>
    ensures { IfOk result (λ other. other ≡ suc number) }
{
    match number.checked_add(1) {
        None => Err(AllocError),
        Some(sum) => Ok(sum),
    }
}

fn variable(alloc: Global, at: Span, name: &Name) -> Result<Expr, AllocError>
    ensures { IfOk result (λ expr. expr ≡ tree.variable at name.now) }
{
    Expr::new(alloc, at, ExprKind::Name(name.copy(alloc)?))
}

fn last(alloc: Global, at: Span, name: &Name) -> Result<Expr, AllocError>
    ensures { IfOk result (λ expr. expr ≡ tree.last_of at name.now) }
{
    Expr::new(alloc, at, ExprKind::Last(name.copy(alloc)?))
}

fn two(alloc: Global, at: Span, op: Op2, a: Expr, b: Expr) -> Result<Expr, AllocError>
    ensures { IfOk result (λ expr. expr ≡ tree.two at op a b) }
{
    Expr::new(alloc, at, ExprKind::Two(op, a, b))
}

fn boolean(alloc: Global, at: Span, name: &Name, first: Option<bool>) -> Result<Decl, AllocError>
    ensures { IfOk result (λ decl. decl ≡ boolean at name.now first) }
{
    Ok(Decl {
        name: name.copy(alloc)?,
        ty: Ty::Bool,
        last: first_value(first),
        clock: None,
        span: at,
    })
}

fn first_value(first: Option<bool>) -> Option<Const>
    ensures { result ≡ first_value first }
{
    match first {
        None => None,
        Some(value) => Some(Const::B(value)),
    }
}

/// The equation of a variable.
fn definition(alloc: Global, decl: &Decl, right: Expr) -> Result<Eqn, AllocError>
    ensures { IfOk result (λ eqn. eqn_seen eqn ≡ equation decl.now right) }
{
    let mut names = Vec::new(alloc);
    names.push((decl.name.copy(alloc)?, decl.span))?;
    Ok(Eqn::Def {
        span: decl.span,
        names,
        right,
    })
}

/// The right side `arg op last name`.
fn with_last(alloc: Global, at: Span, op: Op2, arg: &Name, name: &Name) -> Result<Expr, AllocError>
    ensures { IfOk result (λ expr. expr ≡ tree.two at op (tree.variable at arg.now) (tree.last_of at name.now)) }
{
    let first = variable(alloc, at, arg)?;
    let second = last(alloc, at, name)?;
    two(alloc, at, op, first, second)
}

impl Additions {
    #[tactic(auto, unfolding(crate::specs::Made::added_of))]
    pub fn new(alloc: Global, next: u64) -> Additions
        ensures { added_of result ≡ nothing_added next }
    {
        Additions {
            next,
            locals: Vec::new(alloc),
            eqns: Vec::new(alloc),
        }
    }

    /// The number from which the next name is looked for.
    #[tactic(auto, unfolding(crate::specs::Made::added_of))]
    pub fn next(&self) -> u64
        ensures { result ≡ (added_of self.now).next }
    {
        self.next
    }

    /// A name that does not occur, and is not given again.
    #[tactic(auto, unfolding(crate::specs::Made::added_of, crate::specs::Unfolding::fresh))]
    fn fresh(&mut self, text: &Text<'_>) -> Result<Name, AllocError>
        ensures name { IfOk result (λ name. name ≡ (fresh text.now.names (added_of self.old)).0) }
        ensures added { OnOk result (added_of self.new ≡ (fresh text.now.names (added_of self.old)).1) }
    {
        let number = free(text.alloc, &text.names, self.next)?;
        self.next = following(number)?;
        past_name(text.alloc, number)
    }

    /// Adds a variable with its equation.
    #[tactic(auto, using(crate::proofs::Rules::added), unfolding(crate::specs::Made::added_of, crate::specs::Unfolding::with_variable))]
    fn define(&mut self, alloc: Global, decl: Decl, right: Expr) -> Result<(), AllocError>
        ensures { OnOk result (added_of self.new ≡ with_variable decl right (added_of self.old)) }
    {
        let eqn = definition(alloc, &decl, right)?;
        self.locals.push(decl)?;
        self.eqns.push(eqn)?;
        Ok(())
    }

    /// Adds an argument as a variable.
    #[tactic(auto, unfolding(crate::specs::Unfolding::with_argument))]
    fn add_argument(&mut self, text: &Text<'_>, at: Span, arg: &Expr) -> Result<Name, AllocError>
        ensures name { IfOk result (λ name. name ≡ (with_argument text.now.names at arg.now (added_of self.old)).0) }
        ensures added { OnOk result (added_of self.new ≡ (with_argument text.now.names at arg.now (added_of self.old)).1) }
    {
        let name = self.fresh(text)?;
        let right = arg.copy(text.alloc)?;
        let decl = boolean(text.alloc, at, &name, None)?;
        self.define(text.alloc, decl, right)?;
        Ok(name)
    }

    /// Adds the variables of `once`.
    #[tactic(auto, unfolding(crate::specs::Unfolding::once_of))]
    pub fn add_once(&mut self, text: &Text<'_>, at: Span, arg: &Expr) -> Result<Name, AllocError>
        ensures name { IfOk result (λ name. name ≡ (once_of text.now.names at arg.now (added_of self.old)).0) }
        ensures added { OnOk result (added_of self.new ≡ (once_of text.now.names at arg.now (added_of self.old)).1) }
    {
        let arg = self.add_argument(text, at, arg)?;
        let name = self.fresh(text)?;
        let right = with_last(text.alloc, at, Op2::Or, &arg, &name)?;
        let decl = boolean(text.alloc, at, &name, Some(false))?;
        self.define(text.alloc, decl, right)?;
        Ok(name)
    }

    /// Adds the variables of `historically`.
    #[tactic(auto, unfolding(crate::specs::Unfolding::historically_of))]
    pub fn add_historically(
        &mut self,
        text: &Text<'_>,
        at: Span,
        arg: &Expr,
    ) -> Result<Name, AllocError>
        ensures name { IfOk result (λ name. name ≡ (historically_of text.now.names at arg.now (added_of self.old)).0) }
        ensures added { OnOk result (added_of self.new ≡ (historically_of text.now.names at arg.now (added_of self.old)).1) }
    {
        let arg = self.add_argument(text, at, arg)?;
        let name = self.fresh(text)?;
        let right = with_last(text.alloc, at, Op2::And, &arg, &name)?;
        let decl = boolean(text.alloc, at, &name, Some(true))?;
        self.define(text.alloc, decl, right)?;
        Ok(name)
    }

    /// Adds the variables of `since`.
    #[tactic(auto, unfolding(crate::specs::Unfolding::since_of))]
    pub fn add_since(
        &mut self,
        text: &Text<'_>,
        at: Span,
        holds: &Expr,
        begins: &Expr,
    ) -> Result<Name, AllocError>
        ensures name { IfOk result (λ name. name ≡ (since_of text.now.names at holds.now begins.now (added_of self.old)).0) }
        ensures added { OnOk result (added_of self.new ≡ (since_of text.now.names at holds.now begins.now (added_of self.old)).1) }
    {
        let holds = self.add_argument(text, at, holds)?;
        let begins = self.add_argument(text, at, begins)?;
        let name = self.fresh(text)?;
        let first = variable(text.alloc, at, &begins)?;
        let second = with_last(text.alloc, at, Op2::And, &holds, &name)?;
        let right = two(text.alloc, at, Op2::Or, first, second)?;
        let decl = boolean(text.alloc, at, &name, Some(false))?;
        self.define(text.alloc, decl, right)?;
        Ok(name)
    }
}
