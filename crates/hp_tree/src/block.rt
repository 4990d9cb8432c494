ghost use Rattle.std.specs.Prelude.{◌≡◌, ◌↔◌, IsTrue, IfOk, map};
ghost use Rattle.hp_tree.specs.BlockView.{eqn_seen, arm_seen, state_seen};

use crate::decl::{Cons, Decl, copy_decls, same_decls};
use crate::expr::Expr;
use hp_base::{Name, Span};
use std::alloc::{AllocError, Global};
use std::marker::Model;

/// Local variables and the equations that define them and others.
#[cycle(block)]
#[derive(Debug, Drop)]
pub struct Block {
    pub locals: Vec<Decl>,
    pub eqns: Vec<Eqn>,
}

impl Model for Block {
    ghost use Rattle.hp_tree.specs.Blocks.{Block};
    ghost use Rattle.hp_tree.specs.BlockCode.{block_code};

    ghost Value = { Block };

    ghost coded = { block_code };

    ghost use Rattle.hp_tree.specs.BlockView.{block_seen};

    ghost view = { block_seen };

    ghost use Rattle.hp_tree.specs.Sizes.{lines};

    ghost size = { lines };

    ghost use Rattle.hp_tree.specs.BlockFalls.{blocks_smaller};

    ghost size_decreases = { λ a h. blocks_smaller a };
}

impl Block {
    #[cycle(copy)]
    pub fn copy(&self, alloc: Global) -> Result<Block, AllocError>
        ensures { IfOk result (λ block. block ≡ self.now) }
    {
        Ok(Block {
            locals: copy_decls(alloc, &self.locals)?,
            eqns: copy_eqns(alloc, &self.eqns)?,
        })
    }

    /// Whether the two are the same block, at the same places.
    #[cycle(same)]
    #[tactic(auto, using(crate::proofs::Rules::block_lists))]
    pub fn same(&self, other: &Block) -> bool
        ensures { IsTrue result ↔ (self.now ≡ other.now) }
    {
        same_decls(&self.locals, &other.locals) && same_eqns(&self.eqns, &other.eqns)
    }
}

/// An equation. Its span begins at its first token. An `if` is a `Switch` over `true` and `false`.
#[cycle(block)]
#[derive(Debug, Drop)]
pub enum Eqn {
    /// `x = e` or `(x, y) = e`, with the place of each name.
    Def {
        span: Span,
        names: Vec<(Name, Span)>,
        right: Expr,
    },
    /// `switch e | c do .. end`
    Switch {
        span: Span,
        cond: Expr,
        arms: Vec<Arm>,
    },
    /// `reset .. every e`
    Reset {
        span: Span,
        body: Block,
        cond: Expr,
    },
    /// `automaton state .. end`; the first state is the initial one.
    Automaton {
        span: Span,
        states: Vec<State>,
    },
}

impl Eqn {
    #[cycle(copy)]
    pub fn copy(&self, alloc: Global) -> Result<Eqn, AllocError>
        ensures { IfOk result (λ eqn. eqn_seen eqn ≡ eqn_seen self.now) }
    {
        match self {
            Eqn::Def { span, names, right } => Ok(Eqn::Def {
                span: *span,
                names: copy_left(alloc, names)?,
                right: right.copy(alloc)?,
            }),
            Eqn::Switch { span, cond, arms } => Ok(Eqn::Switch {
                span: *span,
                cond: cond.copy(alloc)?,
                arms: copy_arms(alloc, arms)?,
            }),
            Eqn::Reset { span, body, cond } => Ok(Eqn::Reset {
                span: *span,
                body: body.copy(alloc)?,
                cond: cond.copy(alloc)?,
            }),
            Eqn::Automaton { span, states } => Ok(Eqn::Automaton {
                span: *span,
                states: copy_states(alloc, states)?,
            }),
        }
    }

    /// Whether the two are the same equation, at the same places.
    #[cycle(same)]
    #[tactic(auto, using(crate::proofs::Rules::block_lists))]
    pub fn same(&self, other: &Eqn) -> bool
        ensures { IsTrue result ↔ (eqn_seen self.now ≡ eqn_seen other.now) }
    {
        match (self, other) {
            (
                Eqn::Def { span, names, right },
                Eqn::Def {
                    span: s,
                    names: xs,
                    right: e,
                },
            ) => span == s && same_names(names, xs) && right.same(e),
            (
                Eqn::Switch { span, cond, arms },
                Eqn::Switch {
                    span: s,
                    cond: e,
                    arms: others,
                },
            ) => span == s && cond.same(e) && same_arms(arms, others),
            (
                Eqn::Reset { span, body, cond },
                Eqn::Reset {
                    span: s,
                    body: b,
                    cond: e,
                },
            ) => span == s && body.same(b) && cond.same(e),
            (
                Eqn::Automaton { span, states },
                Eqn::Automaton {
                    span: s,
                    states: others,
                },
            ) => span == s && same_states(states, others),
            _ => false,
        }
    }
}

/// The part of a `switch` for one constructor.
#[cycle(block)]
#[derive(Debug, Drop)]
pub struct Arm {
    pub cons: Cons,
    pub body: Block,
    /// The place of the constructor.
    pub span: Span,
}

impl Arm {
    #[cycle(copy)]
    pub fn copy(&self, alloc: Global) -> Result<Arm, AllocError>
        ensures { IfOk result (λ arm. arm ≡ self.now) }
    {
        Ok(Arm {
            cons: self.cons.copy(alloc)?,
            body: self.body.copy(alloc)?,
            span: self.span,
        })
    }

    /// Whether the two are the same arm, at the same places.
    #[cycle(same)]
    pub fn same(&self, other: &Arm) -> bool
        ensures { IsTrue result ↔ (arm_seen self.now ≡ arm_seen other.now) }
    {
        self.cons.same(&other.cons) && self.body.same(&other.body) && self.span == other.span
    }
}

/// A state of an automaton.
#[cycle(block)]
#[derive(Debug, Drop)]
pub struct State {
    pub name: Name,
    pub body: Block,
    /// The weak transitions, in order: they choose the state of the next instant.
    pub until: Vec<Trans>,
    /// The strong transitions, in order: they choose the state of this instant.
    pub unless: Vec<Trans>,
    /// The place of the name.
    pub span: Span,
}

impl State {
    #[cycle(copy)]
    pub fn copy(&self, alloc: Global) -> Result<State, AllocError>
        ensures { IfOk result (λ state. state_seen state ≡ state_seen self.now) }
    {
        Ok(State {
            name: self.name.copy(alloc)?,
            body: self.body.copy(alloc)?,
            until: copy_transitions(alloc, &self.until)?,
            unless: copy_transitions(alloc, &self.unless)?,
            span: self.span,
        })
    }

    /// Whether the two are the same state, at the same places.
    #[cycle(same)]
    pub fn same(&self, other: &State) -> bool
        ensures { IsTrue result ↔ (state_seen self.now ≡ state_seen other.now) }
    {
        self.name.same(&other.name)
            && self.body.same(&other.body)
            && same_transitions(&self.until, &other.until)
            && same_transitions(&self.unless, &other.unless)
            && self.span == other.span
    }
}

/// A transition of an automaton. Its span begins at its first token.
#[derive(Debug, Drop)]
pub struct Trans {
    pub cond: Expr,
    /// Whether the target is entered afresh (`then`), or goes on where it was left (`continue`).
    pub restart: bool,
    pub target: Name,
    pub span: Span,
}

impl Trans {
    pub fn copy(&self, alloc: Global) -> Result<Trans, AllocError>
        ensures { IfOk result (λ transition. transition ≡ self.now) }
    {
        Ok(Trans {
            cond: self.cond.copy(alloc)?,
            restart: self.restart,
            target: self.target.copy(alloc)?,
            span: self.span,
        })
    }

    /// Whether the two are the same transition, at the same place.
    pub fn same(&self, other: &Trans) -> bool
        ensures { IsTrue result ↔ (self.now ≡ other.now) }
    {
        self.cond.same(&other.cond)
            && self.restart == other.restart
            && self.target.same(&other.target)
            && self.span == other.span
    }
}

#[cycle(copy)]
#[tactic(auto, using(crate::proofs::Rules::parts_of_blocks))]
fn copy_eqns(alloc: Global, eqns: &[Eqn]) -> Result<Vec<Eqn>, AllocError>
    ensures { IfOk result (λ copies. map eqn_seen copies.items ≡ map eqn_seen eqns.now) }
{
    let mut copies = Vec::new(alloc);
    for eqn in eqns {
        copies.push(eqn.copy(alloc)?)?;
    }
    Ok(copies)
}

#[cycle(copy)]
#[tactic(auto, using(crate::proofs::Rules::parts_of_blocks))]
fn copy_arms(alloc: Global, arms: &[Arm]) -> Result<Vec<Arm>, AllocError>
    ensures { IfOk result (λ copies. copies.items ≡ arms.now) }
{
    let mut copies = Vec::new(alloc);
    for arm in arms {
        copies.push(arm.copy(alloc)?)?;
    }
    Ok(copies)
}

#[cycle(copy)]
#[tactic(auto, using(crate::proofs::Rules::parts_of_blocks))]
fn copy_states(alloc: Global, states: &[State]) -> Result<Vec<State>, AllocError>
    ensures { IfOk result (λ copies. map state_seen copies.items ≡ map state_seen states.now) }
{
    let mut copies = Vec::new(alloc);
    for state in states {
        copies.push(state.copy(alloc)?)?;
    }
    Ok(copies)
}

/// A copy of each transition, in order.
pub fn copy_transitions(alloc: Global, transitions: &[Trans]) -> Result<Vec<Trans>, AllocError>
    ensures { IfOk result (λ copies. copies.items ≡ transitions.now) }
{
    let mut copies = Vec::new(alloc);
    for transition in transitions {
        copies.push(transition.copy(alloc)?)?;
    }
    Ok(copies)
}

/// A copy of the left side of an equation.
pub fn copy_left(alloc: Global, names: &[(Name, Span)]) -> Result<Vec<(Name, Span)>, AllocError>
    ensures { IfOk result (λ copies. copies.items ≡ names.now) }
{
    let mut copies = Vec::new(alloc);
    for (name, span) in names {
        copies.push((name.copy(alloc)?, *span))?;
    }
    Ok(copies)
}

#[cycle(same)]
#[tactic(auto, using(crate::proofs::Rules::parts_of_blocks))]
fn same_eqns(eqns: &[Eqn], others: &[Eqn]) -> bool
    ensures { IsTrue result ↔ (map eqn_seen eqns.now ≡ map eqn_seen others.now) }
{
    if eqns.len() != others.len() {
        return false;
    }
    for i in 0..eqns.len() {
        if !eqns[i].same(&others[i]) {
            return false;
        }
    }
    true
}

#[cycle(same)]
#[tactic(auto, using(crate::proofs::Rules::parts_of_blocks))]
fn same_arms(arms: &[Arm], others: &[Arm]) -> bool
    ensures { IsTrue result ↔ (map arm_seen arms.now ≡ map arm_seen others.now) }
{
    if arms.len() != others.len() {
        return false;
    }
    for i in 0..arms.len() {
        if !arms[i].same(&others[i]) {
            return false;
        }
    }
    true
}

#[cycle(same)]
#[tactic(auto, using(crate::proofs::Rules::parts_of_blocks))]
fn same_states(states: &[State], others: &[State]) -> bool
    ensures { IsTrue result ↔ (map state_seen states.now ≡ map state_seen others.now) }
{
    if states.len() != others.len() {
        return false;
    }
    for i in 0..states.len() {
        if !states[i].same(&others[i]) {
            return false;
        }
    }
    true
}

fn same_transitions(transitions: &[Trans], others: &[Trans]) -> bool
    ensures { IsTrue result ↔ (transitions.now ≡ others.now) }
{
    if transitions.len() != others.len() {
        return false;
    }
    for i in 0..transitions.len() {
        if !transitions[i].same(&others[i]) {
            return false;
        }
    }
    true
}

fn same_names(names: &[(Name, Span)], others: &[(Name, Span)]) -> bool
    ensures { IsTrue result ↔ (names.now ≡ others.now) }
{
    if names.len() != others.len() {
        return false;
    }
    for i in 0..names.len() {
        let (name, span) = &names[i];
        let (other_name, other_span) = &others[i];
        if !(name.same(other_name) && span == other_span) {
            return false;
        }
    }
    true
}
