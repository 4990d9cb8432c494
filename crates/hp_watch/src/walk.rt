//! The equations of comparisons and calls, in the order of their places in the text.
//!
//! A comparison and a call are made behind their operands, the condition of a `reset` before its body, and the transitions of a state before its body. In the order of places it
//! is the other way round. Only a walk over the tree knows both orders.
ghost use Rattle.std.specs.Prelude.{◌≡◌, ◌≢◌, ◌+◌, ◌++◌, map, length, take, drop, IfOk, OnOk, MatchResult};
ghost use Rattle.hp_tree.specs.Blocks.{eqns_of, arms_of, states_of};
ghost use Rattle.hp_tree.specs.BlockView.{eqn_seen, arm_seen, state_seen};
ghost use Rattle.hp_tree.specs.Expressions.{exprs_of, parts_of};
ghost use Rattle.hp_watch.specs.Walk as made;

use crate::error::WatchErr;
use hp_flat::{FlatEqn, FlatRight};
use hp_obc::ObcOp;
use hp_tree::{Arm, Block, Cons, Contract, Eqn, Expr, ExprKind, Op2, State, Trans};
use std::alloc::{AllocError, Global};

/// How many comparisons are made for a state of an automaton besides those of its conditions and its body: of the jumps from it, of those that make it active, and of its
/// restart.
const COMPARED_FOR_A_STATE: usize = 5;

/// Whether the operator is a comparison.
fn is_comparison(op: ObcOp) -> bool
    ensures { result ≡ made.is_comparison op }
{
    match op {
        ObcOp::Eq | ObcOp::Ne | ObcOp::Lt | ObcOp::Le | ObcOp::Gt | ObcOp::Ge => true,
        _ => false,
    }
}

/// Whether the operator of the tree is a comparison.
fn compares(op: Op2) -> bool
    ensures { result ≡ made.compares op }
{
    match op {
        Op2::Eq | Op2::Ne | Op2::Lt | Op2::Le | Op2::Gt | Op2::Ge => true,
        _ => false,
    }
}

/// Whether an equation is that of a comparison or a call.
fn is_event(eqn: &FlatEqn) -> bool
    ensures { result ≡ made.is_event eqn.now.right }
{
    match &eqn.right {
        FlatRight::Op(op, _) => is_comparison(*op),
        FlatRight::Call { .. } => true,
        FlatRight::Register { .. } => false,
    }
}

/// The equations of comparisons and calls, by number, in the order in which they were made.
#[tactic(auto, using(crate::proofs::Rules::events))]
pub fn events_of(alloc: Global, eqns: &[FlatEqn]) -> Result<Vec<usize>, AllocError>
    ensures { IfOk result (λ events. events.items ≡ made.events_from 0 eqns.now) }
{
    let mut events = Vec::new(alloc);
    for i in 0..eqns.len() {
        if is_event(&eqns[i]) {
            events.push(i)?;
        }
    }
    Ok(events)
}

/// A walk over a part of the tree, beside the comparisons and calls that were made of it.
#[derive(Drop)]
struct Walk<'e> {
    alloc: Global,
    /// Those that were not met yet.
    left: &'e [usize],
    /// How many were asked for, met or lacking.
    asked: usize,
}

impl<'e> Walk<'e> {
    /// Leaves out so many. There is no memory for a tree in which so many are asked for that they have no number.
    fn skip(&mut self, count: usize) -> Result<(), AllocError>
        ensures left { OnOk result (self.new.left.now ≡ drop count self.old.left.now) }
        ensures asked { OnOk result (self.new.asked ≡ self.old.asked + count) }
    {
        self.asked = self.asked.checked_add(count).ok_or(AllocError)?;
        let left = self.left;
        self.left = if count < left.len() {
            &left[count..]
        } else {
            &[]
        };
        Ok(())
    }

    /// Adds the next comparison or call that was made, if there is one.
    fn meet(&mut self, into: &mut Vec<usize>) -> Result<(), AllocError>
        ensures found { OnOk result (into.new.items ≡ into.old.items ++ take 1 self.old.left.now) }
        ensures left { OnOk result (self.new.left.now ≡ drop 1 self.old.left.now) }
        ensures asked { OnOk result (self.new.asked ≡ self.old.asked + 1) }
    {
        if let Some(event) = self.left.first() {
            into.push(*event)?;
        }
        self.skip(1)
    }

    #[cycle(expr)]
    #[tactic(auto, using(crate::proofs::Rules::walks))]
    fn all(&mut self, exprs: &[Expr], into: &mut Vec<usize>) -> Result<(), AllocError>
        ensures found { OnOk result (into.new.items ≡ into.old.items ++ (made.walk_all (exprs_of exprs.now) self.old.left.now).0) }
        ensures left { OnOk result (self.new.left.now ≡ (made.walk_all (exprs_of exprs.now) self.old.left.now).1) }
        ensures asked { OnOk result (self.new.asked ≡ self.old.asked + made.in_exprs (exprs_of exprs.now)) }
    {
        for expr in exprs {
            self.expr(expr, into)?;
        }
        Ok(())
    }

    #[cycle(expr)]
    #[tactic(auto, using(crate::proofs::Rules::walks))]
    fn parts(&mut self, parts: &[(Cons, Expr)], into: &mut Vec<usize>) -> Result<(), AllocError>
        ensures found { OnOk result (into.new.items ≡ into.old.items ++ (made.walk_parts (parts_of parts.now) self.old.left.now).0) }
        ensures left { OnOk result (self.new.left.now ≡ (made.walk_parts (parts_of parts.now) self.old.left.now).1) }
        ensures asked { OnOk result (self.new.asked ≡ self.old.asked + made.in_parts (parts_of parts.now)) }
    {
        for (_, part) in parts {
            self.expr(part, into)?;
        }
        Ok(())
    }

    /// Two expressions, one behind the other.
    #[cycle(expr)]
    #[tactic(auto, using(crate::proofs::Rules::walks))]
    fn both(&mut self, a: &Expr, b: &Expr, into: &mut Vec<usize>) -> Result<(), AllocError>
        ensures found { OnOk result (into.new.items ≡ into.old.items ++ (made.both a.now b.now self.old.left.now).0) }
        ensures left { OnOk result (self.new.left.now ≡ (made.both a.now b.now self.old.left.now).1) }
        ensures asked { OnOk result (self.new.asked ≡ self.old.asked + (made.in_expr a.now + made.in_expr b.now)) }
    {
        self.expr(a, into)?;
        self.expr(b, into)
    }

    /// A comparison, which stands before what its operands have.
    #[cycle(expr)]
    #[tactic(auto, using(crate::proofs::Rules::walks))]
    fn comparison(&mut self, a: &Expr, b: &Expr, into: &mut Vec<usize>) -> Result<(), AllocError>
        ensures found { OnOk result (into.new.items ≡ into.old.items ++ (made.in_front (made.both a.now b.now self.old.left.now)).0) }
        ensures left { OnOk result (self.new.left.now ≡ (made.in_front (made.both a.now b.now self.old.left.now)).1) }
        ensures asked { OnOk result (self.new.asked ≡ self.old.asked + (made.in_expr a.now + made.in_expr b.now + 1)) }
    {
        let mut operands = Vec::new(self.alloc);
        self.both(a, b, &mut operands)?;
        self.meet(into)?;
        into.extend_from_slice(&operands)?;
        Ok(())
    }

    /// An operator on two expressions.
    #[cycle(expr)]
    #[tactic(auto, using(crate::proofs::Rules::walks))]
    fn two(&mut self, op: Op2, a: &Expr, b: &Expr, into: &mut Vec<usize>) -> Result<(), AllocError>
        ensures found { OnOk result (into.new.items ≡ into.old.items ++ (made.walk_two op a.now b.now self.old.left.now).0) }
        ensures left { OnOk result (self.new.left.now ≡ (made.walk_two op a.now b.now self.old.left.now).1) }
        ensures asked { OnOk result (self.new.asked ≡ self.old.asked + made.in_two op a.now b.now) }
    {
        if compares(op) {
            self.comparison(a, b, into)
        } else {
            self.both(a, b, into)
        }
    }

    /// A call, which stands before what its arguments have.
    #[cycle(expr)]
    #[tactic(auto, using(crate::proofs::Rules::walks))]
    fn call(&mut self, args: &[Expr], into: &mut Vec<usize>) -> Result<(), AllocError>
        ensures found { OnOk result (into.new.items ≡ into.old.items ++ (made.in_front (made.walk_all (exprs_of args.now) self.old.left.now)).0) }
        ensures left { OnOk result (self.new.left.now ≡ (made.in_front (made.walk_all (exprs_of args.now) self.old.left.now)).1) }
        ensures asked { OnOk result (self.new.asked ≡ self.old.asked + (made.in_exprs (exprs_of args.now) + 1)) }
    {
        let mut operands = Vec::new(self.alloc);
        self.all(args, &mut operands)?;
        self.meet(into)?;
        into.extend_from_slice(&operands)?;
        Ok(())
    }

    #[cycle(expr)]
    #[tactic(auto, using(crate::proofs::Rules::walks))]
    fn expr(&mut self, expr: &Expr, into: &mut Vec<usize>) -> Result<(), AllocError>
        ensures found { OnOk result (into.new.items ≡ into.old.items ++ (made.walk expr.now self.old.left.now).0) }
        ensures left { OnOk result (self.new.left.now ≡ (made.walk expr.now self.old.left.now).1) }
        ensures asked { OnOk result (self.new.asked ≡ self.old.asked + made.in_expr expr.now) }
    {
        match &*expr.kind {
            ExprKind::Const(_) => Ok(()),
            ExprKind::Name(_) => Ok(()),
            ExprKind::Last(_) => Ok(()),
            ExprKind::One(_, a) => self.expr(a, into),
            ExprKind::Pre(a) => self.expr(a, into),
            ExprKind::When(a, _, _) => self.expr(a, into),
            ExprKind::Two(op, a, b) => self.two(*op, a, b, into),
            ExprKind::Fby(a, b) => self.both(a, b, into),
            ExprKind::Arrow(a, b) => self.both(a, b, into),
            ExprKind::If(a, b, c) => {
                self.both(a, b, into)?;
                self.expr(c, into)
            }
            ExprKind::Merge(_, parts) => self.parts(parts, into),
            ExprKind::Call { args, .. } => self.call(args, into),
        }
    }

    #[tactic(auto, using(crate::proofs::Rules::walks))]
    fn conditions(&mut self, transitions: &[Trans], into: &mut Vec<usize>) -> Result<(), AllocError>
        ensures found { OnOk result (into.new.items ≡ into.old.items ++ (made.walk_conditions transitions.now self.old.left.now).0) }
        ensures left { OnOk result (self.new.left.now ≡ (made.walk_conditions transitions.now self.old.left.now).1) }
        ensures asked { OnOk result (self.new.asked ≡ self.old.asked + made.in_conditions transitions.now) }
    {
        for transition in transitions {
            self.expr(&transition.cond, into)?;
        }
        Ok(())
    }

    /// The conditions of a state, in the order of making: strong ones, and behind what else is compared for a state, weak ones.
    #[tactic(auto, using(crate::proofs::Rules::walks))]
    fn transitions(
        &mut self,
        state: &State,
        strong: &mut Vec<usize>,
        weak: &mut Vec<usize>,
    ) -> Result<(), AllocError>
        ensures strong { OnOk result (strong.new.items ≡ strong.old.items ++ (made.walk_strong (state_seen state.now) self.old.left.now).0) }
        ensures weak { OnOk result (weak.new.items ≡ weak.old.items ++ (made.walk_weak (state_seen state.now) self.old.left.now).0) }
        ensures left { OnOk result (self.new.left.now ≡ (made.walk_weak (state_seen state.now) self.old.left.now).1) }
        ensures asked { OnOk result (self.new.asked ≡ self.old.asked + made.in_transitions (state_seen state.now)) }
    {
        self.conditions(&state.unless, strong)?;
        self.skip(COMPARED_FOR_A_STATE)?;
        self.conditions(&state.until, weak)
    }

    /// A state: in the order of places its body stands first, then its weak transitions, then its strong ones.
    #[cycle(block)]
    #[tactic(auto, using(crate::proofs::Rules::walks))]
    fn state(&mut self, state: &State, into: &mut Vec<usize>) -> Result<(), AllocError>
        ensures found { OnOk result (into.new.items ≡ into.old.items ++ (made.walk_state (state_seen state.now) self.old.left.now).0) }
        ensures left { OnOk result (self.new.left.now ≡ (made.walk_state (state_seen state.now) self.old.left.now).1) }
        ensures asked { OnOk result (self.new.asked ≡ self.old.asked + made.in_state (state_seen state.now)) }
    {
        let mut strong = Vec::new(self.alloc);
        let mut weak = Vec::new(self.alloc);
        self.transitions(state, &mut strong, &mut weak)?;
        self.block(&state.body, into)?;
        into.extend_from_slice(&weak)?;
        into.extend_from_slice(&strong)?;
        Ok(())
    }

    #[cycle(block)]
    #[tactic(auto, using(crate::proofs::Rules::walks))]
    fn states(&mut self, states: &[State], into: &mut Vec<usize>) -> Result<(), AllocError>
        ensures found { OnOk result (into.new.items ≡ into.old.items ++ (made.walk_states (states_of (map state_seen states.now)) self.old.left.now).0) }
        ensures left { OnOk result (self.new.left.now ≡ (made.walk_states (states_of (map state_seen states.now)) self.old.left.now).1) }
        ensures asked { OnOk result (self.new.asked ≡ self.old.asked + made.in_states (states_of (map state_seen states.now))) }
    {
        for state in states {
            self.state(state, into)?;
        }
        Ok(())
    }

    #[cycle(block)]
    #[tactic(auto, using(crate::proofs::Rules::walks))]
    fn arms(&mut self, arms: &[Arm], into: &mut Vec<usize>) -> Result<(), AllocError>
        ensures found { OnOk result (into.new.items ≡ into.old.items ++ (made.walk_arms (arms_of (map arm_seen arms.now)) self.old.left.now).0) }
        ensures left { OnOk result (self.new.left.now ≡ (made.walk_arms (arms_of (map arm_seen arms.now)) self.old.left.now).1) }
        ensures asked { OnOk result (self.new.asked ≡ self.old.asked + made.in_arms (arms_of (map arm_seen arms.now))) }
    {
        for arm in arms {
            self.block(&arm.body, into)?;
        }
        Ok(())
    }

    /// A `reset`, whose condition stands behind its body.
    #[cycle(block)]
    #[tactic(auto, using(crate::proofs::Rules::walks))]
    fn reset(&mut self, body: &Block, cond: &Expr, into: &mut Vec<usize>) -> Result<(), AllocError>
        ensures found { OnOk result (into.new.items ≡ into.old.items ++ (made.walk_reset body.now cond.now self.old.left.now).0) }
        ensures left { OnOk result (self.new.left.now ≡ (made.walk_reset body.now cond.now self.old.left.now).1) }
        ensures asked { OnOk result (self.new.asked ≡ self.old.asked + (made.in_expr cond.now + made.in_block body.now)) }
    {
        let mut condition = Vec::new(self.alloc);
        self.expr(cond, &mut condition)?;
        self.block(body, into)?;
        into.extend_from_slice(&condition)?;
        Ok(())
    }

    #[cycle(block)]
    #[tactic(auto, using(crate::proofs::Rules::walks))]
    fn eqn(&mut self, eqn: &Eqn, into: &mut Vec<usize>) -> Result<(), AllocError>
        ensures found { OnOk result (into.new.items ≡ into.old.items ++ (made.walk_eqn (eqn_seen eqn.now) self.old.left.now).0) }
        ensures left { OnOk result (self.new.left.now ≡ (made.walk_eqn (eqn_seen eqn.now) self.old.left.now).1) }
        ensures asked { OnOk result (self.new.asked ≡ self.old.asked + made.in_eqn (eqn_seen eqn.now)) }
    {
        match eqn {
            Eqn::Def { right, .. } => self.expr(right, into),
            Eqn::Switch { cond, arms, .. } => {
                self.expr(cond, into)?;
                self.arms(arms, into)
            }
            Eqn::Reset { body, cond, .. } => self.reset(body, cond, into),
            Eqn::Automaton { states, .. } => self.states(states, into),
        }
    }

    #[cycle(block)]
    #[tactic(auto, using(crate::proofs::Rules::walks))]
    fn eqns(&mut self, eqns: &[Eqn], into: &mut Vec<usize>) -> Result<(), AllocError>
        ensures found { OnOk result (into.new.items ≡ into.old.items ++ (made.walk_eqns (eqns_of (map eqn_seen eqns.now)) self.old.left.now).0) }
        ensures left { OnOk result (self.new.left.now ≡ (made.walk_eqns (eqns_of (map eqn_seen eqns.now)) self.old.left.now).1) }
        ensures asked { OnOk result (self.new.asked ≡ self.old.asked + made.in_eqns (eqns_of (map eqn_seen eqns.now))) }
    {
        for eqn in eqns {
            self.eqn(eqn, into)?;
        }
        Ok(())
    }

    #[cycle(block)]
    #[tactic(auto, using(crate::proofs::Rules::walks))]
    fn block(&mut self, block: &Block, into: &mut Vec<usize>) -> Result<(), AllocError>
        ensures found { OnOk result (into.new.items ≡ into.old.items ++ (made.walk_block block.now self.old.left.now).0) }
        ensures left { OnOk result (self.new.left.now ≡ (made.walk_block block.now self.old.left.now).1) }
        ensures asked { OnOk result (self.new.asked ≡ self.old.asked + made.in_block block.now) }
    {
        self.eqns(&block.eqns, into)
    }

    /// What is assumed or enforced, if it is said.
    #[tactic(auto, using(crate::proofs::Rules::walks))]
    fn condition(&mut self, said: &Option<Expr>, into: &mut Vec<usize>) -> Result<(), AllocError>
        ensures found { OnOk result (into.new.items ≡ into.old.items ++ (made.walk_condition said.now self.old.left.now).0) }
        ensures left { OnOk result (self.new.left.now ≡ (made.walk_condition said.now self.old.left.now).1) }
        ensures asked { OnOk result (self.new.asked ≡ self.old.asked + made.in_condition said.now) }
    {
        match said {
            None => Ok(()),
            Some(expr) => self.expr(expr, into),
        }
    }

    /// A contract: its block, what it assumes, and what it enforces.
    #[tactic(auto, using(crate::proofs::Rules::walks))]
    fn contract(&mut self, contract: &Contract, into: &mut Vec<usize>) -> Result<(), AllocError>
        ensures found { OnOk result (into.new.items ≡ into.old.items ++ (made.walk_contract contract.now self.old.left.now).0) }
        ensures left { OnOk result (self.new.left.now ≡ (made.walk_contract contract.now self.old.left.now).1) }
        ensures asked { OnOk result (self.new.asked ≡ self.old.asked + made.in_contract contract.now) }
    {
        self.block(&contract.body, into)?;
        self.condition(&contract.assume, into)?;
        self.condition(&contract.enforce, into)
    }
}

/// The comparisons and calls of a block, in the order of places, of those that were made of it.
pub fn walk_block(alloc: Global, block: &Block, events: &[usize]) -> Result<Vec<usize>, WatchErr>
    ensures found { IfOk result (λ found. found.items ≡ (made.walk_block block.now events.now).0) }
    ensures fits { MatchResult result (λ _. made.in_block block.now ≡ length events.now) (λ e. e ≡ WatchErr.Misfit → made.in_block block.now ≢ length events.now) }
{
    let mut walk = Walk {
        alloc,
        left: events,
        asked: 0,
    };
    let mut found = Vec::new(alloc);
    walk.block(block, &mut found)?;
    if walk.asked != events.len() {
        return Err(WatchErr::Misfit);
    }
    Ok(found)
}

/// The comparisons of a contract, in the order of places: its block, what it assumes, and what it enforces.
pub fn walk_contract(
    alloc: Global,
    contract: &Contract,
    events: &[usize],
) -> Result<Vec<usize>, WatchErr>
    ensures found { IfOk result (λ found. found.items ≡ (made.walk_contract contract.now events.now).0) }
    ensures fits { MatchResult result (λ _. made.in_contract contract.now ≡ length events.now) (λ e. e ≡ WatchErr.Misfit → made.in_contract contract.now ≢ length events.now) }
{
    let mut walk = Walk {
        alloc,
        left: events,
        asked: 0,
    };
    let mut found = Vec::new(alloc);
    walk.contract(contract, &mut found)?;
    if walk.asked != events.len() {
        return Err(WatchErr::Misfit);
    }
    Ok(found)
}
