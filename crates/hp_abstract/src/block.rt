//! The wires of blocks.
ghost use Rattle.std.specs.Prelude.{◌≡◌, map, IfOk, OnOk};
ghost use Rattle.hp_tree.specs.Blocks.{arms_of, eqns_of, states_of};
ghost use Rattle.hp_tree.specs.BlockView.{arm_seen, eqn_seen, state_seen};
ghost use Rattle.hp_drawing.specs.DrawnBlocks as drawn;
ghost use Rattle.hp_drawing.specs.Scopes as scopes;
ghost use Rattle.hp_drawing.specs.Seen.{sketch_of};
ghost use Rattle.hp_abstract.specs.Seen.{scope_of, told_in, words_in};

use crate::call::Callees;
use crate::definition::draw_definition;
use crate::expression::draw;
use crate::layers::{enter, hide, join, read_by_hidden, unhide};
use crate::scope::Scope;
use crate::table::Tables;
use crate::words::Words;
use hp_circuit::Shape;
use hp_drawing::{Draft, Entered, Jump, Lines, Place, Rests, TRUE};
use hp_tree::{Arm, Block, Cons, Decl, Eqn, Expr, State, Trans};
use std::alloc::AllocError;

/// Where the first transition goes whose condition holds.
#[tactic(auto, using(crate::proofs::Rules::rows))]
fn draw_jump<'a, C: Callees>(
    callees: &C,
    tables: &Tables<'a>,
    scope: &Scope<'a>,
    place: Place,
    words: &Words<'a>,
    transitions: &'a [Trans],
    none: Jump,
    draft: &mut Draft,
) -> Result<Jump, AllocError>
    ensures sketch { OnOk result (sketch_of draft.new ≡ (drawn.drawn_jump (told_in tables.now) C.brings (scope_of scope.now) place (words_in words.now) transitions.now none (sketch_of draft.old)).1) }
    ensures jump { IfOk result (λ j. j ≡ (drawn.drawn_jump (told_in tables.now) C.brings (scope_of scope.now) place (words_in words.now) transitions.now none (sketch_of draft.old)).0) }
{
    let jump = Jump::hole(draft, words.lines.shape)?;
    let mut rest = jump;
    for transition in transitions {
        let condition = draw(callees, tables, scope, place, &transition.cond, draft)?;
        rest = words.add(rest, condition.wire, transition, draft)?;
    }
    rest.end(draft, none)?;
    Ok(jump)
}

/// The strong transitions of a state, which are read outside of the automaton.
fn draw_strong<'a, C: Callees>(
    callees: &C,
    tables: &Tables<'a>,
    scope: &mut Scope<'a>,
    place: Place,
    words: &Words<'a>,
    state: &'a State,
    draft: &mut Draft,
) -> Result<Jump, AllocError>
    ensures sketch { OnOk result (sketch_of draft.new ≡ (drawn.drawn_strong (told_in tables.now) C.brings (scope_of scope.old) place (words_in words.now) state.now.unless.items (sketch_of draft.old)).1) }
    ensures jump { IfOk result (λ j. j ≡ (drawn.drawn_strong (told_in tables.now) C.brings (scope_of scope.old) place (words_in words.now) state.now.unless.items (sketch_of draft.old)).0) }
    ensures scope { OnOk result (scope_of scope.new ≡ (scope_of scope.old)) }
{
    let hidden = scope.pop();
    let strong = draw_jump(
        callees,
        tables,
        scope,
        place,
        words,
        &state.unless,
        words.lines.selected,
        draft,
    )?;
    scope.put_back(hidden)?;
    Ok(strong)
}

/// The weak transitions of a state, which are read in its body.
fn draw_weak<'a, C: Callees>(
    callees: &C,
    tables: &Tables<'a>,
    scope: &Scope<'a>,
    within: Place,
    words: &Words<'a>,
    state: &'a State,
    draft: &mut Draft,
) -> Result<Jump, AllocError>
    ensures sketch { OnOk result (sketch_of draft.new ≡ (drawn.drawn_weak (told_in tables.now) C.brings (scope_of scope.now) within (words_in words.now) state.now.until.items (sketch_of draft.old)).1) }
    ensures jump { IfOk result (λ j. j ≡ (drawn.drawn_weak (told_in tables.now) C.brings (scope_of scope.now) within (words_in words.now) state.now.until.items (sketch_of draft.old)).0) }
{
    draw_jump(
        callees,
        tables,
        scope,
        within,
        words,
        &state.until,
        words.lines.stays(),
        draft,
    )
}

/// Whether an arm is taken, and where it is.
#[tactic(auto, unfolding(hp_drawing::specs::DrawnBlocks::enter_arm))]
fn enter_arm(
    tables: &Tables,
    place: Place,
    condition: usize,
    cons: &Cons,
    draft: &mut Draft,
) -> Result<(usize, Place), AllocError>
    ensures sketch { OnOk result (sketch_of draft.new ≡ (drawn.enter_arm (told_in tables.now) place condition cons.now (sketch_of draft.old)).2) }
    ensures taken { IfOk result (λ arm. arm.0 ≡ (drawn.enter_arm (told_in tables.now) place condition cons.now (sketch_of draft.old)).0) }
    ensures place { IfOk result (λ arm. arm.1 ≡ (drawn.enter_arm (told_in tables.now) place condition cons.now (sketch_of draft.old)).1) }
{
    let taken = tables.is(condition, cons, draft)?;
    let within = place.within(taken, draft)?;
    Ok((taken, within))
}

/// The condition of a `reset`, which is read by all names that it defines, and where its body is.
#[tactic(auto, unfolding(hp_drawing::specs::DrawnBlocks::reset_begin))]
fn begin_reset(scope: &Scope, place: Place, draft: &mut Draft) -> Result<(usize, Place), AllocError>
    ensures sketch { OnOk result (sketch_of draft.new ≡ (drawn.reset_begin (scope_of scope.now) place (sketch_of draft.old)).2) }
    ensures condition { IfOk result (λ inside. inside.0 ≡ (drawn.reset_begin (scope_of scope.now) place (sketch_of draft.old)).0) }
    ensures place { IfOk result (λ inside. inside.1 ≡ (drawn.reset_begin (scope_of scope.now) place (sketch_of draft.old)).1) }
{
    let condition = draft.hole(Shape::Truth)?;
    read_by_hidden(scope, condition, draft)?;
    let inside = place.reset(condition, draft)?;
    Ok((condition, inside))
}

/// Whether a state is taken, where it is there, and where its body is.
#[tactic(auto, unfolding(hp_drawing::specs::DrawnBlocks::enter_state))]
fn enter_state(
    lines: Lines,
    place: Place,
    number: usize,
    draft: &mut Draft,
) -> Result<Entered, AllocError>
    ensures sketch { OnOk result (sketch_of draft.new ≡ (drawn.enter_state lines place number (sketch_of draft.old)).1) }
    ensures entered { IfOk result (λ entered. entered ≡ (drawn.enter_state lines place number (sketch_of draft.old)).0) }
{
    let taken = draft.is(lines.active.state, number)?;
    let place = place.within(taken, draft)?;
    let body = place.reset(lines.active.restart, draft)?;
    Ok(Entered { taken, place, body })
}

/// The jumps of a state are added to those of the automaton.
#[tactic(auto, unfolding(hp_drawing::specs::DrawnBlocks::leave_state))]
fn leave_state(
    lines: Lines,
    number: usize,
    taken: usize,
    strong: Jump,
    weak: Jump,
    rests: Rests,
    draft: &mut Draft,
) -> Result<Rests, AllocError>
    ensures sketch { OnOk result (sketch_of draft.new ≡ (drawn.leave_state lines number taken strong weak rests (sketch_of draft.old)).1) }
    ensures rests { IfOk result (λ left. left ≡ (drawn.leave_state lines number taken strong weak rests (sketch_of draft.old)).0) }
{
    let selected = draft.is(lines.selected.state, number)?;
    let strong = rests.strong.add(draft, lines.shape, selected, strong)?;
    let weak = rests.weak.add(draft, lines.shape, taken, weak)?;
    Ok(Rests { strong, weak })
}

/// A block. Its names stay in the scope.
#[cycle(draw)]
#[tactic(auto, using(crate::proofs::Rules::lines))]
pub fn draw_block<'a, C: Callees>(
    callees: &C,
    tables: &Tables<'a>,
    scope: &mut Scope<'a>,
    place: Place,
    block: &'a Block,
    draft: &mut Draft,
) -> Result<(), AllocError>
    ensures sketch { OnOk result (sketch_of draft.new ≡ (drawn.drawn_block (told_in tables.now) C.brings (scope_of scope.old) place block.now (sketch_of draft.old)).1) }
    ensures scope { OnOk result (scope_of scope.new ≡ (drawn.drawn_block (told_in tables.now) C.brings (scope_of scope.old) place block.now (sketch_of draft.old)).0) }
    ensures around { OnOk result (scopes.leave (scope_of scope.new) ≡ (scope_of scope.old)) }
{
    enter(tables, scope, place, block, draft)?;
    draw_eqns(
        callees,
        tables,
        scope,
        place,
        &block.locals,
        &block.eqns,
        draft,
    )
}

/// The equations of a block with these declarations.
#[cycle(draw)]
#[tactic(auto, using(crate::proofs::Rules::lines))]
fn draw_eqns<'a, C: Callees>(
    callees: &C,
    tables: &Tables<'a>,
    scope: &mut Scope<'a>,
    place: Place,
    locals: &'a [Decl],
    eqns: &'a [Eqn],
    draft: &mut Draft,
) -> Result<(), AllocError>
    ensures sketch { OnOk result (sketch_of draft.new ≡ drawn.drawn_eqns (told_in tables.now) C.brings (scope_of scope.old) place locals.now (eqns_of (map eqn_seen eqns.now)) (sketch_of draft.old)) }
    ensures scope { OnOk result (scope_of scope.new ≡ (scope_of scope.old)) }
{
    for eqn in eqns {
        draw_eqn(callees, tables, scope, place, locals, eqn, draft)?;
    }
    Ok(())
}

#[cycle(draw)]
#[tactic(auto, using(crate::proofs::Rules::lines))]
fn draw_eqn<'a, C: Callees>(
    callees: &C,
    tables: &Tables<'a>,
    scope: &mut Scope<'a>,
    place: Place,
    locals: &'a [Decl],
    eqn: &'a Eqn,
    draft: &mut Draft,
) -> Result<(), AllocError>
    ensures sketch { OnOk result (sketch_of draft.new ≡ drawn.drawn_eqn (told_in tables.now) C.brings (scope_of scope.old) place locals.now (eqn_seen eqn.now) (sketch_of draft.old)) }
    ensures scope { OnOk result (scope_of scope.new ≡ (scope_of scope.old)) }
{
    match eqn {
        Eqn::Def {
            span: _,
            names,
            right,
        } => draw_definition(callees, tables, scope, place, locals, names, right, draft),
        Eqn::Switch {
            span: _,
            cond,
            arms,
        } => draw_switch(callees, tables, scope, place, eqn, cond, arms, draft),
        Eqn::Reset {
            span: _,
            body,
            cond,
        } => draw_reset(callees, tables, scope, place, eqn, body, cond, draft),
        Eqn::Automaton { span: _, states } => {
            draw_automaton(callees, tables, scope, place, eqn, states, draft)
        }
    }
}

/// A `switch`, whose condition stands before its arms.
#[cycle(draw)]
#[tactic(auto, using(crate::proofs::Rules::lines))]
fn draw_switch<'a, C: Callees>(
    callees: &C,
    tables: &Tables<'a>,
    scope: &mut Scope<'a>,
    place: Place,
    eqn: &'a Eqn,
    cond: &'a Expr,
    arms: &'a [Arm],
    draft: &mut Draft,
) -> Result<(), AllocError>
    ensures sketch { OnOk result (sketch_of draft.new ≡ drawn.drawn_switch (told_in tables.now) C.brings (scope_of scope.old) place (eqn_seen eqn.now) cond.now (arms_of (map arm_seen arms.now)) (sketch_of draft.old)) }
    ensures scope { OnOk result (scope_of scope.new ≡ (scope_of scope.old)) }
{
    let condition = draw(callees, tables, scope, place, cond, draft)?;
    hide(tables, scope, eqn)?;
    draw_arms(callees, tables, scope, place, condition.wire, arms, draft)?;
    unhide(scope, draft)
}

#[cycle(draw)]
#[tactic(auto, using(crate::proofs::Rules::lines))]
fn draw_arms<'a, C: Callees>(
    callees: &C,
    tables: &Tables<'a>,
    scope: &mut Scope<'a>,
    place: Place,
    condition: usize,
    arms: &'a [Arm],
    draft: &mut Draft,
) -> Result<(), AllocError>
    ensures sketch { OnOk result (sketch_of draft.new ≡ (drawn.drawn_arms (told_in tables.now) C.brings (scope_of scope.old) place condition (arms_of (map arm_seen arms.now)) (sketch_of draft.old)).1) }
    ensures scope { OnOk result (scope_of scope.new ≡ (drawn.drawn_arms (told_in tables.now) C.brings (scope_of scope.old) place condition (arms_of (map arm_seen arms.now)) (sketch_of draft.old)).0) }
    ensures around { OnOk result (scopes.pop_values (scope_of scope.new) ≡ scopes.pop_values (scope_of scope.old)) }
{
    for arm in arms {
        let (taken, within) = enter_arm(tables, place, condition, &arm.cons, draft)?;
        draw_block(callees, tables, scope, within, &arm.body, draft)?;
        join(scope, taken, draft)?;
    }
    Ok(())
}

/// A `reset`, whose condition stands behind its body, and is read by all names that it defines.
#[cycle(draw)]
#[tactic(auto, using(crate::proofs::Rules::lines))]
fn draw_reset<'a, C: Callees>(
    callees: &C,
    tables: &Tables<'a>,
    scope: &mut Scope<'a>,
    place: Place,
    eqn: &'a Eqn,
    body: &'a Block,
    cond: &'a Expr,
    draft: &mut Draft,
) -> Result<(), AllocError>
    ensures sketch { OnOk result (sketch_of draft.new ≡ drawn.drawn_reset (told_in tables.now) C.brings (scope_of scope.old) place (eqn_seen eqn.now) body.now cond.now (sketch_of draft.old)) }
    ensures scope { OnOk result (scope_of scope.new ≡ (scope_of scope.old)) }
{
    hide(tables, scope, eqn)?;
    let (condition, inside) = begin_reset(scope, place, draft)?;
    draw_block(callees, tables, scope, inside, body, draft)?;
    join(scope, TRUE, draft)?;
    unhide(scope, draft)?;
    let value = draw(callees, tables, scope, place, cond, draft)?;
    draft.define(condition, value)
}

/// A state: its body, its weak transitions in it, and its strong ones.
#[cycle(draw)]
#[tactic(auto, using(crate::proofs::Rules::lines))]
fn draw_state<'a, C: Callees>(
    callees: &C,
    tables: &Tables<'a>,
    scope: &mut Scope<'a>,
    place: Place,
    words: &Words<'a>,
    number: usize,
    state: &'a State,
    rests: Rests,
    draft: &mut Draft,
) -> Result<Rests, AllocError>
    ensures sketch { OnOk result (sketch_of draft.new ≡ (drawn.drawn_state (told_in tables.now) C.brings (scope_of scope.old) place (words_in words.now) number (state_seen state.now) rests (sketch_of draft.old)).2) }
    ensures scope { OnOk result (scope_of scope.new ≡ (drawn.drawn_state (told_in tables.now) C.brings (scope_of scope.old) place (words_in words.now) number (state_seen state.now) rests (sketch_of draft.old)).1) }
    ensures rests { IfOk result (λ left. left ≡ (drawn.drawn_state (told_in tables.now) C.brings (scope_of scope.old) place (words_in words.now) number (state_seen state.now) rests (sketch_of draft.old)).0) }
    ensures around { OnOk result (scopes.pop_values (scope_of scope.new) ≡ scopes.pop_values (scope_of scope.old)) }
{
    let entered = enter_state(words.lines, place, number, draft)?;
    draw_block(callees, tables, scope, entered.body, &state.body, draft)?;
    let weak = draw_weak(callees, tables, scope, entered.place, words, state, draft)?;
    join(scope, entered.taken, draft)?;
    let strong = draw_strong(callees, tables, scope, place, words, state, draft)?;
    leave_state(
        words.lines,
        number,
        entered.taken,
        strong,
        weak,
        rests,
        draft,
    )
}

/// All states, and the jump that is remembered.
#[cycle(draw)]
#[tactic(auto, using(crate::proofs::Rules::lines))]
fn draw_states<'a, C: Callees>(
    callees: &C,
    tables: &Tables<'a>,
    scope: &mut Scope<'a>,
    place: Place,
    words: &Words<'a>,
    states: &'a [State],
    draft: &mut Draft,
) -> Result<(), AllocError>
    ensures sketch { OnOk result (sketch_of draft.new ≡ (drawn.drawn_all_states (told_in tables.now) C.brings (scope_of scope.old) place (words_in words.now) (states_of (map state_seen states.now)) (sketch_of draft.old)).1) }
    ensures scope { OnOk result (scope_of scope.new ≡ (drawn.drawn_all_states (told_in tables.now) C.brings (scope_of scope.old) place (words_in words.now) (states_of (map state_seen states.now)) (sketch_of draft.old)).0) }
    ensures around { OnOk result (scopes.pop_values (scope_of scope.new) ≡ scopes.pop_values (scope_of scope.old)) }
{
    let lines = words.lines;
    let next = Jump::hole(draft, lines.shape)?;
    let mut rests = Rests {
        strong: lines.active,
        weak: next,
    };
    for i in 0..states.len() {
        let state = &states[i];
        rests = draw_state(callees, tables, scope, place, words, i, state, rests, draft)?;
    }
    lines.end(rests, draft)?;
    lines.take(place, next, draft)
}

/// An automaton.
#[cycle(draw)]
#[tactic(auto, using(crate::proofs::Rules::lines))]
fn draw_automaton<'a, C: Callees>(
    callees: &C,
    tables: &Tables<'a>,
    scope: &mut Scope<'a>,
    place: Place,
    eqn: &'a Eqn,
    states: &'a [State],
    draft: &mut Draft,
) -> Result<(), AllocError>
    ensures sketch { OnOk result (sketch_of draft.new ≡ drawn.drawn_automaton (told_in tables.now) C.brings (scope_of scope.old) place (eqn_seen eqn.now) (states_of (map state_seen states.now)) (sketch_of draft.old)) }
    ensures scope { OnOk result (scope_of scope.new ≡ (scope_of scope.old)) }
{
    hide(tables, scope, eqn)?;
    let words = Words::new(tables.alloc, states, place, draft)?;
    draw_states(callees, tables, scope, place, &words, states, draft)?;
    unhide(scope, draft)
}
