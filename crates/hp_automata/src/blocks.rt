//! Blocks without automata.
ghost use Rattle.std.specs.Prelude.{◌≡◌, ◌+◌, ◌-◌, [], ◌∷◌, length, take, map, IfOk, OnOk};
ghost use Rattle.hp_tree.specs.Blocks.{eqns_of, arms_of, states_of, automaton};
ghost use Rattle.hp_tree.specs.BlockView.{eqn_seen, arm_seen, state_seen};
ghost use Rattle.hp_tables.specs.Defining.Names.{names_of_arms};
ghost use Rattle.hp_automata.specs.Names.{once};
ghost use Rattle.hp_automata.specs.Lowering.{transition_locals, inner, idle, state_eqns, lowered_block, lowered_eqns, lowered_eqn, lowered_arms, lowered_states, lowered_body};
ghost use Rattle.hp_automata.specs.declared.new_names.Word.TheVariants.{Weak};
ghost use Rattle.hp_automata.specs.Renaming.{renamed_decls};
ghost use Rattle.hp_automata.specs.Inside.{locals_of, declared_in, lowered_inside, lowered_arm, frame_block, body_inside};
ghost use Rattle.hp_automata.specs.Held.{frame_seen, said};
ghost use Rattle.hp_automata.specs.Lists.{names_seen, with_more, front};

use crate::around::{Around, Enums, Layer, States, declare};
use crate::defined::names_of_arms;
use crate::definitions::{constant, push_eqn};
use crate::frame::Frame;
use crate::kept::add_kept;
use crate::new_names::Word;
use crate::states::{add_choosing, add_frame_eqns, add_switch, add_weak, frame_locals, idle};
use crate::transitions::add_transition_locals;
use hp_base::{Const, Name, Span};
use hp_tables::renaming::{rename_decls, rename_expr, rename_left};
use hp_tree::{Arm, Block, Decl, Eqn, State, Trans};
use std::alloc::{AllocError, Global};

/// Puts the variables of a block in scope.
fn enter<'a>(around: &mut Around<'a>, block: &'a Block) -> Result<(), AllocError>
    ensures types { OnOk result (around.new.types ≡ declared_in around.old.types block.now) }
    ensures layers { OnOk result (around.new.layers.items ≡ around.old.layers.items) }
{
    declare(&mut around.types, &block.locals)
}

/// Makes a state the innermost layer.
fn push_layer<'a>(
    alloc: Global,
    layers: &mut Vec<Layer<'a>>,
    frame: &Frame<'a>,
    number: u64,
) -> Result<(), AllocError>
    ensures layers { OnOk result (front layers.new.items ≡ layers.old.items) }
    ensures said { OnOk result (said layers.new.items ≡ inner (said layers.old.items) (frame_seen frame.now) number) }
    ensures depth { OnOk result (length layers.new.items ≡ length layers.old.items + 1) }
{
    let layer = Layer::new(alloc, &frame.names.names, frame.depth, number)?;
    layers.push(layer)?;
    Ok(())
}

/// Takes the innermost layer away.
#[tactic(auto, using(crate::proofs::Rules::left))]
fn leave_layer(layers: &mut Vec<Layer>)
    ensures { layers.new.items ≡ front layers.old.items }
{
    layers.pop();
}

/// A block without automata. It also defines such of the names as it left to their last values.
#[cycle(lower)]
#[tactic(auto, using(crate::proofs::Rules::lowered))]
pub fn lower_block<'a>(
    alloc: Global,
    enums: &Enums<'a>,
    around: &mut Around<'a>,
    span: Span,
    names: &[&'a Name],
    block: &'a Block,
) -> Result<Block, AllocError>
    ensures block { IfOk result (λ other. other ≡ lowered_block enums.now (said around.old.layers.items) around.old.types (length around.old.layers.items) span (names_seen names.now) block.now) }
    ensures types { OnOk result (around.new.types ≡ around.old.types) }
    ensures layers { OnOk result (around.new.layers.items ≡ around.old.layers.items) }
{
    let mark = around.types.len();
    enter(around, block)?;
    let other = lower_inside(alloc, enums, around, span, names, block)?;
    around.types.shrink(mark);
    Ok(other)
}

/// A block whose variables are in scope.
#[cycle(lower)]
#[tactic(auto, using(crate::proofs::Rules::lowered))]
fn lower_inside<'a>(
    alloc: Global,
    enums: &Enums<'a>,
    around: &mut Around<'a>,
    span: Span,
    names: &[&'a Name],
    block: &'a Block,
) -> Result<Block, AllocError>
    ensures block { IfOk result (λ other. other ≡ lowered_inside enums.now (said around.old.layers.items) around.old.types (length around.old.layers.items) span (names_seen names.now) block.now) }
    ensures types { OnOk result (around.new.types ≡ around.old.types) }
    ensures layers { OnOk result (around.new.layers.items ≡ around.old.layers.items) }
{
    let locals = rename_decls(
        alloc,
        &States {
            layers: &around.layers,
        },
        &block.locals,
    )?;
    let mut eqns = Vec::new(alloc);
    add_lowered(alloc, enums, around, &block.eqns, &mut eqns)?;
    add_kept(alloc, &around.layers, span, names, block, &mut eqns)?;
    Ok(Block { locals, eqns })
}

/// Adds the equations without automata, in order.
#[cycle(lower)]
#[tactic(auto, using(crate::proofs::Rules::lowered))]
fn add_lowered<'a>(
    alloc: Global,
    enums: &Enums<'a>,
    around: &mut Around<'a>,
    eqns: &'a [Eqn],
    into: &mut Vec<Eqn>,
) -> Result<(), AllocError>
    ensures eqns { OnOk result (map eqn_seen into.new.items ≡ with_more (map eqn_seen into.old.items) (lowered_eqns enums.now (said around.old.layers.items) around.old.types (length around.old.layers.items) (eqns_of (map eqn_seen eqns.now)))) }
    ensures types { OnOk result (around.new.types ≡ around.old.types) }
    ensures layers { OnOk result (around.new.layers.items ≡ around.old.layers.items) }
{
    for eqn in eqns {
        let other = lower_eqn(alloc, enums, around, eqn)?;
        push_eqn(into, other)?;
    }
    Ok(())
}

#[cycle(lower)]
#[tactic(auto, using(crate::proofs::Rules::lowered))]
fn lower_eqn<'a>(
    alloc: Global,
    enums: &Enums<'a>,
    around: &mut Around<'a>,
    eqn: &'a Eqn,
) -> Result<Eqn, AllocError>
    ensures eqn { IfOk result (λ other. eqn_seen other ≡ lowered_eqn enums.now (said around.old.layers.items) around.old.types (length around.old.layers.items) (eqn_seen eqn.now)) }
    ensures types { OnOk result (around.new.types ≡ around.old.types) }
    ensures layers { OnOk result (around.new.layers.items ≡ around.old.layers.items) }
{
    match eqn {
        Eqn::Def { span, names, right } => Ok(Eqn::Def {
            span: *span,
            names: rename_left(
                alloc,
                &States {
                    layers: &around.layers,
                },
                names,
            )?,
            right: rename_expr(
                alloc,
                &States {
                    layers: &around.layers,
                },
                right,
            )?,
        }),
        Eqn::Switch { span, cond, arms } => Ok(Eqn::Switch {
            span: *span,
            cond: rename_expr(
                alloc,
                &States {
                    layers: &around.layers,
                },
                cond,
            )?,
            arms: lower_arms(alloc, enums, around, arms)?,
        }),
        Eqn::Reset { span, body, cond } => Ok(Eqn::Reset {
            span: *span,
            cond: rename_expr(
                alloc,
                &States {
                    layers: &around.layers,
                },
                cond,
            )?,
            body: lower_block(alloc, enums, around, *span, &[], body)?,
        }),
        Eqn::Automaton { span, states } => lower_automaton(alloc, enums, around, *span, states),
    }
}

/// The arms of a `switch`; each defines all names that one of them defines.
#[cycle(lower)]
#[tactic(auto, using(crate::proofs::Rules::lowered))]
fn lower_arms<'a>(
    alloc: Global,
    enums: &Enums<'a>,
    around: &mut Around<'a>,
    arms: &'a [Arm],
) -> Result<Vec<Arm>, AllocError>
    ensures arms { IfOk result (λ others. arms_of (map arm_seen others.items) ≡ lowered_arms enums.now (said around.old.layers.items) around.old.types (length around.old.layers.items) (once (names_of_arms (arms_of (map arm_seen arms.now)))) (arms_of (map arm_seen arms.now))) }
    ensures types { OnOk result (around.new.types ≡ around.old.types) }
    ensures layers { OnOk result (around.new.layers.items ≡ around.old.layers.items) }
{
    let names = names_of_arms(alloc, arms)?;
    let others = lower_each(alloc, enums, around, &names.names, arms)?;
    Ok(others)
}

/// The arms of a `switch` that defines these names.
#[cycle(lower)]
#[tactic(auto, using(crate::proofs::Rules::lowered))]
fn lower_each<'a>(
    alloc: Global,
    enums: &Enums<'a>,
    around: &mut Around<'a>,
    names: &[&'a Name],
    arms: &'a [Arm],
) -> Result<Vec<Arm>, AllocError>
    ensures arms { IfOk result (λ others. arms_of (map arm_seen others.items) ≡ lowered_arms enums.now (said around.old.layers.items) around.old.types (length around.old.layers.items) (names_seen names.now) (arms_of (map arm_seen arms.now))) }
    ensures types { OnOk result (around.new.types ≡ around.old.types) }
    ensures layers { OnOk result (around.new.layers.items ≡ around.old.layers.items) }
{
    let mut others = Vec::new(alloc);
    for arm in arms {
        others.push(lower_arm(alloc, enums, around, names, arm)?)?;
    }
    Ok(others)
}

#[cycle(lower)]
#[tactic(auto, using(crate::proofs::Rules::lowered))]
fn lower_arm<'a>(
    alloc: Global,
    enums: &Enums<'a>,
    around: &mut Around<'a>,
    names: &[&'a Name],
    arm: &'a Arm,
) -> Result<Arm, AllocError>
    ensures arm { IfOk result (λ other. arm_seen other ≡ lowered_arm enums.now (said around.old.layers.items) around.old.types (length around.old.layers.items) (names_seen names.now) (arm_seen arm.now)) }
    ensures types { OnOk result (around.new.types ≡ around.old.types) }
    ensures layers { OnOk result (around.new.layers.items ≡ around.old.layers.items) }
{
    Ok(Arm {
        cons: arm.cons.copy(alloc)?,
        body: lower_block(alloc, enums, around, arm.span, names, &arm.body)?,
        span: arm.span,
    })
}

/// What stands for an automaton.
#[cycle(lower)]
#[tactic(auto, using(crate::proofs::Rules::lowered))]
fn lower_automaton<'a>(
    alloc: Global,
    enums: &Enums<'a>,
    around: &mut Around<'a>,
    span: Span,
    states: &'a [State],
) -> Result<Eqn, AllocError>
    ensures eqn { IfOk result (λ other. eqn_seen other ≡ lowered_eqn enums.now (said around.old.layers.items) around.old.types (length around.old.layers.items) (automaton span (states_of (map state_seen states.now)))) }
    ensures types { OnOk result (around.new.types ≡ around.old.types) }
    ensures layers { OnOk result (around.new.layers.items ≡ around.old.layers.items) }
{
    let frame = Frame::new(alloc, span, around.layers.len() as u64, states)?;
    let body = lower_frame(alloc, enums, around, &frame, states)?;
    Ok(Eqn::Reset {
        span,
        body,
        cond: constant(alloc, span, Const::B(false))?,
    })
}

/// The block that stands for an automaton.
#[cycle(lower)]
#[tactic(auto, using(crate::proofs::Rules::lowered))]
fn lower_frame<'a>(
    alloc: Global,
    enums: &Enums<'a>,
    around: &mut Around<'a>,
    frame: &Frame<'a>,
    states: &'a [State],
) -> Result<Block, AllocError>
    requires { frame.now.depth ≡ length around.old.layers.items }
    ensures block { IfOk result (λ other. other ≡ frame_block enums.now (said around.old.layers.items) around.old.types (frame_seen frame.now) (states_of (map state_seen states.now))) }
    ensures types { OnOk result (around.new.types ≡ around.old.types) }
    ensures layers { OnOk result (around.new.layers.items ≡ around.old.layers.items) }
{
    let locals = frame_locals(alloc, &around.types, frame, states)?;
    let mut eqns = Vec::new(alloc);
    add_frame_eqns(alloc, enums, around, frame, &mut eqns)?;
    add_states(alloc, enums, around, frame, states, &mut eqns)?;
    Ok(Block { locals, eqns })
}

/// Adds the equations of the states.
#[cycle(lower)]
#[tactic(auto, using(crate::proofs::Rules::lowered))]
fn add_states<'a>(
    alloc: Global,
    enums: &Enums<'a>,
    around: &mut Around<'a>,
    frame: &Frame<'a>,
    states: &'a [State],
    into: &mut Vec<Eqn>,
) -> Result<(), AllocError>
    requires { frame.now.depth ≡ length around.old.layers.items }
    ensures eqns { OnOk result (map eqn_seen into.new.items ≡ with_more (map eqn_seen into.old.items) (lowered_states enums.now (said around.old.layers.items) around.old.types (frame_seen frame.now) 0 (states_of (map state_seen states.now)))) }
    ensures types { OnOk result (around.new.types ≡ around.old.types) }
    ensures layers { OnOk result (around.new.layers.items ≡ around.old.layers.items) }
{
    for i in 0..states.len() {
        let state = &states[i];
        add_state(alloc, enums, around, frame, i as u64, state, into)?;
    }
    Ok(())
}

/// Adds the equations of a state.
#[cycle(lower)]
#[tactic(auto, using(crate::proofs::Rules::lowered))]
fn add_state<'a>(
    alloc: Global,
    enums: &Enums<'a>,
    around: &mut Around<'a>,
    frame: &Frame<'a>,
    number: u64,
    state: &'a State,
    into: &mut Vec<Eqn>,
) -> Result<(), AllocError>
    requires { frame.now.depth ≡ length around.old.layers.items }
    ensures eqns { OnOk result (map eqn_seen into.new.items ≡ with_more (map eqn_seen into.old.items) (state_eqns (said around.old.layers.items) (frame_seen frame.now) number state.now.unless.items (lowered_body enums.now (said around.old.layers.items) around.old.types (frame_seen frame.now) number state.now.body state.now.until.items) (idle enums.now around.old.types (frame_seen frame.now) number))) }
    ensures types { OnOk result (around.new.types ≡ around.old.types) }
    ensures layers { OnOk result (around.new.layers.items ≡ around.old.layers.items) }
{
    add_choosing(alloc, &around.layers, frame, number, &state.unless, into)?;
    let body = lower_body(alloc, enums, around, frame, number, state)?;
    let other = idle(alloc, enums, &around.types, frame, number)?;
    add_switch(alloc, frame, number, body, other, into)
}

/// The body of a state.
#[cycle(lower)]
#[tactic(auto, using(crate::proofs::Rules::lowered))]
fn lower_body<'a>(
    alloc: Global,
    enums: &Enums<'a>,
    around: &mut Around<'a>,
    frame: &Frame<'a>,
    number: u64,
    state: &'a State,
) -> Result<Block, AllocError>
    requires { frame.now.depth ≡ length around.old.layers.items }
    ensures block { IfOk result (λ other. other ≡ lowered_body enums.now (said around.old.layers.items) around.old.types (frame_seen frame.now) number state.now.body state.now.until.items) }
    ensures types { OnOk result (around.new.types ≡ around.old.types) }
    ensures layers { OnOk result (around.new.layers.items ≡ around.old.layers.items) }
{
    let mark = around.types.len();
    enter(around, &state.body)?;
    push_layer(alloc, &mut around.layers, frame, number)?;
    let block = &state.body;
    let body = lower_in_state(alloc, enums, around, frame, number, block, &state.until)?;
    leave_layer(&mut around.layers);
    around.types.shrink(mark);
    Ok(body)
}

/// The locals of the body of a state with such weak transitions.
fn body_locals(
    alloc: Global,
    layers: &[Layer<'_>],
    frame: &Frame<'_>,
    number: u64,
    block: &Block,
    until: &[Trans],
) -> Result<Vec<Decl>, AllocError>
    ensures { IfOk result (λ locals. locals.items ≡ with_more (renamed_decls (said layers.now) (locals_of block.now)) (transition_locals (frame_seen frame.now) Weak number 0 until.now)) }
{
    let mut locals = rename_decls(alloc, &States { layers }, &block.locals)?;
    add_transition_locals(alloc, frame, Word::Weak, number, until, &mut locals)?;
    Ok(locals)
}

/// The body of the state that is the innermost layer, with its variables in scope.
#[cycle(lower)]
#[tactic(auto, using(crate::proofs::Rules::lowered))]
fn lower_in_state<'a>(
    alloc: Global,
    enums: &Enums<'a>,
    around: &mut Around<'a>,
    frame: &Frame<'a>,
    number: u64,
    block: &'a Block,
    until: &'a [Trans],
) -> Result<Block, AllocError>
    ensures block { IfOk result (λ other. other ≡ body_inside enums.now (said around.old.layers.items) around.old.types (length around.old.layers.items) (frame_seen frame.now) number block.now until.now) }
    ensures types { OnOk result (around.new.types ≡ around.old.types) }
    ensures layers { OnOk result (around.new.layers.items ≡ around.old.layers.items) }
{
    let locals = body_locals(alloc, &around.layers, frame, number, block, until)?;
    let mut eqns = Vec::new(alloc);
    add_weak(alloc, &around.layers, frame, number, until, &mut eqns)?;
    add_lowered(alloc, enums, around, &block.eqns, &mut eqns)?;
    add_kept(
        alloc,
        &around.layers,
        frame.span,
        &frame.names.names,
        block,
        &mut eqns,
    )?;
    Ok(Block { locals, eqns })
}
