//! The points of a node, and what each reads.
ghost use Rattle.std.specs.Prelude.{◌≡◌, ◌+◌, ◌≤◌, slice_get, take, drop, [], ◌∷◌, ◌++◌, Some, None, codes, length, map, OnOk, IfOk};
ghost use Rattle.hp_tree.specs.BlockView.{eqn_seen, arm_seen, state_seen};
ghost use Rattle.hp_tree.specs.Blocks.{eqns_of, arms_of, states_of};
ghost use Rattle.hp_tree.specs.Meaning.{defines, controls_of, names_of as declared_names};
ghost use Rattle.hp_meaning.specs.declared.causal.point.PointKind.TheVariants.{Active, Next};
ghost use Rattle.hp_cause.specs.Facts.{stand, read, depend};
ghost use Rattle.hp_tables.specs.Defining.Layers.{numbered, says, says_numbers, says_seen, is_said, own_of, or_none, sight};
ghost use Rattle.hp_tables.specs.Defining.Names.{listed, names_in, names_of, outer_names};
ghost use Rattle.hp_cause.specs.Told.{facts_seen, names_seen, with_more, front};
ghost use Rattle.hp_cause.specs.Vertices.{calls_in, own_size, size_inside, size_of, size_of_all, size_of_arms, size_of_states, size_of_told, size_of_contract, size_of_tests, first_of_body, first_of_contract, size_of_node};
ghost use Rattle.hp_cause.specs.Gathering.{block_names, of_expr, of_left, of_lefts, vertices_of, in_list, of_definition, of_defined_name, of_name_if, of_defined, of_control, of_words, of_links, seen_in, seen_within, links_of, declared_with, of_inside, of_eqns, of_eqn, of_block, of_arms, of_state, of_states, of_told, of_contract, of_controls, seen_controls, own_sight, seen_declared, behind_controls, of_node};

use crate::around::Around;
use crate::clock::clock_names;
use crate::defined::add_defined;
use crate::expression::{Notes, add_clock, gather_expr, gather_tests, take_numbers};
use crate::fact::{Fact, depend, read, stand};
use crate::table::Locals;
use hp_base::{Name, Span};
use hp_meaning::causal::PointKind;
use hp_tables::defining::{Layer, declared_names, names_in, names_of, outer_names, sight};
use hp_tree::{Arm, Block, Contract, Decl, Eqn, Expr, Node, State, controls_of};
use std::alloc::{AllocError, Global};

/// What is known at a place of a node.
#[derive(Drop)]
pub struct Scope<'a> {
    /// The vertices of names, as blocks and control equations say them, the outermost first.
    pub values: Vec<Layer<'a>>,
    pub around: Around<'a>,
}

/// A name on a left side.
#[tactic(auto, using(crate::proofs::Rules::gathered))]
fn add_left<'a>(
    layers: &[Layer],
    control: Option<usize>,
    clock: &[&[u8]],
    name: &'a [u8],
    span: Span,
    facts: &mut Vec<Fact<'a>>,
) -> Result<(), AllocError>
    ensures { OnOk result (facts_seen facts.new.items ≡ with_more (facts_seen facts.old.items) (of_left (sight layers.now) control (names_seen clock.now) name.now span)) }
{
    let vertex = sight(layers, name);
    stand(PointKind::Def, name, span, vertex, facts)?;
    read(vertex, control, facts)?;
    add_clock(layers, clock, vertex, facts)
}

#[tactic(auto, using(crate::proofs::Rules::gathered_in_lists))]
fn add_lefts<'a>(
    layers: &[Layer],
    control: Option<usize>,
    clock: &[&[u8]],
    names: &'a [(Name, Span)],
    facts: &mut Vec<Fact<'a>>,
) -> Result<(), AllocError>
    ensures { OnOk result (facts_seen facts.new.items ≡ with_more (facts_seen facts.old.items) (of_lefts (sight layers.now) control (names_seen clock.now) names.now)) }
{
    for (name, span) in names {
        add_left(layers, control, clock, name.bytes(), *span, facts)?;
    }
    Ok(())
}

/// The vertex of a name, if it has one.
#[tactic(auto, using(crate::proofs::Rules::targeted))]
fn add_vertex(layers: &[Layer], name: &[u8], into: &mut Vec<usize>) -> Result<(), AllocError>
    ensures { OnOk result (into.new.items ≡ with_more into.old.items (in_list (sight layers.now name.now))) }
{
    if let Some(vertex) = sight(layers, name) {
        into.push(vertex)?;
    }
    Ok(())
}

/// The vertices of the names on a left side.
#[tactic(auto, using(crate::proofs::Rules::targeted))]
fn vertices_of(
    alloc: Global,
    layers: &[Layer],
    names: &[(Name, Span)],
) -> Result<Vec<usize>, AllocError>
    ensures { IfOk result (λ vertices. vertices.items ≡ vertices_of (sight layers.now) names.now) }
{
    let mut vertices = Vec::new(alloc);
    for (name, _) in names {
        add_vertex(layers, name.bytes(), &mut vertices)?;
    }
    Ok(vertices)
}

/// A definition, on this clock.
#[tactic(auto, using(crate::proofs::Rules::gathered))]
fn gather_on_clock<'a>(
    alloc: Global,
    layers: &[Layer],
    control: Option<usize>,
    clock: &[&'a [u8]],
    names: &'a [(Name, Span)],
    right: &'a Expr,
    notes: &mut Notes<'a>,
) -> Result<(), AllocError>
    ensures next { OnOk result (notes.new.next ≡ notes.old.next + calls_in right.now) }
    ensures facts { OnOk result (facts_seen notes.new.facts.items ≡ with_more (facts_seen notes.old.facts.items) (of_lefts (sight layers.now) control (names_seen clock.now) names.now ++ of_expr (sight layers.now) control (names_seen clock.now) (vertices_of (sight layers.now) names.now) notes.old.next right.now)) }
{
    let readers = vertices_of(alloc, layers, names)?;
    add_lefts(layers, control, clock, names, &mut notes.facts)?;
    gather_expr(alloc, layers, control, clock, &readers, right, notes)
}

fn gather_definition<'a>(
    alloc: Global,
    layers: &[Layer],
    control: Option<usize>,
    locals: &Locals<'a>,
    names: &'a [(Name, Span)],
    right: &'a Expr,
    notes: &mut Notes<'a>,
) -> Result<(), AllocError>
    ensures next { OnOk result (notes.new.next ≡ notes.old.next + calls_in right.now) }
    ensures facts { OnOk result (facts_seen notes.new.facts.items ≡ with_more (facts_seen notes.old.facts.items) (of_definition (sight layers.now) control locals.now.decls.now notes.old.next names.now right.now)) }
{
    let clock = clock_names(alloc, locals, names, right)?;
    gather_on_clock(alloc, layers, control, &clock, names, right, notes)
}

/// Each name reads its definition in a block, where these are its vertices outside of the equation and in the block.
#[tactic(auto, using(crate::proofs::Rules::gathered_in_lists))]
fn add_links_of(
    outer: &[Layer],
    own: &Layer,
    names: &[&Name],
    facts: &mut Vec<Fact>,
) -> Result<(), AllocError>
    ensures { OnOk result (facts_seen facts.new.items ≡ with_more (facts_seen facts.old.items) (of_links (sight outer.now) (own_of own.now) (names_seen names.now))) }
{
    for i in 0..names.len() {
        let name = names[i].bytes();
        read(sight(outer, name), own.number_of(name), facts)?;
    }
    Ok(())
}

/// The names of a control equation read their definitions in a block of it.
#[tactic(auto, using(crate::proofs::Rules::entered))]
fn add_links(
    alloc: Global,
    outer: &[Layer],
    own: &Layer,
    block: &Block,
    facts: &mut Vec<Fact>,
) -> Result<(), AllocError>
    ensures { OnOk result (facts_seen facts.new.items ≡ with_more (facts_seen facts.old.items) (of_links (sight outer.now) (own_of own.now) (outer_names block.now))) }
{
    let names = outer_names(alloc, block)?;
    add_links_of(outer, own, &names, facts)
}

/// The names that a block's equations define, numbered.
#[tactic(auto, using(crate::proofs::Rules::entered))]
fn own_layer<'a>(alloc: Global, block: &'a Block, next: &mut usize) -> Result<Layer<'a>, AllocError>
    ensures own { IfOk result (λ layer. says layer ≡ says_numbers next.old (block_names block.now)) }
    ensures next { OnOk result (next.new ≡ next.old + own_size block.now) }
{
    let names = names_in(alloc, &block.eqns)?;
    let first = take_numbers(next, names.len())?;
    Layer::numbered(alloc, &names, first)
}

/// What is known inside of an equation that defines these names: it hides them.
fn hidden_layer<'a>(alloc: Global, names: &[&'a Name]) -> Result<Layer<'a>, AllocError>
    ensures says { IfOk result (λ layer. says layer ≡ says_seen (names_seen names.now) (sight [])) }
    ensures listed { IfOk result (λ layer. is_said layer ≡ listed (names_seen names.now)) }
{
    let layer = Layer::seen(alloc, names, &[])?;
    Ok(layer)
}

/// The layers around the innermost one.
#[tactic(auto, using(crate::proofs::Rules::left))]
fn outside<'t, 'a>(layers: &'t [Layer<'a>]) -> &'t [Layer<'a>]
    ensures { result.now ≡ front layers.now }
{
    &layers[..layers.len().saturating_sub(1)]
}

/// Takes the innermost layer away.
#[tactic(auto, using(crate::proofs::Rules::left))]
fn leave(layers: &mut Vec<Layer>)
    ensures { layers.new.items ≡ front layers.old.items }
{
    layers.pop();
}

/// Enters a block of a control equation. The innermost layer is what that hides.
#[tactic(auto, using(crate::proofs::Rules::entered))]
fn enter<'a>(
    alloc: Global,
    values: &mut Vec<Layer<'a>>,
    block: &'a Block,
    notes: &mut Notes<'a>,
) -> Result<(), AllocError>
    ensures values { OnOk result (front values.new.items ≡ values.old.items) }
    ensures seen { OnOk result (sight values.new.items ≡ seen_in notes.old.next block.now (sight values.old.items)) }
    ensures next { OnOk result (notes.new.next ≡ notes.old.next + own_size block.now) }
    ensures facts { OnOk result (facts_seen notes.new.facts.items ≡ with_more (facts_seen notes.old.facts.items) (links_of notes.old.next block.now (sight (front values.old.items)))) }
{
    let own = own_layer(alloc, block, &mut notes.next)?;
    add_links(alloc, outside(values), &own, block, &mut notes.facts)?;
    values.push(own)?;
    Ok(())
}

/// Enters the block of a contract.
#[tactic(auto, using(crate::proofs::Rules::entered))]
fn enter_observer<'a>(
    alloc: Global,
    values: &mut Vec<Layer<'a>>,
    block: &'a Block,
    next: &mut usize,
) -> Result<(), AllocError>
    ensures values { OnOk result (front values.new.items ≡ values.old.items) }
    ensures seen { OnOk result (sight values.new.items ≡ seen_in next.old block.now (sight values.old.items)) }
    ensures next { OnOk result (next.new ≡ next.old + own_size block.now) }
{
    let own = own_layer(alloc, block, next)?;
    values.push(own)?;
    Ok(())
}

/// Enters a control equation, inside which last values are read of the names that it defines.
#[tactic(auto, using(crate::proofs::Rules::entered))]
fn hide<'a>(
    alloc: Global,
    scope: &mut Scope<'a>,
    control: Option<usize>,
    vertex: usize,
    span: Span,
    eqn: &'a Eqn,
    facts: &mut Vec<Fact<'a>>,
) -> Result<(), AllocError>
    ensures values { OnOk result (front scope.new.values.items ≡ scope.old.values.items) }
    ensures around { OnOk result (scope.new.around.names.items ≡ scope.old.around.names.items) }
    ensures seen { OnOk result (sight scope.new.values.items ≡ seen_within (eqn_seen eqn.now) (sight scope.old.values.items)) }
    ensures facts { OnOk result (facts_seen facts.new.items ≡ with_more (facts_seen facts.old.items) (of_defined (sight scope.old.values.items) control (Some vertex) span (defines (eqn_seen eqn.now)) (names_seen scope.old.around.names.items))) }
{
    let names = names_of(alloc, eqn)?;
    let hidden = hidden_layer(alloc, &names)?;
    add_defined(
        alloc,
        &scope.values,
        &scope.around,
        control,
        vertex,
        span,
        &names,
        &hidden,
        facts,
    )?;
    scope.values.push(hidden)?;
    Ok(())
}

/// Enters a `switch` or a `reset`, and gives the vertex of its control.
#[tactic(auto, using(crate::proofs::Rules::gathered))]
fn enter_control<'a>(
    alloc: Global,
    scope: &mut Scope<'a>,
    control: Option<usize>,
    span: Span,
    eqn: &'a Eqn,
    notes: &mut Notes<'a>,
) -> Result<usize, AllocError>
    ensures vertex { IfOk result (λ vertex. vertex ≡ notes.old.next) }
    ensures values { OnOk result (front scope.new.values.items ≡ scope.old.values.items) }
    ensures around { OnOk result (scope.new.around.names.items ≡ scope.old.around.names.items) }
    ensures seen { OnOk result (sight scope.new.values.items ≡ seen_within (eqn_seen eqn.now) (sight scope.old.values.items)) }
    ensures next { OnOk result (notes.new.next ≡ notes.old.next + 1) }
    ensures facts { OnOk result (facts_seen notes.new.facts.items ≡ with_more (facts_seen notes.old.facts.items) (of_control (sight scope.old.values.items) control notes.old.next span (defines (eqn_seen eqn.now)) (names_seen scope.old.around.names.items))) }
{
    let vertex = take_numbers(&mut notes.next, 1)?;
    hide(alloc, scope, control, vertex, span, eqn, &mut notes.facts)?;
    read(Some(vertex), control, &mut notes.facts)?;
    Ok(vertex)
}

/// The words of an automaton, which are the vertices from `active` on.
#[tactic(auto, using(crate::proofs::Rules::gathered))]
fn add_words(
    control: Option<usize>,
    active: usize,
    next_word: usize,
    span: Span,
    facts: &mut Vec<Fact>,
) -> Result<(), AllocError>
    requires { next_word ≡ active + 1 }
    ensures { OnOk result (facts_seen facts.new.items ≡ with_more (facts_seen facts.old.items) (of_words control active span)) }
{
    stand(PointKind::Active, b"active", span, Some(active), facts)?;
    stand(PointKind::Next, b"next", span, Some(next_word), facts)?;
    read(Some(active), control, facts)?;
    read(Some(next_word), control, facts)?;
    depend(Some(next_word), Some(active), facts)
}

/// Enters an automaton, and gives the vertices of its active and its next word.
#[tactic(auto, using(crate::proofs::Rules::gathered))]
fn enter_automaton<'a>(
    alloc: Global,
    scope: &mut Scope<'a>,
    control: Option<usize>,
    span: Span,
    eqn: &'a Eqn,
    notes: &mut Notes<'a>,
) -> Result<(usize, usize), AllocError>
    ensures active { IfOk result (λ words. words.0 ≡ notes.old.next) }
    ensures next_word { IfOk result (λ words. words.1 ≡ notes.old.next + 1) }
    ensures values { OnOk result (front scope.new.values.items ≡ scope.old.values.items) }
    ensures around { OnOk result (scope.new.around.names.items ≡ scope.old.around.names.items) }
    ensures seen { OnOk result (sight scope.new.values.items ≡ seen_within (eqn_seen eqn.now) (sight scope.old.values.items)) }
    ensures next { OnOk result (notes.new.next ≡ notes.old.next + 2) }
    ensures facts { OnOk result (facts_seen notes.new.facts.items ≡ with_more (facts_seen notes.old.facts.items) (of_words control notes.old.next span ++ of_defined (sight scope.old.values.items) control (Some notes.old.next) span (defines (eqn_seen eqn.now)) (names_seen scope.old.around.names.items))) }
{
    let active = take_numbers(&mut notes.next, 2)?;
    let next_word = active + 1;
    add_words(control, active, next_word, span, &mut notes.facts)?;
    hide(alloc, scope, control, active, span, eqn, &mut notes.facts)?;
    Ok((active, next_word))
}

/// A block of a control equation. The innermost layer is what that hides.
#[cycle(gather)]
#[tactic(auto, using(crate::proofs::Rules::gathered_in_blocks))]
fn gather_block<'a>(
    alloc: Global,
    scope: &mut Scope<'a>,
    control: usize,
    block: &'a Block,
    notes: &mut Notes<'a>,
) -> Result<(), AllocError>
    ensures values { OnOk result (scope.new.values.items ≡ scope.old.values.items) }
    ensures around { OnOk result (names_seen scope.new.around.names.items ≡ names_seen scope.old.around.names.items) }
    ensures next { OnOk result (notes.new.next ≡ (notes.old.next + own_size block.now) + size_inside block.now) }
    ensures facts { OnOk result (facts_seen notes.new.facts.items ≡ with_more (facts_seen notes.old.facts.items) (of_block (sight (front scope.old.values.items)) (sight scope.old.values.items) (Some control) (names_seen scope.old.around.names.items) notes.old.next block.now)) }
{
    enter(alloc, &mut scope.values, block, notes)?;
    gather_inside(alloc, scope, Some(control), block, notes)?;
    leave(&mut scope.values);
    Ok(())
}

/// What stands in a block that has been entered.
#[cycle(gather)]
#[tactic(auto, using(crate::proofs::Rules::gathered_in_blocks))]
fn gather_inside<'a>(
    alloc: Global,
    scope: &mut Scope<'a>,
    control: Option<usize>,
    block: &'a Block,
    notes: &mut Notes<'a>,
) -> Result<(), AllocError>
    ensures values { OnOk result (scope.new.values.items ≡ scope.old.values.items) }
    ensures around { OnOk result (names_seen scope.new.around.names.items ≡ names_seen scope.old.around.names.items) }
    ensures next { OnOk result (notes.new.next ≡ notes.old.next + size_inside block.now) }
    ensures facts { OnOk result (facts_seen notes.new.facts.items ≡ with_more (facts_seen notes.old.facts.items) (of_inside (sight scope.old.values.items) control (names_seen scope.old.around.names.items) notes.old.next block.now)) }
{
    let count = scope.around.len();
    scope.around.add_declared(&block.locals)?;
    let locals = Locals::new(alloc, &block.locals)?;
    gather_eqns(alloc, scope, control, &locals, &block.eqns, notes)?;
    scope.around.forget(count);
    Ok(())
}

#[cycle(gather)]
#[tactic(auto, using(crate::proofs::Rules::gathered_in_blocks))]
fn gather_eqns<'a>(
    alloc: Global,
    scope: &mut Scope<'a>,
    control: Option<usize>,
    locals: &Locals<'a>,
    eqns: &'a [Eqn],
    notes: &mut Notes<'a>,
) -> Result<(), AllocError>
    ensures values { OnOk result (scope.new.values.items ≡ scope.old.values.items) }
    ensures around { OnOk result (names_seen scope.new.around.names.items ≡ names_seen scope.old.around.names.items) }
    ensures next { OnOk result (notes.new.next ≡ notes.old.next + size_of_all (eqns_of (map eqn_seen eqns.now))) }
    ensures facts { OnOk result (facts_seen notes.new.facts.items ≡ with_more (facts_seen notes.old.facts.items) (of_eqns (sight scope.old.values.items) control (names_seen scope.old.around.names.items) locals.now.decls.now notes.old.next (eqns_of (map eqn_seen eqns.now)))) }
{
    for eqn in eqns {
        gather_eqn(alloc, scope, control, locals, eqn, notes)?;
    }
    Ok(())
}

#[cycle(gather)]
#[tactic(auto, using(crate::proofs::Rules::gathered_in_blocks))]
fn gather_eqn<'a>(
    alloc: Global,
    scope: &mut Scope<'a>,
    control: Option<usize>,
    locals: &Locals<'a>,
    eqn: &'a Eqn,
    notes: &mut Notes<'a>,
) -> Result<(), AllocError>
    ensures values { OnOk result (scope.new.values.items ≡ scope.old.values.items) }
    ensures around { OnOk result (names_seen scope.new.around.names.items ≡ names_seen scope.old.around.names.items) }
    ensures next { OnOk result (notes.new.next ≡ notes.old.next + size_of (eqn_seen eqn.now)) }
    ensures facts { OnOk result (facts_seen notes.new.facts.items ≡ with_more (facts_seen notes.old.facts.items) (of_eqn (sight scope.old.values.items) control (names_seen scope.old.around.names.items) locals.now.decls.now notes.old.next (eqn_seen eqn.now))) }
{
    match eqn {
        Eqn::Def {
            span: _,
            names,
            right,
        } => gather_definition(alloc, &scope.values, control, locals, names, right, notes),
        Eqn::Switch { span, cond, arms } => {
            let vertex = enter_control(alloc, scope, control, *span, eqn, notes)?;
            let outer = outside(&scope.values);
            gather_expr(alloc, outer, control, &[], &[vertex], cond, notes)?;
            gather_arms(alloc, scope, vertex, arms, notes)?;
            leave(&mut scope.values);
            Ok(())
        }
        Eqn::Reset { span, body, cond } => {
            let vertex = enter_control(alloc, scope, control, *span, eqn, notes)?;
            gather_block(alloc, scope, vertex, body, notes)?;
            leave(&mut scope.values);
            gather_expr(alloc, &scope.values, control, &[], &[vertex], cond, notes)
        }
        Eqn::Automaton { span, states } => {
            let (active, next_word) = enter_automaton(alloc, scope, control, *span, eqn, notes)?;
            gather_states(alloc, scope, control, active, next_word, states, notes)?;
            leave(&mut scope.values);
            Ok(())
        }
    }
}

#[cycle(gather)]
#[tactic(auto, using(crate::proofs::Rules::gathered_in_blocks))]
fn gather_arms<'a>(
    alloc: Global,
    scope: &mut Scope<'a>,
    control: usize,
    arms: &'a [Arm],
    notes: &mut Notes<'a>,
) -> Result<(), AllocError>
    ensures values { OnOk result (scope.new.values.items ≡ scope.old.values.items) }
    ensures around { OnOk result (names_seen scope.new.around.names.items ≡ names_seen scope.old.around.names.items) }
    ensures next { OnOk result (notes.new.next ≡ notes.old.next + size_of_arms (arms_of (map arm_seen arms.now))) }
    ensures facts { OnOk result (facts_seen notes.new.facts.items ≡ with_more (facts_seen notes.old.facts.items) (of_arms (sight (front scope.old.values.items)) (sight scope.old.values.items) (Some control) (names_seen scope.old.around.names.items) notes.old.next (arms_of (map arm_seen arms.now)))) }
{
    for arm in arms {
        gather_block(alloc, scope, control, &arm.body, notes)?;
    }
    Ok(())
}

/// The states of an automaton. The innermost layer is what it hides.
#[cycle(gather)]
#[tactic(auto, using(crate::proofs::Rules::gathered_in_blocks))]
fn gather_states<'a>(
    alloc: Global,
    scope: &mut Scope<'a>,
    control: Option<usize>,
    active: usize,
    next_word: usize,
    states: &'a [State],
    notes: &mut Notes<'a>,
) -> Result<(), AllocError>
    ensures values { OnOk result (scope.new.values.items ≡ scope.old.values.items) }
    ensures around { OnOk result (names_seen scope.new.around.names.items ≡ names_seen scope.old.around.names.items) }
    ensures next { OnOk result (notes.new.next ≡ notes.old.next + size_of_states (states_of (map state_seen states.now))) }
    ensures facts { OnOk result (facts_seen notes.new.facts.items ≡ with_more (facts_seen notes.old.facts.items) (of_states (sight (front scope.old.values.items)) control (sight scope.old.values.items) active next_word (names_seen scope.old.around.names.items) notes.old.next (states_of (map state_seen states.now)))) }
{
    for state in states {
        gather_state(alloc, scope, control, active, next_word, state, notes)?;
    }
    Ok(())
}

/// A state. Its weak conditions are read in its body, its strong ones outside of the automaton.
#[cycle(gather)]
#[tactic(auto, using(crate::proofs::Rules::gathered_in_blocks))]
fn gather_state<'a>(
    alloc: Global,
    scope: &mut Scope<'a>,
    control: Option<usize>,
    active: usize,
    next_word: usize,
    state: &'a State,
    notes: &mut Notes<'a>,
) -> Result<(), AllocError>
    ensures values { OnOk result (scope.new.values.items ≡ scope.old.values.items) }
    ensures around { OnOk result (names_seen scope.new.around.names.items ≡ names_seen scope.old.around.names.items) }
    ensures next { OnOk result (notes.new.next ≡ (((notes.old.next + own_size state.now.body) + size_inside state.now.body) + size_of_tests state.now.until.items) + size_of_tests state.now.unless.items) }
    ensures facts { OnOk result (facts_seen notes.new.facts.items ≡ with_more (facts_seen notes.old.facts.items) (of_state (sight (front scope.old.values.items)) control (sight scope.old.values.items) active next_word (names_seen scope.old.around.names.items) notes.old.next state.now.body state.now.until.items state.now.unless.items)) }
{
    enter(alloc, &mut scope.values, &state.body, notes)?;
    gather_inside(alloc, scope, Some(active), &state.body, notes)?;
    gather_tests(
        alloc,
        &scope.values,
        Some(active),
        next_word,
        &state.until,
        notes,
    )?;
    leave(&mut scope.values);
    gather_tests(
        alloc,
        outside(&scope.values),
        control,
        active,
        &state.unless,
        notes,
    )
}

#[tactic(auto, using(crate::proofs::Rules::gathered))]
fn gather_told<'a>(
    alloc: Global,
    layers: &[Layer],
    expr: &'a Option<Expr>,
    notes: &mut Notes<'a>,
) -> Result<(), AllocError>
    ensures next { OnOk result (notes.new.next ≡ notes.old.next + size_of_told expr.now) }
    ensures facts { OnOk result (facts_seen notes.new.facts.items ≡ with_more (facts_seen notes.old.facts.items) (of_told (sight layers.now) notes.old.next expr.now)) }
{
    match expr {
        None => Ok(()),
        Some(expr) => gather_expr(alloc, layers, None, &[], &[], expr, notes),
    }
}

/// A contract.
#[tactic(auto, using(crate::proofs::Rules::gathered_in_blocks))]
fn gather_contract<'a>(
    alloc: Global,
    scope: &mut Scope<'a>,
    contract: &'a Contract,
    notes: &mut Notes<'a>,
) -> Result<(), AllocError>
    requires { scope.now.around.names.items ≡ [] }
    ensures next { OnOk result (notes.new.next ≡ notes.old.next + size_of_contract (Some contract.now)) }
    ensures facts { OnOk result (facts_seen notes.new.facts.items ≡ with_more (facts_seen notes.old.facts.items) (of_contract (sight scope.old.values.items) notes.old.next (Some contract.now))) }
{
    enter_observer(alloc, &mut scope.values, &contract.body, &mut notes.next)?;
    gather_inside(alloc, scope, None, &contract.body, notes)?;
    gather_told(alloc, &scope.values, &contract.assume, notes)?;
    gather_told(alloc, &scope.values, &contract.enforce, notes)
}

/// What is known in the contract of a node: its outputs, where these layers of its body have them.
#[tactic(auto, using(crate::proofs::Rules::entered))]
fn observer_scope<'a>(
    alloc: Global,
    outputs: &'a [Decl],
    own: &[Layer],
) -> Result<Scope<'a>, AllocError>
    ensures around { IfOk result (λ scope. scope.around.names.items ≡ []) }
    ensures seen { IfOk result (λ scope. sight scope.values.items ≡ seen_declared outputs.now (sight own.now)) }
{
    let names = declared_names(alloc, outputs)?;
    let layer = Layer::seen(alloc, &names, own)?;
    let mut values = Vec::new(alloc);
    values.push(layer)?;
    Ok(Scope {
        values,
        around: Around::new(alloc),
    })
}

/// The contract of a node with these outputs, if it has one.
#[tactic(auto, using(crate::proofs::Rules::gathered))]
fn gather_observer<'a>(
    alloc: Global,
    outputs: &'a [Decl],
    own: &[Layer],
    contract: &'a Option<Contract>,
    notes: &mut Notes<'a>,
) -> Result<(), AllocError>
    ensures next { OnOk result (notes.new.next ≡ notes.old.next + size_of_contract contract.now) }
    ensures facts { OnOk result (facts_seen notes.new.facts.items ≡ with_more (facts_seen notes.old.facts.items) (of_contract (seen_declared outputs.now (sight own.now)) notes.old.next contract.now)) }
{
    match contract {
        None => Ok(()),
        Some(contract) => {
            let mut scope = observer_scope(alloc, outputs, own)?;
            gather_contract(alloc, &mut scope, contract, notes)
        }
    }
}

/// The controllable variables, which are the first vertices.
#[tactic(auto, using(crate::proofs::Rules::gathered_in_lists))]
fn add_controls<'a>(decls: &'a [Decl], facts: &mut Vec<Fact<'a>>) -> Result<(), AllocError>
    ensures { OnOk result (facts_seen facts.new.items ≡ with_more (facts_seen facts.old.items) (of_controls 0 decls.now)) }
{
    for i in 0..decls.len() {
        let decl = &decls[i];
        stand(PointKind::Def, decl.name.bytes(), decl.span, Some(i), facts)?;
    }
    Ok(())
}

/// Begins with the controllable variables: adds them, and gives the layer of their vertices.
#[tactic(auto, using(crate::proofs::Rules::entered))]
fn controls_layer<'a>(
    alloc: Global,
    decls: &'a [Decl],
    notes: &mut Notes<'a>,
) -> Result<Layer<'a>, AllocError>
    requires { notes.now.next ≡ 0 }
    ensures layer { IfOk result (λ layer. says layer ≡ says_numbers 0 (declared_names decls.now)) }
    ensures next { OnOk result (notes.new.next ≡ length decls.now) }
    ensures facts { OnOk result (facts_seen notes.new.facts.items ≡ with_more (facts_seen notes.old.facts.items) (of_controls 0 decls.now)) }
{
    let names = declared_names(alloc, decls)?;
    let first = take_numbers(&mut notes.next, names.len())?;
    add_controls(decls, &mut notes.facts)?;
    Layer::numbered(alloc, &names, first)
}

/// What is known in the body of a node: its controllable variables, and the names that the body defines.
#[tactic(auto, using(crate::proofs::Rules::entered))]
fn body_scope<'a>(
    alloc: Global,
    node: &'a Node,
    notes: &mut Notes<'a>,
) -> Result<Scope<'a>, AllocError>
    requires { notes.now.next ≡ 0 }
    ensures around { IfOk result (λ scope. names_seen scope.around.names.items ≡ declared_names node.now.outputs) }
    ensures seen { IfOk result (λ scope. sight scope.values.items ≡ seen_in (first_of_body node.now) node.now.body (seen_controls node.now)) }
    ensures own { IfOk result (λ scope. sight (drop 1 scope.values.items) ≡ own_sight (first_of_body node.now) node.now.body) }
    ensures next { OnOk result (notes.new.next ≡ first_of_contract node.now) }
    ensures facts { OnOk result (facts_seen notes.new.facts.items ≡ with_more (facts_seen notes.old.facts.items) (of_controls 0 (controls_of node.now.contract))) }
{
    let mut around = Around::new(alloc);
    around.add_declared(&node.outputs)?;
    let controls = controls_layer(alloc, controls_of(&node.contract), notes)?;
    let own = own_layer(alloc, &node.body, &mut notes.next)?;
    let mut values = Vec::new(alloc);
    values.push(controls)?;
    values.push(own)?;
    Ok(Scope { values, around })
}

/// The layers but the outermost one.
fn inside<'t, 'a>(layers: &'t [Layer<'a>]) -> &'t [Layer<'a>]
    ensures { result.now ≡ drop 1 layers.now }
{
    match layers {
        [] => &[],
        [_, inside @ ..] => inside,
    }
}

/// What is gathered from a node whose body is known so.
#[tactic(auto, using(crate::proofs::Rules::gathered_in_nodes))]
fn gather_parts<'a>(
    alloc: Global,
    node: &'a Node,
    scope: &mut Scope<'a>,
    notes: &mut Notes<'a>,
) -> Result<(), AllocError>
    requires around { names_seen scope.now.around.names.items ≡ declared_names node.now.outputs }
    requires seen { sight scope.now.values.items ≡ seen_in (first_of_body node.now) node.now.body (seen_controls node.now) }
    requires own { sight (drop 1 scope.now.values.items) ≡ own_sight (first_of_body node.now) node.now.body }
    requires next { notes.now.next ≡ first_of_contract node.now }
    ensures next { OnOk result (notes.new.next ≡ size_of_node node.now) }
    ensures facts { OnOk result (facts_seen notes.new.facts.items ≡ with_more (facts_seen notes.old.facts.items) (behind_controls node.now)) }
{
    gather_observer(
        alloc,
        &node.outputs,
        inside(&scope.values),
        &node.contract,
        notes,
    )?;
    gather_inside(alloc, scope, None, &node.body, notes)
}

/// All that is gathered from a node.
#[tactic(auto, using(crate::proofs::Rules::gathered_in_nodes))]
pub fn gather_node<'a>(alloc: Global, node: &'a Node) -> Result<Notes<'a>, AllocError>
    ensures next { IfOk result (λ notes. notes.next ≡ size_of_node node.now) }
    ensures facts { IfOk result (λ notes. facts_seen notes.facts.items ≡ of_node node.now) }
{
    let mut notes = Notes {
        facts: Vec::new(alloc),
        next: 0,
    };
    let mut scope = body_scope(alloc, node, &mut notes)?;
    gather_parts(alloc, node, &mut scope, &mut notes)?;
    Ok(notes)
}
