//! What a node asks of the classes of its variables.
ghost use Rattle.std.specs.Prelude.{◌≡◌, ◌+◌, ◌<◌, ◌^◌, [], length, map, OnOk, IfOk};
ghost use Rattle.hp_tree.specs.BlockView.{eqn_seen, arm_seen, state_seen};
ghost use Rattle.hp_tree.specs.Blocks.{eqns_of, arms_of, states_of};
ghost use Rattle.hp_tree.specs.DeclView.{clock_seen};
ghost use Rattle.hp_init.specs.Names.{size, size_of, size_of_all, size_of_arms, size_of_states, size_of_contract};
ghost use Rattle.hp_tables.specs.Defining.Names.{names_in, names_of};
ghost use Rattle.hp_tables.specs.Defining.Layers.{says, says_seen, sight};
ghost use Rattle.hp_init.specs.Wants.{some_must};
ghost use Rattle.hp_init.specs.Asks.{of_path, of_clock, of_decls, targets_of, of_definition, seen_in, of_block, of_eqns, of_eqn, of_arms, of_states, of_told, of_contract, of_node};
ghost use Rattle.hp_init.specs.Gathered.{front, seen_at, seen_of_outputs, seen_outside, values_within, own_size, size_inside, inside_of, of_state};
ghost use Rattle.hp_init.specs.Goals.{with_more, target_of};

use crate::ask::{Ask, Source};
use crate::expression::{Goes, WANTED, gather_expr, gather_name, gather_test, gather_tests};
use crate::table::Locals;
use hp_base::{Name, Span};
use hp_tables::defining::{Layer, names_in, names_of, sight};
use hp_tree::{Arm, Block, Cons, Contract, Decl, Eqn, Expr, Node, State};
use std::alloc::{AllocError, Global};

/// What has been gathered, at a place of a node.
#[derive(Drop)]
pub struct Gathering<'a> {
    /// The variables of names, block by block, the outermost first.
    pub variables: Vec<Layer<'a>>,
    /// The names whose values are read: those that blocks define, and for a control equation those whose last values are.
    pub values: Vec<Layer<'a>>,
    pub asks: Vec<Ask>,
    /// The number of the next variable.
    pub next: usize,
}

/// Takes the next numbers, and gives the first of them.
fn take_numbers(next: &mut usize, count: usize) -> Result<usize, AllocError>
    ensures first { IfOk result (λ first. first ≡ next.old) }
    ensures next { OnOk result (next.new ≡ next.old + count) }
    ensures room { OnOk result (next.old + count < 2 ^ 64) }
{
    let first = *next;
    match first.checked_add(count) {
        None => Err(AllocError),
        Some(sum) => {
            *next = sum;
            Ok(first)
        }
    }
}

#[tactic(auto, using(crate::proofs::Rules::gathered_in_decls))]
fn gather_path(
    values: &[Layer],
    unit: Span,
    path: &[(Cons, Name)],
    asks: &mut Vec<Ask>,
) -> Result<(), AllocError>
    ensures { OnOk result (asks.new.items ≡ with_more asks.old.items (of_path (sight values.now) unit path.now)) }
{
    for (_, name) in path {
        gather_name(values, unit, WANTED, name.bytes(), asks)?;
    }
    Ok(())
}

/// A clock wants its names First, in the unit of its declaration.
#[tactic(auto, using(crate::proofs::Rules::gathered_in_decls))]
fn gather_clock(
    values: &[Layer],
    unit: Span,
    clock: &Option<Vec<(Cons, Name)>>,
    asks: &mut Vec<Ask>,
) -> Result<(), AllocError>
    ensures { OnOk result (asks.new.items ≡ with_more asks.old.items (of_clock (sight values.now) unit (clock_seen clock.now))) }
{
    match clock {
        None => Ok(()),
        Some(path) => gather_path(values, unit, path, asks),
    }
}

#[tactic(auto, using(crate::proofs::Rules::gathered_in_decls))]
fn gather_decls(values: &[Layer], decls: &[Decl], asks: &mut Vec<Ask>) -> Result<(), AllocError>
    ensures { OnOk result (asks.new.items ≡ with_more asks.old.items (of_decls (sight values.now) decls.now)) }
{
    for decl in decls {
        gather_clock(values, decl.span, &decl.clock, asks)?;
    }
    Ok(())
}

/// The number of a name on a left side, if it has one.
#[tactic(auto, using(crate::proofs::Rules::targeted))]
fn add_target(variables: &[Layer], name: &[u8], targets: &mut Vec<usize>) -> Result<(), AllocError>
    ensures { OnOk result (targets.new.items ≡ with_more targets.old.items (target_of (sight variables.now) name.now)) }
{
    if let Some(number) = sight(variables, name) {
        targets.push(number)?;
    }
    Ok(())
}

/// The numbers of the names on a left side.
#[tactic(auto, using(crate::proofs::Rules::targeted))]
fn targets_of(
    alloc: Global,
    variables: &[Layer],
    names: &[(Name, Span)],
) -> Result<Vec<usize>, AllocError>
    ensures { IfOk result (λ targets. targets.items ≡ targets_of (sight variables.now) names.now) }
{
    let mut targets = Vec::new(alloc);
    for (name, _) in names {
        add_target(variables, name.bytes(), &mut targets)?;
    }
    Ok(targets)
}

/// Whether one of the names has to be First.
#[tactic(auto, using(crate::proofs::Rules::musts))]
fn some_must(locals: &Locals, names: &[(Name, Span)]) -> bool
    ensures { result ≡ some_must locals.now.decls.now names.now }
{
    for (name, _) in names {
        if locals.must_be_first(name.bytes()) {
            return true;
        }
    }
    false
}

/// A definition. Where one of its names has to be First, the right side is wanted so.
fn gather_definition(
    alloc: Global,
    gathering: &mut Gathering,
    locals: &Locals,
    unit: Span,
    names: &[(Name, Span)],
    right: &Expr,
) -> Result<(), AllocError>
    ensures variables { OnOk result (gathering.new.variables.items ≡ gathering.old.variables.items) }
    ensures values { OnOk result (gathering.new.values.items ≡ gathering.old.values.items) }
    ensures next { OnOk result (gathering.new.next ≡ gathering.old.next) }
    ensures asks { OnOk result (gathering.new.asks.items ≡ with_more gathering.old.asks.items (of_definition (seen_at gathering.old) locals.now.decls.now unit names.now right.now)) }
{
    let targets = targets_of(alloc, &gathering.variables, names)?;
    let goes = Goes {
        is_wanted: some_must(locals, names),
        targets: &targets,
    };
    gather_expr(&gathering.values, unit, goes, right, &mut gathering.asks)
}

/// Enters a block: its variables are known there, and the names that it defines are read.
#[tactic(auto, using(crate::proofs::Rules::entered))]
fn enter<'a>(
    alloc: Global,
    gathering: &mut Gathering<'a>,
    block: &'a Block,
) -> Result<(), AllocError>
    ensures variables { OnOk result (front gathering.new.variables.items ≡ gathering.old.variables.items) }
    ensures values { OnOk result (front gathering.new.values.items ≡ gathering.old.values.items) }
    ensures seen { OnOk result (seen_at gathering.new ≡ seen_in gathering.old.next block.now (seen_at gathering.old)) }
    ensures next { OnOk result (gathering.new.next ≡ gathering.old.next + own_size block.now) }
    ensures asks { OnOk result (gathering.new.asks.items ≡ gathering.old.asks.items) }
{
    let first = take_numbers(&mut gathering.next, block.locals.len())?;
    let own = Layer::declared(alloc, &block.locals, first)?;
    gathering.variables.push(own)?;
    let seen = defined_layer(alloc, &block.eqns, &gathering.variables)?;
    gathering.values.push(seen)?;
    Ok(())
}

/// The names that the equations define, as they are seen where these layers are.
#[tactic(auto, using(crate::proofs::Rules::entered))]
fn defined_layer<'a>(
    alloc: Global,
    eqns: &'a [Eqn],
    variables: &[Layer],
) -> Result<Layer<'a>, AllocError>
    ensures { IfOk result (λ layer. says layer ≡ says_seen (names_in (eqns_of (map eqn_seen eqns.now))) (sight variables.now)) }
{
    let names = names_in(alloc, eqns)?;
    Layer::seen(alloc, &names, variables)
}

/// The names that the equation defines, which have no numbers inside it.
#[tactic(auto, using(crate::proofs::Rules::entered))]
fn hidden_layer<'a>(alloc: Global, eqn: &'a Eqn) -> Result<Layer<'a>, AllocError>
    ensures { IfOk result (λ layer. says layer ≡ says_seen (names_of (eqn_seen eqn.now)) (sight [])) }
{
    let names = names_of(alloc, eqn)?;
    Layer::seen(alloc, &names, &[])
}

/// Takes the innermost layer away.
#[tactic(auto, using(crate::proofs::Rules::left))]
fn leave_layer(layers: &mut Vec<Layer>)
    ensures { layers.new.items ≡ front layers.old.items }
{
    layers.pop();
}

fn leave(gathering: &mut Gathering)
    ensures variables { gathering.new.variables.items ≡ front gathering.old.variables.items }
    ensures values { gathering.new.values.items ≡ front gathering.old.values.items }
    ensures next { gathering.new.next ≡ gathering.old.next }
    ensures asks { gathering.new.asks.items ≡ gathering.old.asks.items }
{
    leave_layer(&mut gathering.variables);
    leave_layer(&mut gathering.values);
}

/// Enters a control equation, inside which the last values are read of the names that it defines.
#[tactic(auto, using(crate::proofs::Rules::entered))]
fn enter_control<'a>(
    alloc: Global,
    values: &mut Vec<Layer<'a>>,
    eqn: &'a Eqn,
) -> Result<(), AllocError>
    ensures values { OnOk result (front values.new.items ≡ values.old.items) }
    ensures seen { OnOk result (sight values.new.items ≡ values_within (eqn_seen eqn.now) (sight values.old.items)) }
{
    let hidden = hidden_layer(alloc, eqn)?;
    values.push(hidden)?;
    Ok(())
}

/// The layers around the innermost one.
#[tactic(auto, using(crate::proofs::Rules::left))]
fn around<'t, 'a>(layers: &'t [Layer<'a>]) -> &'t [Layer<'a>]
    ensures { result.now ≡ front layers.now }
{
    &layers[..layers.len().saturating_sub(1)]
}

#[cycle(gather)]
#[tactic(auto, using(crate::proofs::Rules::gathered_in_blocks))]
fn gather_block<'a>(
    alloc: Global,
    gathering: &mut Gathering<'a>,
    block: &'a Block,
) -> Result<(), AllocError>
    ensures variables { OnOk result (gathering.new.variables.items ≡ gathering.old.variables.items) }
    ensures values { OnOk result (gathering.new.values.items ≡ gathering.old.values.items) }
    ensures next { OnOk result (gathering.new.next ≡ gathering.old.next + size block.now) }
    ensures asks { OnOk result (gathering.new.asks.items ≡ with_more gathering.old.asks.items (of_block (seen_at gathering.old) gathering.old.next block.now)) }
{
    enter(alloc, gathering, block)?;
    gather_inside(alloc, gathering, block)?;
    leave(gathering);
    Ok(())
}

/// What a block asks that has been entered.
#[cycle(gather)]
#[tactic(auto, using(crate::proofs::Rules::gathered_in_blocks))]
fn gather_inside<'a>(
    alloc: Global,
    gathering: &mut Gathering<'a>,
    block: &'a Block,
) -> Result<(), AllocError>
    ensures variables { OnOk result (gathering.new.variables.items ≡ gathering.old.variables.items) }
    ensures values { OnOk result (gathering.new.values.items ≡ gathering.old.values.items) }
    ensures next { OnOk result (gathering.new.next ≡ gathering.old.next + size_inside block.now) }
    ensures asks { OnOk result (gathering.new.asks.items ≡ with_more gathering.old.asks.items (inside_of (seen_at gathering.old) gathering.old.next block.now)) }
{
    let locals = Locals::new(alloc, &block.locals)?;
    gather_decls(&gathering.values, locals.decls, &mut gathering.asks)?;
    gather_eqns(alloc, gathering, &locals, &block.eqns)
}

#[cycle(gather)]
#[tactic(auto, using(crate::proofs::Rules::gathered_in_blocks))]
fn gather_eqns<'a>(
    alloc: Global,
    gathering: &mut Gathering<'a>,
    locals: &Locals,
    eqns: &'a [Eqn],
) -> Result<(), AllocError>
    ensures variables { OnOk result (gathering.new.variables.items ≡ gathering.old.variables.items) }
    ensures values { OnOk result (gathering.new.values.items ≡ gathering.old.values.items) }
    ensures next { OnOk result (gathering.new.next ≡ gathering.old.next + size_of_all (eqns_of (map eqn_seen eqns.now))) }
    ensures asks { OnOk result (gathering.new.asks.items ≡ with_more gathering.old.asks.items (of_eqns (seen_at gathering.old) locals.now.decls.now gathering.old.next (eqns_of (map eqn_seen eqns.now)))) }
{
    for eqn in eqns {
        gather_eqn(alloc, gathering, locals, eqn)?;
    }
    Ok(())
}

#[cycle(gather)]
#[tactic(auto, using(crate::proofs::Rules::gathered_in_blocks))]
fn gather_eqn<'a>(
    alloc: Global,
    gathering: &mut Gathering<'a>,
    locals: &Locals,
    eqn: &'a Eqn,
) -> Result<(), AllocError>
    ensures variables { OnOk result (gathering.new.variables.items ≡ gathering.old.variables.items) }
    ensures values { OnOk result (gathering.new.values.items ≡ gathering.old.values.items) }
    ensures next { OnOk result (gathering.new.next ≡ gathering.old.next + size_of (eqn_seen eqn.now)) }
    ensures asks { OnOk result (gathering.new.asks.items ≡ with_more gathering.old.asks.items (of_eqn (seen_at gathering.old) locals.now.decls.now gathering.old.next (eqn_seen eqn.now))) }
{
    match eqn {
        Eqn::Def { span, names, right } => {
            gather_definition(alloc, gathering, locals, *span, names, right)
        }
        Eqn::Switch {
            span: _,
            cond,
            arms,
        } => {
            gather_test(&gathering.values, cond, &mut gathering.asks)?;
            enter_control(alloc, &mut gathering.values, eqn)?;
            gather_arms(alloc, gathering, arms)?;
            leave_layer(&mut gathering.values);
            Ok(())
        }
        Eqn::Reset {
            span: _,
            body,
            cond,
        } => {
            enter_control(alloc, &mut gathering.values, eqn)?;
            gather_block(alloc, gathering, body)?;
            leave_layer(&mut gathering.values);
            gather_test(&gathering.values, cond, &mut gathering.asks)?;
            Ok(())
        }
        Eqn::Automaton { span: _, states } => {
            enter_control(alloc, &mut gathering.values, eqn)?;
            gather_states(alloc, gathering, states)?;
            leave_layer(&mut gathering.values);
            Ok(())
        }
    }
}

#[cycle(gather)]
#[tactic(auto, using(crate::proofs::Rules::gathered_in_blocks))]
fn gather_arms<'a>(
    alloc: Global,
    gathering: &mut Gathering<'a>,
    arms: &'a [Arm],
) -> Result<(), AllocError>
    ensures variables { OnOk result (gathering.new.variables.items ≡ gathering.old.variables.items) }
    ensures values { OnOk result (gathering.new.values.items ≡ gathering.old.values.items) }
    ensures next { OnOk result (gathering.new.next ≡ gathering.old.next + size_of_arms (arms_of (map arm_seen arms.now))) }
    ensures asks { OnOk result (gathering.new.asks.items ≡ with_more gathering.old.asks.items (of_arms (seen_at gathering.old) gathering.old.next (arms_of (map arm_seen arms.now)))) }
{
    for arm in arms {
        gather_block(alloc, gathering, &arm.body)?;
    }
    Ok(())
}

/// The states of an automaton. The innermost layer is what it hides.
#[cycle(gather)]
#[tactic(auto, using(crate::proofs::Rules::gathered_in_blocks))]
fn gather_states<'a>(
    alloc: Global,
    gathering: &mut Gathering<'a>,
    states: &'a [State],
) -> Result<(), AllocError>
    ensures variables { OnOk result (gathering.new.variables.items ≡ gathering.old.variables.items) }
    ensures values { OnOk result (gathering.new.values.items ≡ gathering.old.values.items) }
    ensures next { OnOk result (gathering.new.next ≡ gathering.old.next + size_of_states (states_of (map state_seen states.now))) }
    ensures asks { OnOk result (gathering.new.asks.items ≡ with_more gathering.old.asks.items (of_states (seen_outside gathering.old) (seen_at gathering.old) gathering.old.next (states_of (map state_seen states.now)))) }
{
    for state in states {
        gather_state(alloc, gathering, state)?;
    }
    Ok(())
}

/// A state. Its weak conditions are read in its body, its strong ones outside of the automaton.
#[cycle(gather)]
#[tactic(auto, using(crate::proofs::Rules::gathered_in_blocks))]
fn gather_state<'a>(
    alloc: Global,
    gathering: &mut Gathering<'a>,
    state: &'a State,
) -> Result<(), AllocError>
    ensures variables { OnOk result (gathering.new.variables.items ≡ gathering.old.variables.items) }
    ensures values { OnOk result (gathering.new.values.items ≡ gathering.old.values.items) }
    ensures next { OnOk result (gathering.new.next ≡ gathering.old.next + size state.now.body) }
    ensures asks { OnOk result (gathering.new.asks.items ≡ with_more gathering.old.asks.items (of_state (seen_outside gathering.old) (seen_at gathering.old) gathering.old.next state.now.body state.now.until.items state.now.unless.items)) }
{
    enter(alloc, gathering, &state.body)?;
    gather_inside(alloc, gathering, &state.body)?;
    gather_tests(&gathering.values, &state.until, &mut gathering.asks)?;
    leave(gathering);
    gather_tests(
        around(&gathering.values),
        &state.unless,
        &mut gathering.asks,
    )
}

#[tactic(auto, using(crate::proofs::Rules::gathered))]
fn gather_told(values: &[Layer], expr: &Option<Expr>, asks: &mut Vec<Ask>) -> Result<(), AllocError>
    ensures { OnOk result (asks.new.items ≡ with_more asks.old.items (of_told (sight values.now) expr.now)) }
{
    match expr {
        None => Ok(()),
        Some(expr) => gather_test(values, expr, asks),
    }
}

#[tactic(auto, using(crate::proofs::Rules::gathered_in_blocks))]
fn gather_contract<'a>(
    alloc: Global,
    gathering: &mut Gathering<'a>,
    contract: &'a Option<Contract>,
) -> Result<(), AllocError>
    ensures variables { OnOk result (gathering.new.variables.items ≡ gathering.old.variables.items) }
    ensures values { OnOk result (gathering.new.values.items ≡ gathering.old.values.items) }
    ensures next { OnOk result (gathering.new.next ≡ gathering.old.next + size_of_contract contract.now) }
    ensures asks { OnOk result (gathering.new.asks.items ≡ with_more gathering.old.asks.items (of_contract (seen_at gathering.old) gathering.old.next contract.now)) }
{
    match contract {
        None => Ok(()),
        Some(contract) => {
            enter(alloc, gathering, &contract.body)?;
            gather_inside(alloc, gathering, &contract.body)?;
            gather_told(&gathering.values, &contract.assume, &mut gathering.asks)?;
            gather_told(&gathering.values, &contract.enforce, &mut gathering.asks)?;
            leave(gathering);
            Ok(())
        }
    }
}

/// Begins in a node with these outputs.
fn begin<'a>(alloc: Global, outputs: &'a [Decl]) -> Result<Gathering<'a>, AllocError>
    ensures seen { IfOk result (λ gathering. seen_at gathering ≡ seen_of_outputs outputs.now) }
    ensures next { IfOk result (λ gathering. gathering.next ≡ length outputs.now) }
    ensures asks { IfOk result (λ gathering. gathering.asks.items ≡ []) }
{
    let mut next = 0;
    let first = take_numbers(&mut next, outputs.len())?;
    let mut variables = Vec::new(alloc);
    variables.push(Layer::declared(alloc, outputs, first)?)?;
    let mut values = Vec::new(alloc);
    values.push(Layer::declared(alloc, outputs, first)?)?;
    Ok(Gathering {
        variables,
        values,
        asks: Vec::new(alloc),
        next,
    })
}

/// All that the node asks.
#[tactic(auto, using(crate::proofs::Rules::gathered_in_nodes))]
pub fn gather_node<'a>(alloc: Global, node: &'a Node) -> Result<Vec<Ask>, AllocError>
    ensures { IfOk result (λ asks. asks.items ≡ of_node node.now) }
{
    let mut gathering = begin(alloc, &node.outputs)?;
    gather_contract(alloc, &mut gathering, &node.contract)?;
    gather_block(alloc, &mut gathering, &node.body)?;
    Ok(gathering.asks)
}
