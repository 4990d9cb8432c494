//! The clocks of a node, unit by unit in the order of the text.
ghost use Rattle.std.specs.Prelude.{◌≡◌, ◌+◌, ◌^◌, ◌<◌, ◌≤◌, ⊤, [], ◌∷◌, ◌++◌, All, length, map, drop, reverse, Some, Err, OnOk, IfOk};
ghost use Rattle.hp_tree.specs.BlockView.{eqn_seen, arm_seen, state_seen};
ghost use Rattle.hp_tree.specs.Blocks.{eqns_of, arms_of, states_of};
ghost use Rattle.hp_meaning.specs.Causal.Clocked.{ClockRight, IsOn};
ghost use Rattle.hp_meaning.specs.Causal.Points.{span_of};
ghost use Rattle.hp_base.specs.declared.span.Span.{Span};
ghost use Rattle.hp_meaning.specs.Clocking.Clocking.{AreClocks, node_sights, node_units as node_units_of_places};
ghost use Rattle.hp_meaning.specs.Clocking.Solving.{FirstClash};
ghost use Rattle.hp_clocks.specs.declared.cell.Failure.TheVariants as Failure;
ghost use Rattle.hp_clocks.specs.declared.solve.Unsolved.TheVariants as Unsolved;
ghost use Rattle.hp_clocks.specs.Cells.{AreCells, Never, Tells};
ghost use Rattle.hp_clocks.specs.Scopes.{AreThere, Grows, standing};
ghost use Rattle.hp_clocks.specs.Layers.{front, sight, says, says_based};
ghost use Rattle.hp_clocks.specs.Names.{with_more};
ghost use Rattle.hp_clocks.specs.Units.{AllAre, size, size_of, size_of_all, size_of_arms, size_of_states, size_of_contract, size_of_node, sight_of, body_sight, contract_sight, left_cells, own_cell, units, units_of_all, units_of_one, units_of_arms, units_of_states, conditions, told, contract_units, node_units, tested, equated, locals, locals_in_all, locals_in_one, locals_in_arms, locals_in_states, locals_of_contract, locals_of_node, rights, rights_in_all, rights_in_one, rights_in_arms, rights_in_states, rights_told, rights_of_contract, rights_of_node, tests, test_of};
ghost use Rattle.hp_clocks.specs.Putting.{IsPath, IsReady, Solves, own_size, own_locals, declared_unit, declared_units, interface_sight, out_of_unit, rights_seen};
ghost use Rattle.hp_clocks.specs.Solved.{IsSolved};

use crate::cell::{BASE, Cells, Failure};
use crate::expression::{put_expr, put_name};
use crate::layer::{Layer, Seen, own_layer, sight};
use crate::open::open_node;
use hp_base::{Name, Span};
use hp_tree::{Arm, Block, Cons, Contract, Decl, Eqn, Expr, Node, State, Trans};
use std::alloc::{AllocError, Global};

/// What is known of the clocks of a node.
#[derive(Drop)]
pub struct Solution<'a> {
    pub cells: Cells<'a>,
    /// The cell of each local, in the order of the text.
    pub locals: Vec<usize>,
    /// The expressions that are not in others, each with the cell of its clock.
    pub rights: Vec<(usize, &'a Expr)>,
    /// The cell of the next variable.
    pub next: usize,
    /// The number of cells that are the base clock or a variable.
    pub variables: usize,
}

/// Why a node has no clocks.
pub enum Unsolved {
    /// The unit at the place does not agree with those before it.
    Clash(Span),
    OutOfMemory,
}

impl From<AllocError> for Unsolved {
    ghost use Rattle.std.specs.Prelude.{◌≡◌};
    ghost use Rattle.hp_clocks.specs.declared.solve.Unsolved.TheVariants.{OutOfMemory};

    ghost from_gives = { λ _ e. e ≡ OutOfMemory };

    fn from(_: AllocError) -> Unsolved {
        Unsolved::OutOfMemory
    }
}

/// What was made of the unit at the place.
fn in_unit(unit: Span, made: Result<(), Failure>) -> Result<(), Unsolved>
    ensures { result ≡ out_of_unit unit made }
{
    match made {
        Ok(()) => Ok(()),
        Err(Failure::Clash) => Err(Unsolved::Clash(unit)),
        Err(Failure::OutOfMemory) => Err(Unsolved::OutOfMemory),
    }
}

#[tactic(auto, using(crate::proofs::SolvingRules::lists))]
fn add_right<'a>(
    rights: &mut Vec<(usize, &'a Expr)>,
    clock: usize,
    expr: &'a Expr,
) -> Result<(), AllocError>
    ensures { OnOk result (rights_seen rights.new.items ≡ with_more (rights_seen rights.old.items) ((clock, expr.now) ∷ [])) }
{
    rights.push((clock, expr))?;
    Ok(())
}

/// A condition is on the base clock.
#[tactic(auto, using(crate::proofs::SolvingRules::units))]
fn solve_test<'a>(
    layers: &[Layer],
    solution: &mut Solution<'a>,
    expr: &'a Expr,
) -> Result<(), Unsolved>
    requires ready { IsReady solution.old.variables solution.old.cells.cells.items (sight layers.now) }
    ensures variables { OnOk result (solution.new.variables ≡ solution.old.variables) }
    ensures next { OnOk result (solution.new.next ≡ solution.old.next) }
    ensures locals { OnOk result (solution.new.locals.items ≡ solution.old.locals.items) }
    ensures rights { OnOk result (rights_seen solution.new.rights.items ≡ with_more (rights_seen solution.old.rights.items) (test_of expr.now)) }
    ensures solves { Solves solution.old.variables solution.old.cells.cells.items solution.new.cells.cells.items (tested (span_of expr.now) (sight layers.now) expr.now ∷ []) result }
{
    add_right(&mut solution.rights, BASE, expr)?;
    in_unit(expr.span, put_expr(layers, &mut solution.cells, expr, BASE))
}

#[tactic(auto, using(crate::proofs::SolvingRules::in_lists))]
fn solve_tests<'a>(
    layers: &[Layer],
    solution: &mut Solution<'a>,
    transitions: &'a [Trans],
) -> Result<(), Unsolved>
    requires ready { IsReady solution.old.variables solution.old.cells.cells.items (sight layers.now) }
    ensures variables { OnOk result (solution.new.variables ≡ solution.old.variables) }
    ensures next { OnOk result (solution.new.next ≡ solution.old.next) }
    ensures locals { OnOk result (solution.new.locals.items ≡ solution.old.locals.items) }
    ensures rights { OnOk result (rights_seen solution.new.rights.items ≡ with_more (rights_seen solution.old.rights.items) (tests transitions.now)) }
    ensures solves { Solves solution.old.variables solution.old.cells.cells.items solution.new.cells.cells.items (conditions (sight layers.now) transitions.now) result }
{
    for transition in transitions {
        solve_test(layers, solution, &transition.cond)?;
    }
    Ok(())
}

/// The cell of a written clock, each of whose names is on the clock under its step.
#[tactic(auto, using(crate::proofs::SolvingRules::paths))]
fn put_path<'a>(
    layers: &[Layer],
    cells: &mut Cells<'a>,
    path: &'a [(Cons, Name)],
) -> Result<usize, Failure>
    requires are_cells { AreCells cells.old.cells.items }
    requires all_there { AreThere (length cells.old.cells.items) (sight layers.now) }
    ensures path { IfOk result (λ clock. IsPath cells.old.cells.items cells.new.cells.items (sight layers.now) path.now clock) }
    ensures clash { result ≡ Err Failure.Clash → Never cells.old.cells.items (λ at. ClockRight (standing at (sight layers.now)) (reverse path.now)) }
{
    let mut clock = BASE;
    for (cons, name) in path {
        put_name(layers, cells, name, clock)?;
        clock = cells.add_on(cons, name, clock)?;
    }
    Ok(clock)
}

/// A local is on the clock that is written.
#[tactic(auto, using(crate::proofs::SolvingRules::paths))]
fn put_written<'a>(
    layers: &[Layer],
    cells: &mut Cells<'a>,
    path: &'a [(Cons, Name)],
    local: usize,
) -> Result<(), Failure>
    requires are_cells { AreCells cells.old.cells.items }
    requires there { local < length cells.old.cells.items }
    requires all_there { AreThere (length cells.old.cells.items) (sight layers.now) }
    ensures grows { OnOk result (Grows cells.old.cells.items cells.new.cells.items (λ at. ClockRight (standing at (sight layers.now)) (reverse path.now) × (at local ≡ reverse path.now))) }
    ensures clash { result ≡ Err Failure.Clash → Never cells.old.cells.items (λ at. ClockRight (standing at (sight layers.now)) (reverse path.now) × (at local ≡ reverse path.now)) }
{
    let clock = put_path(layers, cells, path)?;
    cells.unify(local, clock)
}

/// A local on whose declaration a clock is written is a unit.
#[tactic(auto, using(crate::proofs::SolvingRules::units))]
fn solve_decl<'a>(
    layers: &[Layer],
    solution: &mut Solution<'a>,
    local: usize,
    decl: &'a Decl,
) -> Result<(), Unsolved>
    requires ready { IsReady solution.old.variables solution.old.cells.cells.items (sight layers.now) }
    requires there { local < solution.old.variables }
    ensures variables { OnOk result (solution.new.variables ≡ solution.old.variables) }
    ensures next { OnOk result (solution.new.next ≡ solution.old.next) }
    ensures locals { solution.new.locals.items ≡ solution.old.locals.items }
    ensures rights { OnOk result (rights_seen solution.new.rights.items ≡ rights_seen solution.old.rights.items) }
    ensures solves { Solves solution.old.variables solution.old.cells.cells.items solution.new.cells.cells.items (declared_unit (sight layers.now) local decl.now) result }
{
    match &decl.clock {
        None => Ok(()),
        Some(path) => in_unit(
            decl.span,
            put_written(layers, &mut solution.cells, path, local),
        ),
    }
}

/// The units of declarations. The locals have the cells from the number `first` on in the list of the locals' cells.
#[tactic(auto, using(crate::proofs::SolvingRules::in_lists))]
fn solve_decls<'a>(
    layers: &[Layer],
    solution: &mut Solution<'a>,
    first: usize,
    decls: &'a [Decl],
) -> Result<(), Unsolved>
    requires ready { IsReady solution.old.variables solution.old.cells.cells.items (sight layers.now) }
    requires listed { first + length decls.now ≡ length solution.old.locals.items }
    requires there { All (λ i. i < solution.old.variables) (drop first solution.old.locals.items) }
    ensures variables { OnOk result (solution.new.variables ≡ solution.old.variables) }
    ensures next { OnOk result (solution.new.next ≡ solution.old.next) }
    ensures locals { OnOk result (solution.new.locals.items ≡ solution.old.locals.items) }
    ensures rights { OnOk result (rights_seen solution.new.rights.items ≡ rights_seen solution.old.rights.items) }
    ensures solves { Solves solution.old.variables solution.old.cells.cells.items solution.new.cells.cells.items (declared_units (sight layers.now) (drop first solution.old.locals.items) decls.now) result }
{
    for i in 0..decls.len() {
        let local = solution.locals[first + i];
        let decl = &decls[i];
        solve_decl(layers, solution, local, decl)?;
    }
    Ok(())
}

/// The name on the left of an equation is on the clock.
#[tactic(auto, using(crate::proofs::SolvingRules::lefts))]
fn put_own(layers: &[Layer], cells: &mut Cells, name: &Name, clock: usize) -> Result<(), Failure>
    requires are_cells { AreCells cells.old.cells.items }
    requires there { clock < length cells.old.cells.items }
    requires all_there { AreThere (length cells.old.cells.items) (sight layers.now) }
    ensures grows { OnOk result (Grows cells.old.cells.items cells.new.cells.items (λ at. AllAre at (own_cell (sight layers.now name.now) []) (at clock))) }
    ensures clash { result ≡ Err Failure.Clash → Never cells.old.cells.items (λ at. AllAre at (own_cell (sight layers.now name.now) []) (at clock)) }
{
    match sight(layers, name.bytes()) {
        Seen::Nowhere => Ok(()),
        Seen::Own(own) => cells.unify(own, clock),
        Seen::Further(_) => Ok(()),
    }
}

/// The names on the left of an equation are on the clock.
#[tactic(auto, using(crate::proofs::SolvingRules::lefts))]
fn put_left(
    layers: &[Layer],
    cells: &mut Cells,
    names: &[(Name, Span)],
    clock: usize,
) -> Result<(), Failure>
    requires are_cells { AreCells cells.old.cells.items }
    requires there { clock < length cells.old.cells.items }
    requires all_there { AreThere (length cells.old.cells.items) (sight layers.now) }
    ensures grows { OnOk result (Grows cells.old.cells.items cells.new.cells.items (λ at. AllAre at (left_cells (sight layers.now) names.now) (at clock))) }
    ensures clash { result ≡ Err Failure.Clash → Never cells.old.cells.items (λ at. AllAre at (left_cells (sight layers.now) names.now) (at clock)) }
{
    for (name, _) in names {
        put_own(layers, cells, name, clock)?;
    }
    Ok(())
}

/// The names on the left of an equation and its right side are on the clock.
#[tactic(auto, using(crate::proofs::SolvingRules::lefts))]
fn put_basic<'a>(
    layers: &[Layer],
    cells: &mut Cells<'a>,
    names: &[(Name, Span)],
    right: &'a Expr,
    clock: usize,
) -> Result<(), Failure>
    requires are_cells { AreCells cells.old.cells.items }
    requires there { clock < length cells.old.cells.items }
    requires all_there { AreThere (length cells.old.cells.items) (sight layers.now) }
    ensures grows { OnOk result (Grows cells.old.cells.items cells.new.cells.items (λ at. AllAre at (left_cells (sight layers.now) names.now) (at clock) × IsOn (standing at (sight layers.now)) right.now (at clock))) }
    ensures clash { result ≡ Err Failure.Clash → Never cells.old.cells.items (λ at. AllAre at (left_cells (sight layers.now) names.now) (at clock) × IsOn (standing at (sight layers.now)) right.now (at clock)) }
{
    put_left(layers, cells, names, clock)?;
    put_expr(layers, cells, right, clock)
}

/// Takes the next variables, and gives the cell of the first of them.
fn take_variables(solution: &mut Solution, count: usize) -> usize
    requires room { solution.old.next + count ≤ solution.old.variables }
    ensures first { result ≡ solution.old.next }
    ensures fits { result + count < 2 ^ 64 }
    ensures next { solution.new.next ≡ solution.old.next + count }
    ensures variables { solution.new.variables ≡ solution.old.variables }
    ensures locals { solution.new.locals.items ≡ solution.old.locals.items }
    ensures rights { solution.new.rights.items ≡ solution.old.rights.items }
    ensures cells { solution.new.cells.cells.items ≡ solution.old.cells.cells.items }
{
    let first = solution.next;
    solution.next = first + count;
    first
}

#[tactic(auto, using(crate::proofs::SolvingRules::units))]
fn solve_basic<'a>(
    layers: &[Layer],
    solution: &mut Solution<'a>,
    unit: Span,
    names: &[(Name, Span)],
    right: &'a Expr,
) -> Result<(), Unsolved>
    requires ready { IsReady solution.old.variables solution.old.cells.cells.items (sight layers.now) }
    requires room { solution.old.next + 1 ≤ solution.old.variables }
    ensures variables { OnOk result (solution.new.variables ≡ solution.old.variables) }
    ensures next { OnOk result (solution.new.next ≡ solution.old.next + 1) }
    ensures locals { OnOk result (solution.new.locals.items ≡ solution.old.locals.items) }
    ensures rights { OnOk result (rights_seen solution.new.rights.items ≡ with_more (rights_seen solution.old.rights.items) ((solution.old.next, right.now) ∷ [])) }
    ensures solves { Solves solution.old.variables solution.old.cells.cells.items solution.new.cells.cells.items (equated unit (sight layers.now) (left_cells (sight layers.now) names.now) solution.old.next right.now ∷ []) result }
{
    let clock = take_variables(solution, 1);
    add_right(&mut solution.rights, clock, right)?;
    in_unit(
        unit,
        put_basic(layers, &mut solution.cells, names, right, clock),
    )
}

/// Enters a block: its locals have cells, and the names that it defines are seen.
#[tactic(auto, using(crate::proofs::SolvingRules::entered))]
fn enter<'a>(
    alloc: Global,
    layers: &mut Vec<Layer<'a>>,
    solution: &mut Solution<'a>,
    block: &'a Block,
) -> Result<(), AllocError>
    requires room { solution.old.next + own_size block.now ≤ solution.old.variables }
    ensures layers { OnOk result (front layers.new.items ≡ layers.old.items) }
    ensures seen { OnOk result (sight layers.new.items ≡ sight_of solution.old.next block.now (sight layers.old.items)) }
    ensures variables { OnOk result (solution.new.variables ≡ solution.old.variables) }
    ensures next { OnOk result (solution.new.next ≡ solution.old.next + own_size block.now) }
    ensures locals { OnOk result (solution.new.locals.items ≡ with_more solution.old.locals.items (own_locals solution.old.next block.now)) }
    ensures rights { OnOk result (solution.new.rights.items ≡ solution.old.rights.items) }
    ensures cells { OnOk result (solution.new.cells.cells.items ≡ solution.old.cells.cells.items) }
{
    let first = take_variables(solution, block.locals.len());
    let layer = own_layer(alloc, block, first, &mut solution.locals)?;
    layers.push(layer)?;
    Ok(())
}

/// Takes the innermost layer away.
#[tactic(auto, using(crate::proofs::SolvingRules::left))]
fn leave(layers: &mut Vec<Layer>)
    ensures { layers.new.items ≡ front layers.old.items }
{
    layers.pop();
}

#[cycle(solve)]
#[tactic(auto, using(crate::proofs::SolvingRules::blocks))]
fn solve_block<'a>(
    alloc: Global,
    layers: &mut Vec<Layer<'a>>,
    solution: &mut Solution<'a>,
    block: &'a Block,
) -> Result<(), Unsolved>
    requires ready { IsReady solution.old.variables solution.old.cells.cells.items (sight layers.old.items) }
    requires room { solution.old.next + size block.now ≤ solution.old.variables }
    ensures layers { OnOk result (layers.new.items ≡ layers.old.items) }
    ensures variables { OnOk result (solution.new.variables ≡ solution.old.variables) }
    ensures next { OnOk result (solution.new.next ≡ solution.old.next + size block.now) }
    ensures locals { OnOk result (solution.new.locals.items ≡ with_more solution.old.locals.items (locals solution.old.next block.now)) }
    ensures rights { OnOk result (rights_seen solution.new.rights.items ≡ with_more (rights_seen solution.old.rights.items) (rights solution.old.next block.now)) }
    ensures solves { Solves solution.old.variables solution.old.cells.cells.items solution.new.cells.cells.items (units solution.old.next block.now (sight layers.old.items)) result }
{
    solve_entered(alloc, layers, solution, block)?;
    leave(layers);
    Ok(())
}

/// Enters a block and solves it.
#[cycle(solve)]
#[tactic(auto, using(crate::proofs::SolvingRules::blocks))]
fn solve_entered<'a>(
    alloc: Global,
    layers: &mut Vec<Layer<'a>>,
    solution: &mut Solution<'a>,
    block: &'a Block,
) -> Result<(), Unsolved>
    requires ready { IsReady solution.old.variables solution.old.cells.cells.items (sight layers.old.items) }
    requires room { solution.old.next + size block.now ≤ solution.old.variables }
    ensures layers { OnOk result (front layers.new.items ≡ layers.old.items) }
    ensures seen { OnOk result (sight layers.new.items ≡ sight_of solution.old.next block.now (sight layers.old.items)) }
    ensures ready { OnOk result (IsReady solution.new.variables solution.new.cells.cells.items (sight layers.new.items)) }
    ensures variables { OnOk result (solution.new.variables ≡ solution.old.variables) }
    ensures next { OnOk result (solution.new.next ≡ solution.old.next + size block.now) }
    ensures locals { OnOk result (solution.new.locals.items ≡ with_more solution.old.locals.items (locals solution.old.next block.now)) }
    ensures rights { OnOk result (rights_seen solution.new.rights.items ≡ with_more (rights_seen solution.old.rights.items) (rights solution.old.next block.now)) }
    ensures solves { Solves solution.old.variables solution.old.cells.cells.items solution.new.cells.cells.items (units solution.old.next block.now (sight layers.old.items)) result }
{
    let first = solution.locals.len();
    enter(alloc, layers, solution, block)?;
    solve_decls(layers, solution, first, &block.locals)?;
    solve_eqns(alloc, layers, solution, &block.eqns)
}

#[cycle(solve)]
#[tactic(auto, using(crate::proofs::SolvingRules::blocks))]
fn solve_eqns<'a>(
    alloc: Global,
    layers: &mut Vec<Layer<'a>>,
    solution: &mut Solution<'a>,
    eqns: &'a [Eqn],
) -> Result<(), Unsolved>
    requires ready { IsReady solution.old.variables solution.old.cells.cells.items (sight layers.old.items) }
    requires room { solution.old.next + size_of_all (eqns_of (map eqn_seen eqns.now)) ≤ solution.old.variables }
    ensures layers { OnOk result (layers.new.items ≡ layers.old.items) }
    ensures variables { OnOk result (solution.new.variables ≡ solution.old.variables) }
    ensures next { OnOk result (solution.new.next ≡ solution.old.next + size_of_all (eqns_of (map eqn_seen eqns.now))) }
    ensures locals { OnOk result (solution.new.locals.items ≡ with_more solution.old.locals.items (locals_in_all solution.old.next (eqns_of (map eqn_seen eqns.now)))) }
    ensures rights { OnOk result (rights_seen solution.new.rights.items ≡ with_more (rights_seen solution.old.rights.items) (rights_in_all solution.old.next (eqns_of (map eqn_seen eqns.now)))) }
    ensures solves { Solves solution.old.variables solution.old.cells.cells.items solution.new.cells.cells.items (units_of_all solution.old.next (eqns_of (map eqn_seen eqns.now)) (sight layers.old.items)) result }
{
    for eqn in eqns {
        solve_eqn(alloc, layers, solution, eqn)?;
    }
    Ok(())
}

#[cycle(solve)]
#[tactic(auto, using(crate::proofs::SolvingRules::blocks))]
fn solve_eqn<'a>(
    alloc: Global,
    layers: &mut Vec<Layer<'a>>,
    solution: &mut Solution<'a>,
    eqn: &'a Eqn,
) -> Result<(), Unsolved>
    requires ready { IsReady solution.old.variables solution.old.cells.cells.items (sight layers.old.items) }
    requires room { solution.old.next + size_of (eqn_seen eqn.now) ≤ solution.old.variables }
    ensures layers { OnOk result (layers.new.items ≡ layers.old.items) }
    ensures variables { OnOk result (solution.new.variables ≡ solution.old.variables) }
    ensures next { OnOk result (solution.new.next ≡ solution.old.next + size_of (eqn_seen eqn.now)) }
    ensures locals { OnOk result (solution.new.locals.items ≡ with_more solution.old.locals.items (locals_in_one solution.old.next (eqn_seen eqn.now))) }
    ensures rights { OnOk result (rights_seen solution.new.rights.items ≡ with_more (rights_seen solution.old.rights.items) (rights_in_one solution.old.next (eqn_seen eqn.now))) }
    ensures solves { Solves solution.old.variables solution.old.cells.cells.items solution.new.cells.cells.items (units_of_one solution.old.next (eqn_seen eqn.now) (sight layers.old.items)) result }
{
    match eqn {
        Eqn::Def { span, names, right } => solve_basic(layers, solution, *span, names, right),
        Eqn::Switch {
            span: _,
            cond,
            arms,
        } => {
            solve_test(layers, solution, cond)?;
            solve_arms(alloc, layers, solution, arms)
        }
        Eqn::Reset {
            span: _,
            body,
            cond,
        } => {
            solve_block(alloc, layers, solution, body)?;
            solve_test(layers, solution, cond)
        }
        Eqn::Automaton { span: _, states } => solve_states(alloc, layers, solution, states),
    }
}

#[cycle(solve)]
#[tactic(auto, using(crate::proofs::SolvingRules::blocks))]
fn solve_arms<'a>(
    alloc: Global,
    layers: &mut Vec<Layer<'a>>,
    solution: &mut Solution<'a>,
    arms: &'a [Arm],
) -> Result<(), Unsolved>
    requires ready { IsReady solution.old.variables solution.old.cells.cells.items (sight layers.old.items) }
    requires room { solution.old.next + size_of_arms (arms_of (map arm_seen arms.now)) ≤ solution.old.variables }
    ensures layers { OnOk result (layers.new.items ≡ layers.old.items) }
    ensures variables { OnOk result (solution.new.variables ≡ solution.old.variables) }
    ensures next { OnOk result (solution.new.next ≡ solution.old.next + size_of_arms (arms_of (map arm_seen arms.now))) }
    ensures locals { OnOk result (solution.new.locals.items ≡ with_more solution.old.locals.items (locals_in_arms solution.old.next (arms_of (map arm_seen arms.now)))) }
    ensures rights { OnOk result (rights_seen solution.new.rights.items ≡ with_more (rights_seen solution.old.rights.items) (rights_in_arms solution.old.next (arms_of (map arm_seen arms.now)))) }
    ensures solves { Solves solution.old.variables solution.old.cells.cells.items solution.new.cells.cells.items (units_of_arms solution.old.next (arms_of (map arm_seen arms.now)) (sight layers.old.items)) result }
{
    for arm in arms {
        solve_block(alloc, layers, solution, &arm.body)?;
    }
    Ok(())
}

#[cycle(solve)]
#[tactic(auto, using(crate::proofs::SolvingRules::blocks))]
fn solve_states<'a>(
    alloc: Global,
    layers: &mut Vec<Layer<'a>>,
    solution: &mut Solution<'a>,
    states: &'a [State],
) -> Result<(), Unsolved>
    requires ready { IsReady solution.old.variables solution.old.cells.cells.items (sight layers.old.items) }
    requires room { solution.old.next + size_of_states (states_of (map state_seen states.now)) ≤ solution.old.variables }
    ensures layers { OnOk result (layers.new.items ≡ layers.old.items) }
    ensures variables { OnOk result (solution.new.variables ≡ solution.old.variables) }
    ensures next { OnOk result (solution.new.next ≡ solution.old.next + size_of_states (states_of (map state_seen states.now))) }
    ensures locals { OnOk result (solution.new.locals.items ≡ with_more solution.old.locals.items (locals_in_states solution.old.next (states_of (map state_seen states.now)))) }
    ensures rights { OnOk result (rights_seen solution.new.rights.items ≡ with_more (rights_seen solution.old.rights.items) (rights_in_states solution.old.next (states_of (map state_seen states.now)))) }
    ensures solves { Solves solution.old.variables solution.old.cells.cells.items solution.new.cells.cells.items (units_of_states solution.old.next (states_of (map state_seen states.now)) (sight layers.old.items)) result }
{
    for state in states {
        solve_state(alloc, layers, solution, state)?;
    }
    Ok(())
}

/// Weak conditions are read in the body of their state, strong ones outside of the automaton.
#[cycle(solve)]
#[tactic(auto, using(crate::proofs::SolvingRules::blocks))]
fn solve_state<'a>(
    alloc: Global,
    layers: &mut Vec<Layer<'a>>,
    solution: &mut Solution<'a>,
    state: &'a State,
) -> Result<(), Unsolved>
    requires ready { IsReady solution.old.variables solution.old.cells.cells.items (sight layers.old.items) }
    requires room { solution.old.next + size state.now.body ≤ solution.old.variables }
    ensures layers { OnOk result (layers.new.items ≡ layers.old.items) }
    ensures variables { OnOk result (solution.new.variables ≡ solution.old.variables) }
    ensures next { OnOk result (solution.new.next ≡ solution.old.next + size state.now.body) }
    ensures locals { OnOk result (solution.new.locals.items ≡ with_more solution.old.locals.items (locals solution.old.next state.now.body)) }
    ensures rights { OnOk result (rights_seen solution.new.rights.items ≡ with_more (rights_seen solution.old.rights.items) (rights solution.old.next state.now.body ++ (tests state.now.until.items ++ tests state.now.unless.items))) }
    ensures solves { Solves solution.old.variables solution.old.cells.cells.items solution.new.cells.cells.items (units solution.old.next state.now.body (sight layers.old.items) ++ (conditions (sight_of solution.old.next state.now.body (sight layers.old.items)) state.now.until.items ++ conditions (sight layers.old.items) state.now.unless.items)) result }
{
    solve_entered(alloc, layers, solution, &state.body)?;
    solve_tests(layers, solution, &state.until)?;
    leave(layers);
    solve_tests(layers, solution, &state.unless)
}

#[tactic(auto, using(crate::proofs::SolvingRules::units))]
fn solve_told<'a>(
    layers: &[Layer],
    solution: &mut Solution<'a>,
    expr: &'a Option<Expr>,
) -> Result<(), Unsolved>
    requires ready { IsReady solution.old.variables solution.old.cells.cells.items (sight layers.now) }
    ensures variables { OnOk result (solution.new.variables ≡ solution.old.variables) }
    ensures next { OnOk result (solution.new.next ≡ solution.old.next) }
    ensures locals { OnOk result (solution.new.locals.items ≡ solution.old.locals.items) }
    ensures rights { OnOk result (rights_seen solution.new.rights.items ≡ with_more (rights_seen solution.old.rights.items) (rights_told expr.now)) }
    ensures solves { Solves solution.old.variables solution.old.cells.cells.items solution.new.cells.cells.items (told (sight layers.now) expr.now) result }
{
    match expr {
        None => Ok(()),
        Some(expr) => solve_test(layers, solution, expr),
    }
}

#[tactic(auto, using(crate::proofs::SolvingRules::blocks))]
fn solve_contract<'a>(
    alloc: Global,
    layers: &mut Vec<Layer<'a>>,
    solution: &mut Solution<'a>,
    contract: &'a Contract,
) -> Result<(), Unsolved>
    requires ready { IsReady solution.old.variables solution.old.cells.cells.items (sight layers.old.items) }
    requires room { solution.old.next + size contract.now.body ≤ solution.old.variables }
    ensures variables { OnOk result (solution.new.variables ≡ solution.old.variables) }
    ensures next { OnOk result (solution.new.next ≡ solution.old.next + size contract.now.body) }
    ensures locals { OnOk result (solution.new.locals.items ≡ with_more solution.old.locals.items (locals solution.old.next contract.now.body)) }
    ensures rights { OnOk result (rights_seen solution.new.rights.items ≡ with_more (rights_seen solution.old.rights.items) (rights solution.old.next contract.now.body ++ (rights_told contract.now.assume ++ rights_told contract.now.enforce))) }
    ensures solves { Solves solution.old.variables solution.old.cells.cells.items solution.new.cells.cells.items (contract_units solution.old.next (sight layers.old.items) (Some contract.now)) result }
{
    solve_entered(alloc, layers, solution, &contract.body)?;
    solve_told(layers, solution, &contract.assume)?;
    solve_told(layers, solution, &contract.enforce)
}

/// How the inputs and the outputs are seen, and where a contract is kept its controllable variables.
#[tactic(auto, using(crate::proofs::SolvingRules::entered))]
fn interface<'a>(
    alloc: Global,
    node: &'a Node,
    controls: &'a [Decl],
) -> Result<Vec<Layer<'a>>, AllocError>
    ensures { IfOk result (λ layers. sight layers.items ≡ interface_sight node.now controls.now) }
{
    let mut layer = Layer::new(alloc);
    layer.add_based(&node.inputs)?;
    layer.add_based(&node.outputs)?;
    layer.add_based(controls)?;
    let mut layers = Vec::new(alloc);
    layers.push(layer)?;
    Ok(layers)
}

#[tactic(auto, using(crate::proofs::SolvingRules::nodes))]
fn solve_body<'a>(
    alloc: Global,
    solution: &mut Solution<'a>,
    node: &'a Node,
    controls: &'a [Decl],
) -> Result<(), Unsolved>
    requires cells { AreCells solution.old.cells.cells.items }
    requires some { 0 < solution.old.variables }
    requires floor { solution.old.variables ≤ length solution.old.cells.cells.items }
    requires room { solution.old.next + size node.now.body ≤ solution.old.variables }
    ensures variables { OnOk result (solution.new.variables ≡ solution.old.variables) }
    ensures next { OnOk result (solution.new.next ≡ solution.old.next + size node.now.body) }
    ensures locals { OnOk result (solution.new.locals.items ≡ with_more solution.old.locals.items (locals solution.old.next node.now.body)) }
    ensures rights { OnOk result (rights_seen solution.new.rights.items ≡ with_more (rights_seen solution.old.rights.items) (rights solution.old.next node.now.body)) }
    ensures solves { Solves solution.old.variables solution.old.cells.cells.items solution.new.cells.cells.items (units solution.old.next node.now.body (interface_sight node.now controls.now)) result }
{
    let mut layers = interface(alloc, node, controls)?;
    solve_block(alloc, &mut layers, solution, &node.body)
}

#[tactic(auto, using(crate::proofs::SolvingRules::nodes))]
fn solve_observer<'a>(
    alloc: Global,
    solution: &mut Solution<'a>,
    node: &'a Node,
    contract: &'a Contract,
) -> Result<(), Unsolved>
    requires cells { AreCells solution.old.cells.cells.items }
    requires some { 0 < solution.old.variables }
    requires floor { solution.old.variables ≤ length solution.old.cells.cells.items }
    requires room { solution.old.next + size contract.now.body ≤ solution.old.variables }
    ensures variables { OnOk result (solution.new.variables ≡ solution.old.variables) }
    ensures next { OnOk result (solution.new.next ≡ solution.old.next + size contract.now.body) }
    ensures locals { OnOk result (solution.new.locals.items ≡ with_more solution.old.locals.items (locals solution.old.next contract.now.body)) }
    ensures rights { OnOk result (rights_seen solution.new.rights.items ≡ with_more (rights_seen solution.old.rights.items) (rights solution.old.next contract.now.body ++ (rights_told contract.now.assume ++ rights_told contract.now.enforce))) }
    ensures solves { Solves solution.old.variables solution.old.cells.cells.items solution.new.cells.cells.items (contract_units solution.old.next (contract_sight node.now) (Some contract.now)) result }
{
    let mut layers = interface(alloc, node, &[])?;
    solve_contract(alloc, &mut layers, solution, contract)
}

#[tactic(auto, using(crate::proofs::SolvingRules::nodes))]
fn solve_parts<'a>(
    alloc: Global,
    solution: &mut Solution<'a>,
    node: &'a Node,
) -> Result<(), Unsolved>
    requires cells { AreCells solution.old.cells.cells.items }
    requires floor { solution.old.variables ≤ length solution.old.cells.cells.items }
    requires first { solution.old.next ≡ 1 }
    requires room { 1 + size_of_node node.now ≤ solution.old.variables }
    ensures variables { OnOk result (solution.new.variables ≡ solution.old.variables) }
    ensures locals { OnOk result (solution.new.locals.items ≡ with_more solution.old.locals.items (locals_of_node node.now)) }
    ensures rights { OnOk result (rights_seen solution.new.rights.items ≡ with_more (rights_seen solution.old.rights.items) (rights_of_node node.now)) }
    ensures solves { Solves solution.old.variables solution.old.cells.cells.items solution.new.cells.cells.items (node_units node.now) result }
{
    match &node.contract {
        None => solve_body(alloc, solution, node, &[]),
        Some(contract) => {
            solve_observer(alloc, solution, node, contract)?;
            solve_body(alloc, solution, node, &contract.controls)
        }
    }
}

/// The shortest clocks of the node, or the first unit such that the units up to it allow none.
#[tactic(auto, using(crate::proofs::SolvingRules::nodes))]
pub fn solve_node<'a>(alloc: Global, node: &'a Node) -> Result<Solution<'a>, Unsolved>
    ensures solved { IfOk result (λ solution. IsSolved node.now solution) }
    ensures clash { (s : Span) → result ≡ Err (Unsolved.Clash s) → FirstClash (AreClocks (node_sights node.now)) (node_units_of_places node.now) s }
{
    let cells = open_node(alloc, node)?;
    let variables = cells.cells.len();
    let mut solution = Solution {
        cells,
        locals: Vec::new(alloc),
        rights: Vec::new(alloc),
        next: 1,
        variables,
    };
    solve_parts(alloc, &mut solution, node)?;
    Ok(solution)
}
