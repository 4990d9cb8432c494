//! The definitions of equations and blocks.
ghost use Rattle.std.specs.Prelude.{◌≡◌, [], ◌∷◌, ◌++◌, map, is_some, OnOk, IfOk};
ghost use Rattle.hp_tree.specs.BlockView.{eqn_seen, arm_seen, state_seen};
ghost use Rattle.hp_tree.specs.Blocks.{eqns_of, arms_of, states_of};
ghost use Rattle.hp_typing.specs.Seen.{kind_told};
ghost use Rattle.hp_typing.specs.Types.{type_of, constructors_of};
ghost use Rattle.hp_typing.specs.Scopes.{inside};
ghost use Rattle.hp_typing.specs.Uses.{among, both, how, use_on, use_in_eqns, use_in_eqn, use_in_block, uses_in_arms, uses_in_states};
ghost use Rattle.hp_typing.specs.Definedness.{conses_of_arms, in_constructors, in_block, in_eqns, in_eqn, in_arms, in_states};
ghost use Rattle.hp_typing.specs.Breaches.{found_among, found_after, of_variable, of_other, of_variables, of_others};

use crate::breach::{Breach, Fault};
use crate::constructors::{check_constructors, conses_of_arms};
use crate::declarations::add_variables;
use crate::expressions::check_expr;
use crate::kind::Kind;
use crate::merges::{check_merges, check_transitions};
use crate::scope::Scope;
use crate::uses::{Use, Uses, join};
use hp_base::first::note;
use hp_base::{Name, Span};
use hp_tree::{Arm, Block, Decl, Eqn, Expr, State};
use std::alloc::{AllocError, Global};

/// A variable has to be defined once in its block and at most once in each block inside; by each block of a control equation, or it
/// is `last`.
#[tactic(auto, unfolding(crate::specs::Breaches::found_among))]
fn check_variable<'a>(used: Use, decl: &'a Decl, found: &mut Option<Breach<'a>>)
    ensures { found.new ≡ found_among found.old (of_variable decl.now.span decl.now.name (is_some decl.now.last) used) }
{
    let fault = match used {
        Use::Never => Fault::Undefined(&decl.name),
        Use::Once => return,
        Use::Partly => {
            if decl.last.is_some() {
                return;
            }
            Fault::Branch(&decl.name)
        }
        Use::Twice => Fault::Twice(&decl.name),
    };
    note(
        found,
        Breach {
            at: decl.span,
            fault,
        },
    );
}

#[tactic(auto, using(crate::proofs::Rules::found_in_variables))]
pub fn check_variables<'a>(uses: &Uses<'a>, decls: &'a [Decl], found: &mut Option<Breach<'a>>)
    ensures { found.new ≡ found_among found.old (of_variables (how uses.now) decls.now) }
{
    for decl in decls {
        check_variable(uses.of(decl.name.bytes()), decl, found);
    }
}

/// Others have to have no equation.
#[tactic(auto, unfolding(crate::specs::Breaches::found_among))]
fn check_other<'a>(used: Use, decl: &'a Decl, found: &mut Option<Breach<'a>>)
    ensures { found.new ≡ found_among found.old (of_other decl.now.span decl.now.name used) }
{
    match used {
        Use::Never => {}
        Use::Once | Use::Partly | Use::Twice => {
            let fault = Fault::Twice(&decl.name);
            note(
                found,
                Breach {
                    at: decl.span,
                    fault,
                },
            );
        }
    }
}

#[tactic(auto, using(crate::proofs::Rules::found_in_variables))]
pub fn check_others<'a>(uses: &Uses<'a>, decls: &'a [Decl], found: &mut Option<Breach<'a>>)
    ensures { found.new ≡ found_among found.old (of_others (how uses.now) decls.now) }
{
    for decl in decls {
        check_other(uses.of(decl.name.bytes()), decl, found);
    }
}

/// Adds the names of a left side.
#[tactic(auto, using(crate::proofs::Rules::uses))]
fn add_names<'a>(uses: &mut Uses<'a>, names: &'a [(Name, Span)]) -> Result<(), AllocError>
    ensures { OnOk result (how uses.new ≡ both (how uses.old) (use_on names.now)) }
{
    for (name, _) in names {
        uses.add(name)?;
    }
    Ok(())
}

/// The type of an expression.
fn kind_of<'a>(scope: &Scope<'a>, expr: &'a Expr) -> Option<Kind<'a>>
    ensures { kind_told result ≡ type_of scope.now expr.now }
{
    let mut wrong = None;
    check_expr(scope, expr, &mut wrong)
}

/// Checks the block, and leaves its variables in scope. How its equations define names.
#[cycle(define)]
#[tactic(auto, using(crate::proofs::Rules::found_in_definitions))]
pub fn enter_block<'a>(
    alloc: Global,
    scope: &mut Scope<'a>,
    block: &'a Block,
    found: &mut Option<Breach<'a>>,
) -> Result<Uses<'a>, AllocError>
    ensures scope { OnOk result (scope.new ≡ inside scope.old block.now) }
    ensures uses { IfOk result (λ uses. how uses ≡ use_in_block block.now) }
    ensures found { OnOk result (found.new ≡ found_after found.old (in_block scope.old block.now)) }
{
    let mut uses = Uses::new(alloc);
    add_variables(scope, &block.locals)?;
    check_eqns(alloc, scope, &block.eqns, &mut uses, found)?;
    check_variables(&uses, &block.locals, found);
    Ok(uses)
}

/// Checks the block, whose variables are in scope in it alone. How its equations define names.
#[cycle(define)]
#[tactic(auto, using(crate::proofs::Rules::found_in_definitions))]
pub fn check_block<'a>(
    alloc: Global,
    scope: &mut Scope<'a>,
    block: &'a Block,
    found: &mut Option<Breach<'a>>,
) -> Result<Uses<'a>, AllocError>
    ensures scope { OnOk result (scope.new ≡ scope.old) }
    ensures uses { IfOk result (λ uses. how uses ≡ use_in_block block.now) }
    ensures found { OnOk result (found.new ≡ found_after found.old (in_block scope.old block.now)) }
{
    let mark = scope.mark();
    let uses = enter_block(alloc, scope, block, found)?;
    scope.leave(mark);
    Ok(uses)
}

#[cycle(define)]
#[tactic(auto, using(crate::proofs::Rules::found_in_definitions))]
fn check_eqns<'a>(
    alloc: Global,
    scope: &mut Scope<'a>,
    eqns: &'a [Eqn],
    uses: &mut Uses<'a>,
    found: &mut Option<Breach<'a>>,
) -> Result<(), AllocError>
    ensures scope { OnOk result (scope.new ≡ scope.old) }
    ensures uses { OnOk result (how uses.new ≡ both (how uses.old) (use_in_eqns (eqns_of (map eqn_seen eqns.now)))) }
    ensures found { OnOk result (found.new ≡ found_after found.old (in_eqns scope.old (eqns_of (map eqn_seen eqns.now)))) }
{
    for eqn in eqns {
        check_eqn(alloc, scope, eqn, uses, found)?;
    }
    Ok(())
}

#[cycle(define)]
#[tactic(auto, using(crate::proofs::Rules::found_in_definitions))]
fn check_eqn<'a>(
    alloc: Global,
    scope: &mut Scope<'a>,
    eqn: &'a Eqn,
    uses: &mut Uses<'a>,
    found: &mut Option<Breach<'a>>,
) -> Result<(), AllocError>
    ensures scope { OnOk result (scope.new ≡ scope.old) }
    ensures uses { OnOk result (how uses.new ≡ both (how uses.old) (use_in_eqn (eqn_seen eqn.now))) }
    ensures found { OnOk result (found.new ≡ found_after found.old (in_eqn scope.old (eqn_seen eqn.now))) }
{
    match eqn {
        Eqn::Def {
            span: _,
            names,
            right,
        } => {
            check_merges(alloc, scope, right, found)?;
            add_names(uses, names)
        }
        Eqn::Switch { span, cond, arms } => {
            check_merges(alloc, scope, cond, found)?;
            check_choices(alloc, scope, *span, cond, arms, found)?;
            uses.add_all(&uses_of_arms(alloc, scope, arms, found)?)
        }
        Eqn::Reset {
            span: _,
            body,
            cond,
        } => {
            let inner = check_block(alloc, scope, body, found)?;
            check_merges(alloc, scope, cond, found)?;
            uses.add_all(&inner)
        }
        Eqn::Automaton { span: _, states } => {
            uses.add_all(&uses_of_states(alloc, scope, states, found)?)
        }
    }
}

/// The arms of a `switch` have to name each constructor of the condition's type once.
#[tactic(auto, using(crate::proofs::Rules::found_in_definitions))]
fn check_choices<'a>(
    alloc: Global,
    scope: &Scope<'a>,
    at: Span,
    cond: &'a Expr,
    arms: &'a [Arm],
    found: &mut Option<Breach<'a>>,
) -> Result<(), AllocError>
    ensures { OnOk result (found.new ≡ found_after found.old (in_constructors at (constructors_of scope.now (type_of scope.now cond.now)) (conses_of_arms (arms_of (map arm_seen arms.now))))) }
{
    let given = conses_of_arms(alloc, arms)?;
    check_constructors(scope, at, kind_of(scope, cond), &given, found);
    Ok(())
}

/// Checks the arms of a `switch`. How they define names.
#[cycle(define)]
#[tactic(auto, using(crate::proofs::Rules::found_in_definitions))]
fn uses_of_arms<'a>(
    alloc: Global,
    scope: &mut Scope<'a>,
    arms: &'a [Arm],
    found: &mut Option<Breach<'a>>,
) -> Result<Uses<'a>, AllocError>
    ensures scope { OnOk result (scope.new ≡ scope.old) }
    ensures uses { IfOk result (λ uses. how uses ≡ among (uses_in_arms (arms_of (map arm_seen arms.now)))) }
    ensures found { OnOk result (found.new ≡ found_after found.old (in_arms scope.old (arms_of (map arm_seen arms.now)))) }
{
    let mut blocks = Vec::new(alloc);
    check_arms(alloc, scope, arms, &mut blocks, found)?;
    join(alloc, &blocks)
}

/// Checks the states of an automaton. How they define names.
#[cycle(define)]
#[tactic(auto, using(crate::proofs::Rules::found_in_definitions))]
fn uses_of_states<'a>(
    alloc: Global,
    scope: &mut Scope<'a>,
    states: &'a [State],
    found: &mut Option<Breach<'a>>,
) -> Result<Uses<'a>, AllocError>
    ensures scope { OnOk result (scope.new ≡ scope.old) }
    ensures uses { IfOk result (λ uses. how uses ≡ among (uses_in_states (states_of (map state_seen states.now)))) }
    ensures found { OnOk result (found.new ≡ found_after found.old (in_states scope.old (states_of (map state_seen states.now)))) }
{
    let mut blocks = Vec::new(alloc);
    check_states(alloc, scope, states, &mut blocks, found)?;
    join(alloc, &blocks)
}

#[cycle(define)]
#[tactic(auto, using(crate::proofs::Rules::found_in_definitions))]
fn check_arms<'a>(
    alloc: Global,
    scope: &mut Scope<'a>,
    arms: &'a [Arm],
    blocks: &mut Vec<Uses<'a>>,
    found: &mut Option<Breach<'a>>,
) -> Result<(), AllocError>
    ensures scope { OnOk result (scope.new ≡ scope.old) }
    ensures blocks { OnOk result (map how blocks.new.items ≡ map how blocks.old.items ++ uses_in_arms (arms_of (map arm_seen arms.now))) }
    ensures found { OnOk result (found.new ≡ found_after found.old (in_arms scope.old (arms_of (map arm_seen arms.now)))) }
{
    for arm in arms {
        blocks.push(check_block(alloc, scope, &arm.body, found)?)?;
    }
    Ok(())
}

#[cycle(define)]
#[tactic(auto, using(crate::proofs::Rules::found_in_definitions))]
fn check_states<'a>(
    alloc: Global,
    scope: &mut Scope<'a>,
    states: &'a [State],
    blocks: &mut Vec<Uses<'a>>,
    found: &mut Option<Breach<'a>>,
) -> Result<(), AllocError>
    ensures scope { OnOk result (scope.new ≡ scope.old) }
    ensures blocks { OnOk result (map how blocks.new.items ≡ map how blocks.old.items ++ uses_in_states (states_of (map state_seen states.now))) }
    ensures found { OnOk result (found.new ≡ found_after found.old (in_states scope.old (states_of (map state_seen states.now)))) }
{
    for state in states {
        blocks.push(check_state(alloc, scope, state, found)?)?;
    }
    Ok(())
}

/// A state: its weak transitions see the variables of its body.
#[cycle(define)]
#[tactic(auto, using(crate::proofs::Rules::found_in_definitions))]
fn check_state<'a>(
    alloc: Global,
    scope: &mut Scope<'a>,
    state: &'a State,
    found: &mut Option<Breach<'a>>,
) -> Result<Uses<'a>, AllocError>
    ensures scope { OnOk result (scope.new ≡ scope.old) }
    ensures uses { IfOk result (λ uses. how uses ≡ use_in_block state.now.body) }
    ensures found { OnOk result (found.new ≡ found_after found.old (in_states scope.old (states_of (state_seen state.now ∷ [])))) }
{
    let mark = scope.mark();
    let uses = enter_block(alloc, scope, &state.body, found)?;
    check_transitions(alloc, scope, &state.until, found)?;
    scope.leave(mark);
    check_transitions(alloc, scope, &state.unless, found)?;
    Ok(uses)
}
