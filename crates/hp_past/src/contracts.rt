//! The own blocks and the conditions of contracts.
ghost use Rattle.std.specs.Prelude.{◌≡◌, Some, map, IfOk, OnOk};
ghost use Rattle.hp_tree.specs.BlockView.{eqn_seen, arm_seen};
ghost use Rattle.hp_tree.specs.Blocks.{eqns_of};
ghost use Rattle.hp_past.specs.Unfolding.{in_eqn, in_eqns, in_condition, in_parts_of, in_contract, in_optional, joined_block};
ghost use Rattle.hp_past.specs.Own.{equations_of};
ghost use Rattle.hp_past.specs.Made.{added_of};

use crate::additions::Additions;
use crate::expressions::unfold_expr;
use crate::text::Text;
use hp_tree::{Arm, Block, Contract, Decl, Eqn, Expr, copy_decls, copy_left};
use std::alloc::{AllocError, Global};

fn copy_arms(alloc: Global, arms: &[Arm]) -> Result<Vec<Arm>, AllocError>
    ensures { IfOk result (λ copies. copies.items ≡ arms.now) }
{
    let mut copies = Vec::new(alloc);
    for arm in arms {
        copies.push(arm.copy(alloc)?)?;
    }
    Ok(copies)
}

/// An equation of a contract's own block. The blocks in it are left alone.
fn unfold_eqn(text: &Text<'_>, eqn: &Eqn, added: &mut Additions) -> Result<Eqn, AllocError>
    ensures eqn { IfOk result (λ other. eqn_seen other ≡ (in_eqn text.now.formulas text.now.names (eqn_seen eqn.now) (added_of added.old)).0) }
    ensures added { OnOk result (added_of added.new ≡ (in_eqn text.now.formulas text.now.names (eqn_seen eqn.now) (added_of added.old)).1) }
{
    match eqn {
        Eqn::Def { span, names, right } => Ok(Eqn::Def {
            span: *span,
            names: copy_left(text.alloc, names)?,
            right: unfold_expr(text, right, added)?,
        }),
        Eqn::Switch { span, cond, arms } => Ok(Eqn::Switch {
            span: *span,
            cond: unfold_expr(text, cond, added)?,
            arms: copy_arms(text.alloc, arms)?,
        }),
        Eqn::Reset { span, body, cond } => Ok(Eqn::Reset {
            span: *span,
            body: body.copy(text.alloc)?,
            cond: unfold_expr(text, cond, added)?,
        }),
        Eqn::Automaton { .. } => eqn.copy(text.alloc),
    }
}

#[tactic(auto, using(crate::proofs::Rules::eqns))]
fn unfold_eqns(text: &Text<'_>, eqns: &[Eqn], added: &mut Additions) -> Result<Vec<Eqn>, AllocError>
    ensures eqns { IfOk result (λ others. map eqn_seen others.items ≡ (in_eqns text.now.formulas text.now.names (eqns_of (map eqn_seen eqns.now)) (added_of added.old)).0) }
    ensures added { OnOk result (added_of added.new ≡ (in_eqns text.now.formulas text.now.names (eqns_of (map eqn_seen eqns.now)) (added_of added.old)).1) }
{
    let mut others = Vec::new(text.alloc);
    for eqn in eqns {
        others.push(unfold_eqn(text, eqn, added)?)?;
    }
    Ok(others)
}

fn unfold_condition(
    text: &Text<'_>,
    condition: &Option<Expr>,
    added: &mut Additions,
) -> Result<Option<Expr>, AllocError>
    ensures condition { IfOk result (λ other. other ≡ (in_condition text.now.formulas text.now.names condition.now (added_of added.old)).0) }
    ensures added { OnOk result (added_of added.new ≡ (in_condition text.now.formulas text.now.names condition.now (added_of added.old)).1) }
{
    match condition {
        None => Ok(None),
        Some(expr) => Ok(Some(unfold_expr(text, expr, added)?)),
    }
}

fn unfold_block(
    text: &Text<'_>,
    block: &Block,
    added: &mut Additions,
) -> Result<Vec<Eqn>, AllocError>
    ensures eqns { IfOk result (λ others. map eqn_seen others.items ≡ (in_eqns text.now.formulas text.now.names (equations_of block.now) (added_of added.old)).0) }
    ensures added { OnOk result (added_of added.new ≡ (in_eqns text.now.formulas text.now.names (equations_of block.now) (added_of added.old)).1) }
{
    unfold_eqns(text, &block.eqns, added)
}

/// What a contract is made of, unfolded, but for what is added.
#[derive(Drop)]
struct Parts {
    eqns: Vec<Eqn>,
    assume: Option<Expr>,
    enforce: Option<Expr>,
}

fn unfold_parts(
    text: &Text<'_>,
    contract: &Contract,
    added: &mut Additions,
) -> Result<Parts, AllocError>
    ensures eqns { IfOk result (λ parts. map eqn_seen parts.eqns.items ≡ (in_parts_of text.now.formulas text.now.names contract.now (added_of added.old)).0.eqns) }
    ensures assume { IfOk result (λ parts. parts.assume ≡ (in_parts_of text.now.formulas text.now.names contract.now (added_of added.old)).0.assume) }
    ensures enforce { IfOk result (λ parts. parts.enforce ≡ (in_parts_of text.now.formulas text.now.names contract.now (added_of added.old)).0.enforce) }
    ensures added { OnOk result (added_of added.new ≡ (in_parts_of text.now.formulas text.now.names contract.now (added_of added.old)).1) }
{
    let eqns = unfold_block(text, &contract.body, added)?;
    let assume = unfold_condition(text, &contract.assume, added)?;
    let enforce = unfold_condition(text, &contract.enforce, added)?;
    Ok(Parts {
        eqns,
        assume,
        enforce,
    })
}

/// The block of a contract, with what is added behind its own.
#[tactic(auto, using(crate::proofs::Rules::joined), unfolding(crate::specs::Made::added_of, crate::specs::Unfolding::joined_block))]
fn joined_block(locals: Vec<Decl>, eqns: Vec<Eqn>, added: Additions) -> Result<Block, AllocError>
    ensures { IfOk result (λ block. block ≡ joined_block locals.items (map eqn_seen eqns.items) (added_of added)) }
{
    let Additions {
        locals: mut more_locals,
        eqns: mut more_eqns,
        ..
    } = added;
    let mut locals = locals;
    let mut eqns = eqns;
    locals.append(&mut more_locals)?;
    eqns.append(&mut more_eqns)?;
    Ok(Block { locals, eqns })
}

fn unfold_contract(
    text: &Text<'_>,
    contract: &Contract,
    next: &mut u64,
) -> Result<Contract, AllocError>
    ensures contract { IfOk result (λ other. other ≡ (in_contract text.now.formulas text.now.names contract.now next.old).0) }
    ensures next { OnOk result (next.new ≡ (in_contract text.now.formulas text.now.names contract.now next.old).1) }
{
    let mut added = Additions::new(text.alloc, *next);
    let parts = unfold_parts(text, contract, &mut added)?;
    *next = added.next();
    let locals = copy_decls(text.alloc, &contract.body.locals)?;
    let controls = copy_decls(text.alloc, &contract.controls)?;
    let Parts {
        eqns,
        assume,
        enforce,
    } = parts;
    let body = joined_block(locals, eqns, added)?;
    Ok(Contract {
        body,
        assume,
        enforce,
        controls,
        span: contract.span,
    })
}

/// The contract of a node, and the number for the next name.
pub fn unfold_optional(
    text: &Text<'_>,
    contract: &Option<Contract>,
    next: &mut u64,
) -> Result<Option<Contract>, AllocError>
    ensures contract { IfOk result (λ other. other ≡ (in_optional text.now.formulas text.now.names contract.now next.old).0) }
    ensures next { OnOk result (next.new ≡ (in_optional text.now.formulas text.now.names contract.now next.old).1) }
{
    match contract {
        None => Ok(None),
        Some(contract) => Ok(Some(unfold_contract(text, contract, next)?)),
    }
}
