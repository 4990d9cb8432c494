//! Inlined calls and the equations that replace them.
ghost use Rattle.std.specs.Prelude.{◌≡◌, ◌+◌, ◌++◌, [], ◌∷◌, map, IfOk, OnOk};
ghost use Rattle.hp_tree.specs.Expressions.{call, exprs_of, parts_of};
ghost use Rattle.hp_tree.specs.ExpressionView.{expr_at};
ghost use Rattle.hp_tree.specs.BlockView.{eqn_seen};
ghost use Rattle.hp_tree.specs.Blocks.{list_of_eqns, define};
ghost use Rattle.hp_expand.specs.Renaming.{renamed_decls, renamed_eqns};
ghost use Rattle.hp_expand.specs.NewNames.{marked};
ghost use Rattle.hp_expand.specs.Replacing.{given, names_of, locals_of, equations_of, defined_by, output_at, in_expr, in_exprs, in_parts};
ghost use Rattle.hp_expand.specs.Layers.{said};
ghost use Rattle.hp_expand.specs.Making.{with_more};
ghost use Rattle.hp_expand.specs.NodeTables.{node_in};

use crate::names::{Naming, take_number};
use crate::nodes::Nodes;
use crate::rename::{add_decls, add_eqns};
use hp_base::{Name, Span};
use hp_tree::{Cons, Decl, Eqn, Expr, ExprKind};
use std::alloc::{AllocError, Global};

/// What has been made of a block whose inlined calls are replaced.
#[derive(Drop)]
pub struct Made {
    pub locals: Vec<Decl>,
    pub eqns: Vec<Eqn>,
    /// The number of the next call of the node that is replaced.
    pub next: u64,
}

#[tactic(auto, using(crate::proofs::Rules::pushed))]
pub fn push_eqn(eqns: &mut Vec<Eqn>, eqn: Eqn) -> Result<(), AllocError>
    ensures { OnOk result (map eqn_seen eqns.new.items ≡ with_more (map eqn_seen eqns.old.items) (eqn_seen eqn ∷ [])) }
{
    eqns.push(eqn)?;
    Ok(())
}

/// Adds an equation of one name.
fn add_definition(
    alloc: Global,
    span: Span,
    name: (Name, Span),
    right: Expr,
    into: &mut Vec<Eqn>,
) -> Result<(), AllocError>
    ensures { OnOk result (map eqn_seen into.new.items ≡ with_more (map eqn_seen into.old.items) (define span (name ∷ []) right ∷ [])) }
{
    let mut names = Vec::new(alloc);
    names.push(name)?;
    push_eqn(into, Eqn::Def { span, names, right })
}

/// Adds an equation for each input, which is defined by the argument.
#[tactic(auto, using(crate::proofs::Rules::given))]
fn add_given(
    alloc: Global,
    naming: &Naming<'_>,
    inputs: &[Decl],
    args: &[Expr],
    into: &mut Vec<Eqn>,
) -> Result<(), AllocError>
    ensures { OnOk result (map eqn_seen into.new.items ≡ with_more (map eqn_seen into.old.items) (given (renamed_decls (said naming.now) inputs.now) (exprs_of args.now))) }
{
    for i in 0..inputs.len().min(args.len()) {
        let input = &inputs[i];
        let arg = &args[i];
        let name = naming.name(alloc, &input.name)?;
        add_definition(
            alloc,
            input.span,
            (name, input.span),
            arg.copy(alloc)?,
            into,
        )?;
    }
    Ok(())
}

/// Adds an equation for each name, which is defined by the output.
#[tactic(auto, using(crate::proofs::Rules::given))]
pub fn add_definitions(
    alloc: Global,
    span: Span,
    names: &[(Name, Span)],
    at: Span,
    outputs: &[Name],
    into: &mut Vec<Eqn>,
) -> Result<(), AllocError>
    ensures { OnOk result (map eqn_seen into.new.items ≡ with_more (map eqn_seen into.old.items) (defined_by span names.now at outputs.now)) }
{
    for i in 0..names.len().min(outputs.len()) {
        let (name, place) = &names[i];
        let output = &outputs[i];
        let right = Expr::new(alloc, at, ExprKind::Name(output.copy(alloc)?))?;
        add_definition(alloc, span, (name.copy(alloc)?, *place), right, into)?;
    }
    Ok(())
}

#[tactic(auto, using(crate::proofs::Rules::more))]
fn output_names(
    alloc: Global,
    naming: &Naming<'_>,
    outputs: &[Decl],
) -> Result<Vec<Name>, AllocError>
    ensures { IfOk result (λ names. names.items ≡ names_of (renamed_decls (said naming.now) outputs.now)) }
{
    let mut names = Vec::new(alloc);
    for output in outputs {
        names.push(naming.name(alloc, &output.name)?)?;
    }
    Ok(names)
}

/// Adds what replaces an inlined call over such arguments, and gives the new names of the outputs.
pub fn inline(
    alloc: Global,
    nodes: &Nodes<'_>,
    node: &Name,
    args: &[Expr],
    made: &mut Made,
) -> Result<Vec<Name>, AllocError>
    ensures outputs { IfOk result (λ names. names.items ≡ names_of (renamed_decls (marked made.old.next) (node_in nodes.now node.now).outputs)) }
    ensures locals { OnOk result (made.new.locals.items ≡ with_more made.old.locals.items (renamed_decls (marked made.old.next) ((node_in nodes.now node.now).inputs ++ ((node_in nodes.now node.now).outputs ++ locals_of (node_in nodes.now node.now).body)))) }
    ensures eqns { OnOk result (map eqn_seen made.new.eqns.items ≡ with_more (map eqn_seen made.old.eqns.items) (given (renamed_decls (marked made.old.next) (node_in nodes.now node.now).inputs) (exprs_of args.now) ++ list_of_eqns (renamed_eqns (marked made.old.next) (equations_of (node_in nodes.now node.now).body)))) }
    ensures next { OnOk result (made.new.next ≡ made.old.next + 1) }
{
    let callee = nodes.callee(node);
    let naming = Naming::Marked(take_number(&mut made.next)?);
    add_given(alloc, &naming, callee.inputs, args, &mut made.eqns)?;
    add_eqns(alloc, &naming, callee.eqns, &mut made.eqns)?;
    add_decls(alloc, &naming, callee.inputs, &mut made.locals)?;
    add_decls(alloc, &naming, callee.outputs, &mut made.locals)?;
    add_decls(alloc, &naming, callee.locals, &mut made.locals)?;
    let outputs = output_names(alloc, &naming, callee.outputs)?;
    Ok(outputs)
}

/// The variable of the one output.
fn first_output(alloc: Global, outputs: &[Name]) -> Result<ExprKind, AllocError>
    ensures { IfOk result (λ kind. (span : Span) → expr_at span kind ≡ output_at span outputs.now) }
{
    match outputs {
        [] => Ok(ExprKind::Name(Name::new(alloc, &[])?)),
        [output, ..] => Ok(ExprKind::Name(output.copy(alloc)?)),
    }
}

/// An expression. What replaces its calls is added before.
#[cycle(replace)]
#[tactic(auto, using(crate::proofs::Rules::replaced_kinds))]
pub fn replace_expr(
    alloc: Global,
    nodes: &Nodes<'_>,
    expr: &Expr,
    made: &mut Made,
) -> Result<Expr, AllocError>
    ensures expr { IfOk result (λ other. other ≡ (in_expr (node_in nodes.now) made.old.next expr.now).part) }
    ensures locals { OnOk result (made.new.locals.items ≡ with_more made.old.locals.items (in_expr (node_in nodes.now) made.old.next expr.now).locals) }
    ensures eqns { OnOk result (map eqn_seen made.new.eqns.items ≡ with_more (map eqn_seen made.old.eqns.items) (in_expr (node_in nodes.now) made.old.next expr.now).before) }
    ensures next { OnOk result (made.new.next ≡ (in_expr (node_in nodes.now) made.old.next expr.now).next) }
{
    let kind = replace_kind(alloc, nodes, expr.span, &expr.kind, made)?;
    Expr::new(alloc, expr.span, kind)
}

#[cycle(replace)]
#[tactic(auto, using(crate::proofs::Rules::replaced_exprs))]
fn replace_kind(
    alloc: Global,
    nodes: &Nodes<'_>,
    span: Span,
    kind: &ExprKind,
    made: &mut Made,
) -> Result<ExprKind, AllocError>
    ensures kind { IfOk result (λ other. expr_at span other ≡ (in_expr (node_in nodes.now) made.old.next (expr_at span kind.now)).part) }
    ensures locals { OnOk result (made.new.locals.items ≡ with_more made.old.locals.items (in_expr (node_in nodes.now) made.old.next (expr_at span kind.now)).locals) }
    ensures eqns { OnOk result (map eqn_seen made.new.eqns.items ≡ with_more (map eqn_seen made.old.eqns.items) (in_expr (node_in nodes.now) made.old.next (expr_at span kind.now)).before) }
    ensures next { OnOk result (made.new.next ≡ (in_expr (node_in nodes.now) made.old.next (expr_at span kind.now)).next) }
{
    match kind {
        ExprKind::Const(c) => Ok(ExprKind::Const(c.copy(alloc)?)),
        ExprKind::Name(x) => Ok(ExprKind::Name(x.copy(alloc)?)),
        ExprKind::Last(x) => Ok(ExprKind::Last(x.copy(alloc)?)),
        ExprKind::One(op, a) => Ok(ExprKind::One(*op, replace_expr(alloc, nodes, a, made)?)),
        ExprKind::Two(op, a, b) => Ok(ExprKind::Two(
            *op,
            replace_expr(alloc, nodes, a, made)?,
            replace_expr(alloc, nodes, b, made)?,
        )),
        ExprKind::If(a, b, c) => Ok(ExprKind::If(
            replace_expr(alloc, nodes, a, made)?,
            replace_expr(alloc, nodes, b, made)?,
            replace_expr(alloc, nodes, c, made)?,
        )),
        ExprKind::Pre(a) => Ok(ExprKind::Pre(replace_expr(alloc, nodes, a, made)?)),
        ExprKind::Fby(a, b) => Ok(ExprKind::Fby(
            replace_expr(alloc, nodes, a, made)?,
            replace_expr(alloc, nodes, b, made)?,
        )),
        ExprKind::Arrow(a, b) => Ok(ExprKind::Arrow(
            replace_expr(alloc, nodes, a, made)?,
            replace_expr(alloc, nodes, b, made)?,
        )),
        ExprKind::When(a, c, x) => Ok(ExprKind::When(
            replace_expr(alloc, nodes, a, made)?,
            c.copy(alloc)?,
            x.copy(alloc)?,
        )),
        ExprKind::Merge(x, parts) => Ok(ExprKind::Merge(
            x.copy(alloc)?,
            replace_parts(alloc, nodes, parts, made)?,
        )),
        ExprKind::Call {
            node,
            inlined,
            args,
        } => replace_call(alloc, nodes, span, node, *inlined, args, made),
    }
}

#[cycle(replace)]
#[tactic(auto, using(crate::proofs::Rules::replaced_exprs))]
fn replace_call(
    alloc: Global,
    nodes: &Nodes<'_>,
    span: Span,
    node: &Name,
    inlined: bool,
    args: &[Expr],
    made: &mut Made,
) -> Result<ExprKind, AllocError>
    ensures kind { IfOk result (λ other. expr_at span other ≡ (in_expr (node_in nodes.now) made.old.next (call span node.now inlined (exprs_of args.now))).part) }
    ensures locals { OnOk result (made.new.locals.items ≡ with_more made.old.locals.items (in_expr (node_in nodes.now) made.old.next (call span node.now inlined (exprs_of args.now))).locals) }
    ensures eqns { OnOk result (map eqn_seen made.new.eqns.items ≡ with_more (map eqn_seen made.old.eqns.items) (in_expr (node_in nodes.now) made.old.next (call span node.now inlined (exprs_of args.now))).before) }
    ensures next { OnOk result (made.new.next ≡ (in_expr (node_in nodes.now) made.old.next (call span node.now inlined (exprs_of args.now))).next) }
{
    let args = replace_args(alloc, nodes, args, made)?;
    if inlined {
        let outputs = inline(alloc, nodes, node, &args, made)?;
        return first_output(alloc, &outputs);
    }
    Ok(ExprKind::Call {
        node: node.copy(alloc)?,
        inlined,
        args,
    })
}

#[cycle(replace)]
#[tactic(auto, using(crate::proofs::Rules::replaced_lists))]
pub fn replace_args(
    alloc: Global,
    nodes: &Nodes<'_>,
    args: &[Expr],
    made: &mut Made,
) -> Result<Vec<Expr>, AllocError>
    ensures args { IfOk result (λ others. exprs_of others.items ≡ (in_exprs (node_in nodes.now) made.old.next (exprs_of args.now)).part) }
    ensures locals { OnOk result (made.new.locals.items ≡ with_more made.old.locals.items (in_exprs (node_in nodes.now) made.old.next (exprs_of args.now)).locals) }
    ensures eqns { OnOk result (map eqn_seen made.new.eqns.items ≡ with_more (map eqn_seen made.old.eqns.items) (in_exprs (node_in nodes.now) made.old.next (exprs_of args.now)).before) }
    ensures next { OnOk result (made.new.next ≡ (in_exprs (node_in nodes.now) made.old.next (exprs_of args.now)).next) }
{
    let mut others = Vec::new(alloc);
    for arg in args {
        others.push(replace_expr(alloc, nodes, arg, made)?)?;
    }
    Ok(others)
}

#[cycle(replace)]
#[tactic(auto, using(crate::proofs::Rules::replaced_lists))]
fn replace_parts(
    alloc: Global,
    nodes: &Nodes<'_>,
    parts: &[(Cons, Expr)],
    made: &mut Made,
) -> Result<Vec<(Cons, Expr)>, AllocError>
    ensures parts { IfOk result (λ others. parts_of others.items ≡ (in_parts (node_in nodes.now) made.old.next (parts_of parts.now)).part) }
    ensures locals { OnOk result (made.new.locals.items ≡ with_more made.old.locals.items (in_parts (node_in nodes.now) made.old.next (parts_of parts.now)).locals) }
    ensures eqns { OnOk result (map eqn_seen made.new.eqns.items ≡ with_more (map eqn_seen made.old.eqns.items) (in_parts (node_in nodes.now) made.old.next (parts_of parts.now)).before) }
    ensures next { OnOk result (made.new.next ≡ (in_parts (node_in nodes.now) made.old.next (parts_of parts.now)).next) }
{
    let mut others = Vec::new(alloc);
    for (cons, right) in parts {
        let cons = cons.copy(alloc)?;
        others.push((cons, replace_expr(alloc, nodes, right, made)?))?;
    }
    Ok(others)
}
