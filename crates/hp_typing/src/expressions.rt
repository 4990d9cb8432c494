//! The types of expressions.
ghost use Rattle.std.specs.Prelude.{◌≡◌, ◌++◌, drop};
ghost use Rattle.hp_tree.specs.Expressions.{exprs_of, parts_of};
ghost use Rattle.hp_base.specs.Known.Known.{lookup};
ghost use Rattle.hp_typing.specs.Seen.{kind_seen, kind_told, decls_told};
ghost use Rattle.hp_typing.specs.Types.{type_of, types_in, two_type, if_type, pair_type, merge_type, parts_fit, single, place, agrees, args_fit, all_typed, input_type, outputs_in, operand, answer, type_of_one};
ghost use Rattle.hp_typing.specs.Claims.{wants, tested, in_two, in_if, in_operands, in_outputs, in_expr, in_exprs, in_parts, in_pairs, in_call, in_test};
ghost use Rattle.hp_typing.specs.Breaches.{found_with, found_after};

use crate::breach::{Breach, want, want_choice, want_shape};
use crate::kind::{Kind, Shape, chooses};
use crate::scope::Scope;
use hp_base::first::note_all;
use hp_base::{Name, Span};
use hp_tree::{Cons, Decl, Expr, ExprKind, Op1, Op2};

/// Where the expression begins.
#[tactic(auto, using(crate::proofs::TypeLaws::place_law))]
pub fn place(expr: &Expr) -> Span
    ensures { result ≡ place expr.now }
{
    expr.span
}

/// What an operator wants, which is its type too.
fn kind_of_one<'a>(op: Op1) -> Kind<'a>
    ensures { kind_seen result ≡ type_of_one op }
{
    match op {
        Op1::Not => Kind::Bool,
        Op1::Neg => Kind::Int,
    }
}

/// What an operator wants of its operands, where the first has the type `first`.
fn operand_kind<'a>(op: Op2, first: Option<Kind<'a>>) -> Option<Kind<'a>>
    ensures { kind_told result ≡ operand op (kind_told first.entry) }
{
    match op {
        Op2::And | Op2::Or | Op2::Xor | Op2::Imp => Some(Kind::Bool),
        Op2::Eq | Op2::Ne => first,
        Op2::Lt | Op2::Le | Op2::Gt | Op2::Ge => Some(Kind::Int),
        Op2::Add | Op2::Sub | Op2::Mul | Op2::Div | Op2::Rem => Some(Kind::Int),
    }
}

/// The type of what an operator gives.
fn answer_kind<'a>(op: Op2) -> Kind<'a>
    ensures { kind_seen result ≡ answer op }
{
    match op {
        Op2::And | Op2::Or | Op2::Xor | Op2::Imp => Kind::Bool,
        Op2::Eq | Op2::Ne | Op2::Lt | Op2::Le | Op2::Gt | Op2::Ge => Kind::Bool,
        Op2::Add | Op2::Sub | Op2::Mul | Op2::Div | Op2::Rem => Kind::Int,
    }
}

/// Finds the first wrong type in the expression, and the type of the whole, where it has one.
#[cycle(check)]
#[tactic(auto, using(crate::proofs::Rules::found))]
pub fn check_expr<'a>(
    scope: &Scope<'a>,
    expr: &'a Expr,
    found: &mut Option<Breach<'a>>,
) -> Option<Kind<'a>>
    ensures kind { kind_told result ≡ type_of scope.now expr.now }
    ensures found { found.new ≡ found_after found.old (in_expr scope.now expr.now) }
{
    match &*expr.kind {
        ExprKind::Const(constant) => scope.constant_kind(constant),
        ExprKind::Name(name) => scope.variable_kind(name),
        ExprKind::Last(name) => scope.variable_kind(name),
        ExprKind::One(op, a) => {
            let is = check_expr(scope, a, found);
            let wanted = Some(kind_of_one(*op));
            if want(found, place(a), wanted, is) {
                wanted
            } else {
                None
            }
        }
        ExprKind::Two(op, a, b) => check_two(scope, *op, a, b, found),
        ExprKind::If(a, b, c) => check_if(scope, a, b, c, found),
        ExprKind::Pre(a) => check_expr(scope, a, found),
        ExprKind::Fby(a, b) => check_pair(scope, a, b, found),
        ExprKind::Arrow(a, b) => check_pair(scope, a, b, found),
        ExprKind::When(a, cons, name) => {
            let is = check_expr(scope, a, found);
            let wanted = scope.variable_kind(name);
            if want(found, expr.span, wanted, scope.cons_kind(cons)) {
                is
            } else {
                None
            }
        }
        ExprKind::Merge(name, parts) => {
            let name = scope.variable_kind(name);
            want_choice(found, expr.span, name);
            check_merge(scope, expr.span, name, parts, found)
        }
        ExprKind::Call {
            node,
            inlined: _,
            args,
        } => {
            let outputs = check_call(scope, expr.span, node, args, found);
            check_single(expr.span, outputs, found)
        }
    }
}

/// What an operator of two operands wants, and the type of what it gives.
#[cycle(check)]
#[tactic(auto, using(crate::proofs::Rules::found))]
fn check_two<'a>(
    scope: &Scope<'a>,
    op: Op2,
    a: &'a Expr,
    b: &'a Expr,
    found: &mut Option<Breach<'a>>,
) -> Option<Kind<'a>>
    ensures kind { kind_told result ≡ two_type op (type_of scope.now a.now) (type_of scope.now b.now) }
    ensures found { found.new ≡ found_after found.old (in_expr scope.now a.now ++ (in_expr scope.now b.now ++ in_two op (place a.now) (place b.now) (type_of scope.now a.now) (type_of scope.now b.now))) }
{
    let left = check_expr(scope, a, found);
    let right = check_expr(scope, b, found);
    let wanted = operand_kind(op, left);
    let left_fits = want(found, place(a), wanted, left);
    let right_fits = want(found, place(b), wanted, right);
    if left_fits && right_fits {
        Some(answer_kind(op))
    } else {
        None
    }
}

#[cycle(check)]
#[tactic(auto, using(crate::proofs::Rules::found))]
fn check_if<'a>(
    scope: &Scope<'a>,
    a: &'a Expr,
    b: &'a Expr,
    c: &'a Expr,
    found: &mut Option<Breach<'a>>,
) -> Option<Kind<'a>>
    ensures kind { kind_told result ≡ if_type (type_of scope.now a.now) (type_of scope.now b.now) (type_of scope.now c.now) }
    ensures found { found.new ≡ found_after found.old (in_expr scope.now a.now ++ (in_expr scope.now b.now ++ (in_expr scope.now c.now ++ in_if (place a.now) (place c.now) (type_of scope.now a.now) (type_of scope.now b.now) (type_of scope.now c.now)))) }
{
    let test = check_expr(scope, a, found);
    let first = check_expr(scope, b, found);
    let second = check_expr(scope, c, found);
    let test_fits = want(found, place(a), Some(Kind::Bool), test);
    let second_fits = want(found, place(c), first, second);
    if test_fits && second_fits {
        first
    } else {
        None
    }
}

/// Two operands of one type.
#[cycle(check)]
#[tactic(auto, using(crate::proofs::Rules::found))]
fn check_pair<'a>(
    scope: &Scope<'a>,
    a: &'a Expr,
    b: &'a Expr,
    found: &mut Option<Breach<'a>>,
) -> Option<Kind<'a>>
    ensures kind { kind_told result ≡ pair_type (type_of scope.now a.now) (type_of scope.now b.now) }
    ensures found { found.new ≡ found_after found.old (in_expr scope.now a.now ++ (in_expr scope.now b.now ++ tested (place b.now) (type_of scope.now a.now) (type_of scope.now b.now))) }
{
    let first = check_expr(scope, a, found);
    let second = check_expr(scope, b, found);
    if want(found, place(b), first, second) {
        first
    } else {
        None
    }
}

/// The parts of a `merge`.
#[cycle(check)]
#[tactic(auto, using(crate::proofs::Rules::found_in_operands))]
fn check_merge<'a>(
    scope: &Scope<'a>,
    at: Span,
    name: Option<Kind<'a>>,
    parts: &'a [(Cons, Expr)],
    found: &mut Option<Breach<'a>>,
) -> Option<Kind<'a>>
    ensures kind { kind_told result ≡ merge_type scope.now (kind_told name.entry) (parts_of parts.now) }
    ensures found { found.new ≡ found_after found.old (in_operands scope.now at (kind_told name.entry) (parts_of parts.now)) }
{
    match parts {
        [] => None,
        [(cons, right), rest @ ..] => {
            let cons_fits = want(found, at, name, scope.cons_kind(cons));
            let first = check_expr(scope, right, found);
            let rest_fit = check_parts(scope, at, name, first, rest, found);
            if chooses(name) && cons_fits && rest_fit {
                first
            } else {
                None
            }
        }
    }
}

/// Whether the parts fit the type of the name and that of the first operand.
#[cycle(check)]
#[tactic(auto, using(crate::proofs::Rules::found_in_parts))]
fn check_parts<'a>(
    scope: &Scope<'a>,
    at: Span,
    name: Option<Kind<'a>>,
    first: Option<Kind<'a>>,
    parts: &'a [(Cons, Expr)],
    found: &mut Option<Breach<'a>>,
) -> bool
    ensures fit { result ≡ parts_fit scope.now (kind_told name.entry) (kind_told first.entry) (parts_of parts.now) }
    ensures found { found.new ≡ found_after found.old (in_parts scope.now at (kind_told name.entry) (kind_told first.entry) (parts_of parts.now)) }
{
    let mut fit = true;
    for (cons, right) in parts {
        let cons_fits = want(found, at, name, scope.cons_kind(cons));
        let is = check_expr(scope, right, found);
        let right_fits = want(found, place(right), first, is);
        fit = fit & cons_fits & right_fits;
    }
    fit
}

/// The outputs of a call, where its arguments fit.
#[cycle(check)]
#[tactic(auto, using(crate::proofs::Rules::found_in_calls))]
pub fn check_call<'a>(
    scope: &Scope<'a>,
    at: Span,
    name: &'a Name,
    args: &'a [Expr],
    found: &mut Option<Breach<'a>>,
) -> Option<&'a [Decl]>
    ensures outputs { decls_told result ≡ outputs_in (lookup scope.now.nodes name.now) (types_in scope.now (exprs_of args.now)) }
    ensures found { found.new ≡ found_after found.old (in_call scope.now at name.now (exprs_of args.now)) }
{
    let mut mismatch = None;
    match scope.nodes.get(name) {
        None => {
            check_args(scope, &[], args, found, &mut mismatch);
            None
        }
        Some(node) => {
            let checked = check_args(scope, &node.inputs, args, found, &mut mismatch);
            let counts = (node.inputs.len(), args.len());
            note_inputs(at, counts, checked.typed, mismatch, found);
            if checked.fit {
                Some(&node.outputs)
            } else {
                None
            }
        }
    }
}

/// What is known of the arguments of a call.
#[derive(Clone, Copy)]
struct Arguments {
    /// Each has a type.
    typed: bool,
    /// There is one of the right type for each input.
    fit: bool,
}

/// The arguments of a call; what is wrong of their types beside the inputs' is noted apart.
#[cycle(check)]
#[tactic(auto, using(crate::proofs::Rules::found_in_args))]
fn check_args<'a>(
    scope: &Scope<'a>,
    inputs: &'a [Decl],
    args: &'a [Expr],
    found: &mut Option<Breach<'a>>,
    mismatch: &mut Option<Breach<'a>>,
) -> Arguments
    ensures typed { result.typed ≡ all_typed (types_in scope.now (exprs_of args.now)) }
    ensures fit { result.fit ≡ args_fit inputs.now (types_in scope.now (exprs_of args.now)) }
    ensures found { found.new ≡ found_after found.old (in_exprs scope.now (exprs_of args.now)) }
    ensures mismatch { mismatch.new ≡ found_after mismatch.old (in_pairs scope.now inputs.now (exprs_of args.now)) }
{
    let mut typed = true;
    let mut fit = true;
    for i in 0..args.len() {
        let arg = &args[i];
        let is = check_expr(scope, arg, found);
        typed = typed & is.is_some();
        let input_fits = check_input(inputs, i, place(arg), is, mismatch);
        fit = fit & input_fits;
    }
    fit = fit & (inputs.len() <= args.len());
    Arguments { typed, fit }
}

/// The argument for an input has to be of its type. Whether there is that input, and it is.
#[tactic(auto, using(crate::proofs::Rules::inputs))]
fn check_input<'a>(
    inputs: &'a [Decl],
    index: usize,
    at: Span,
    is: Option<Kind<'a>>,
    mismatch: &mut Option<Breach<'a>>,
) -> bool
    ensures fits { result ≡ agrees (input_type (drop index inputs.now)) (kind_told is.entry) }
    ensures mismatch { mismatch.new ≡ found_after mismatch.old (tested at (input_type (drop index inputs.now)) (kind_told is.entry)) }
{
    want(mismatch, at, input_kind(inputs, index), is)
}

/// The type of the input, if there is one.
#[tactic(auto, using(crate::proofs::Rules::inputs))]
fn input_kind<'a>(inputs: &'a [Decl], index: usize) -> Option<Kind<'a>>
    ensures { kind_told result ≡ input_type (drop index inputs.now) }
{
    if index < inputs.len() {
        let input = &inputs[index];
        Some(Kind::of(&input.ty))
    } else {
        None
    }
}

/// Where all arguments have types, there have to be as many as inputs; where there are, what is wrong of their types is noted.
#[tactic(auto, using(crate::proofs::Rules::found))]
fn note_inputs<'a>(
    at: Span,
    counts: (usize, usize),
    typed: bool,
    mismatch: Option<Breach<'a>>,
    found: &mut Option<Breach<'a>>,
)
    ensures { found.new ≡ found_with found.old at counts.0 counts.1 typed mismatch.entry }
{
    let (inputs, args) = counts;
    if !typed {
        return;
    }
    if inputs == args {
        note_all(found, mismatch);
    } else {
        want_shape(
            found,
            at,
            Shape::Row(inputs as u64),
            Shape::Row(args as u64),
        );
    }
}

/// The type of a call that is no right side: it has one output.
#[tactic(auto, using(crate::proofs::Rules::found))]
fn check_single<'a>(
    at: Span,
    outputs: Option<&'a [Decl]>,
    found: &mut Option<Breach<'a>>,
) -> Option<Kind<'a>>
    ensures kind { kind_told result ≡ single (decls_told outputs.entry) }
    ensures found { found.new ≡ found_after found.old (in_outputs at 1 (decls_told outputs.entry)) }
{
    match outputs {
        None => None,
        Some(outputs) => {
            want_shape(found, at, Shape::Row(1), Shape::Row(outputs.len() as u64));
            match outputs {
                [output] => Some(Kind::of(&output.ty)),
                _ => None,
            }
        }
    }
}

/// A condition has to be a `bool`.
#[tactic(auto, using(crate::proofs::Rules::found))]
pub fn check_test<'a>(scope: &Scope<'a>, expr: &'a Expr, found: &mut Option<Breach<'a>>)
    ensures { found.new ≡ found_after found.old (in_test scope.now expr.now) }
{
    let is = check_expr(scope, expr, found);
    want(found, place(expr), Some(Kind::Bool), is);
}
