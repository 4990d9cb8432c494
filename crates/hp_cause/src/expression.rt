//! What expressions read.
ghost use Rattle.std.specs.Prelude.{◌≡◌, ◌+◌, ◌<◌, ◌^◌, ◌++◌, [], ◌∷◌, Some, codes, map, IfOk, OnOk};
ghost use Rattle.hp_tree.specs.Expressions.{exprs_of, parts_of};
ghost use Rattle.hp_meaning.specs.declared.causal.point.PointKind.TheVariants.{Cond};
ghost use Rattle.hp_cause.specs.Facts.{stand, read};
ghost use Rattle.hp_cause.specs.Gathering.{on_clock, outer_clock, of_call, of_expr, of_exprs, of_parts, of_test, of_tests};
ghost use Rattle.hp_tables.specs.Defining.Layers.{sight};
ghost use Rattle.hp_cause.specs.Told.{facts_seen, names_seen, with_more};
ghost use Rattle.hp_cause.specs.Vertices.{calls_in, calls_in_all, calls_in_parts, is_call, own_of_test, size_of_tests};

use crate::fact::{Fact, depend, read, read_by_all, stand};
use hp_base::Span;
use hp_meaning::causal::PointKind;
use hp_tables::defining::{Layer, sight};
use hp_tree::{Cons, Expr, ExprKind, Trans};
use std::alloc::{AllocError, Global};

/// What is gathered so far.
#[derive(Drop)]
pub struct Notes<'a> {
    pub facts: Vec<Fact<'a>>,
    /// The number of the next vertex.
    pub next: usize,
}

/// Takes the next numbers, and gives the first of them.
pub fn take_numbers(next: &mut usize, count: usize) -> Result<usize, AllocError>
    ensures first { IfOk result (λ first. first ≡ next.old) }
    ensures next { OnOk result (next.new ≡ next.old + count) }
    ensures room { OnOk result (next.old + count < 2 ^ 64) }
{
    let first = *next;
    match first.checked_add(count) {
        None => Err(AllocError),
        Some(sum) => {
            *next = sum;
            Ok(first)
        }
    }
}

/// The vertex depends on the names of its clock.
#[tactic(auto, using(crate::proofs::Rules::told))]
pub fn add_clock(
    layers: &[Layer],
    clock: &[&[u8]],
    vertex: Option<usize>,
    facts: &mut Vec<Fact>,
) -> Result<(), AllocError>
    ensures { OnOk result (facts_seen facts.new.items ≡ with_more (facts_seen facts.old.items) (on_clock (sight layers.now) (names_seen clock.now) vertex)) }
{
    for i in 0..clock.len() {
        depend(vertex, sight(layers, clock[i]), facts)?;
    }
    Ok(())
}

/// The clock without its innermost step.
#[tactic(auto, using(crate::proofs::Rules::clocks))]
fn outer_clock<'t, 'a>(clock: &'t [&'a [u8]]) -> &'t [&'a [u8]]
    ensures { names_seen result.now ≡ outer_clock (names_seen clock.now) }
{
    match clock {
        [] => &[],
        [_, outer @ ..] => outer,
    }
}

/// The clock with one step more.
#[tactic(auto, using(crate::proofs::Rules::clocks))]
fn inner_clock<'a>(
    alloc: Global,
    name: &'a [u8],
    clock: &[&'a [u8]],
) -> Result<Vec<&'a [u8]>, AllocError>
    ensures { IfOk result (λ inner. names_seen inner.items ≡ name.now ∷ names_seen clock.now) }
{
    let mut inner = Vec::new(alloc);
    inner.push(name)?;
    inner.extend_from_slice(clock)?;
    Ok(inner)
}

/// A call: who reads it, and what it reads beside its arguments.
#[tactic(auto, using(crate::proofs::Rules::gathered))]
fn add_call<'a>(
    layers: &[Layer],
    control: Option<usize>,
    clock: &[&[u8]],
    readers: &[usize],
    node: &'a [u8],
    span: Span,
    vertex: usize,
    facts: &mut Vec<Fact<'a>>,
) -> Result<(), AllocError>
    ensures { OnOk result (facts_seen facts.new.items ≡ with_more (facts_seen facts.old.items) (of_call (sight layers.now) control (names_seen clock.now) readers.now node.now span vertex)) }
{
    stand(PointKind::Call, node, span, Some(vertex), facts)?;
    read_by_all(readers, Some(vertex), facts)?;
    read(Some(vertex), control, facts)?;
    add_clock(layers, clock, Some(vertex), facts)
}

/// An expression that the vertices read.
#[cycle(gather)]
#[tactic(auto, using(crate::proofs::Rules::gathered))]
pub fn gather_expr<'a>(
    alloc: Global,
    layers: &[Layer],
    control: Option<usize>,
    clock: &[&'a [u8]],
    readers: &[usize],
    expr: &'a Expr,
    notes: &mut Notes<'a>,
) -> Result<(), AllocError>
    ensures next { OnOk result (notes.new.next ≡ notes.old.next + calls_in expr.now) }
    ensures facts { OnOk result (facts_seen notes.new.facts.items ≡ with_more (facts_seen notes.old.facts.items) (of_expr (sight layers.now) control (names_seen clock.now) readers.now notes.old.next expr.now)) }
{
    match &*expr.kind {
        ExprKind::Const(_) | ExprKind::Last(_) => Ok(()),
        ExprKind::Name(name) => {
            read_by_all(readers, sight(layers, name.bytes()), &mut notes.facts)
        }
        ExprKind::One(_, a) => gather_expr(alloc, layers, control, clock, readers, a, notes),
        ExprKind::Two(_, a, b) | ExprKind::Arrow(a, b) => {
            gather_expr(alloc, layers, control, clock, readers, a, notes)?;
            gather_expr(alloc, layers, control, clock, readers, b, notes)
        }
        ExprKind::If(a, b, c) => {
            gather_expr(alloc, layers, control, clock, readers, a, notes)?;
            gather_expr(alloc, layers, control, clock, readers, b, notes)?;
            gather_expr(alloc, layers, control, clock, readers, c, notes)
        }
        ExprKind::Pre(a) => gather_expr(alloc, layers, control, clock, &[], a, notes),
        ExprKind::Fby(a, b) => {
            gather_expr(alloc, layers, control, clock, readers, a, notes)?;
            gather_expr(alloc, layers, control, clock, &[], b, notes)
        }
        ExprKind::When(a, _, name) => {
            read_by_all(readers, sight(layers, name.bytes()), &mut notes.facts)?;
            gather_expr(
                alloc,
                layers,
                control,
                outer_clock(clock),
                readers,
                a,
                notes,
            )
        }
        ExprKind::Merge(name, parts) => {
            read_by_all(readers, sight(layers, name.bytes()), &mut notes.facts)?;
            let inner = inner_clock(alloc, name.bytes(), clock)?;
            gather_parts(alloc, layers, control, &inner, readers, parts, notes)
        }
        ExprKind::Call {
            node,
            inlined: _,
            args,
        } => {
            let vertex = take_numbers(&mut notes.next, 1)?;
            add_call(
                layers,
                control,
                clock,
                readers,
                node.bytes(),
                expr.span,
                vertex,
                &mut notes.facts,
            )?;
            gather_args(alloc, layers, control, clock, vertex, args, notes)
        }
    }
}

/// The arguments of a call, which reads them.
#[cycle(gather)]
#[tactic(auto, using(crate::proofs::Rules::gathered_in_lists))]
fn gather_args<'a>(
    alloc: Global,
    layers: &[Layer],
    control: Option<usize>,
    clock: &[&'a [u8]],
    reader: usize,
    args: &'a [Expr],
    notes: &mut Notes<'a>,
) -> Result<(), AllocError>
    ensures next { OnOk result (notes.new.next ≡ notes.old.next + calls_in_all (exprs_of args.now)) }
    ensures facts { OnOk result (facts_seen notes.new.facts.items ≡ with_more (facts_seen notes.old.facts.items) (of_exprs (sight layers.now) control (names_seen clock.now) (reader ∷ []) notes.old.next (exprs_of args.now))) }
{
    for arg in args {
        gather_expr(alloc, layers, control, clock, &[reader], arg, notes)?;
    }
    Ok(())
}

#[cycle(gather)]
#[tactic(auto, using(crate::proofs::Rules::gathered_in_lists))]
fn gather_parts<'a>(
    alloc: Global,
    layers: &[Layer],
    control: Option<usize>,
    clock: &[&'a [u8]],
    readers: &[usize],
    parts: &'a [(Cons, Expr)],
    notes: &mut Notes<'a>,
) -> Result<(), AllocError>
    ensures next { OnOk result (notes.new.next ≡ notes.old.next + calls_in_parts (parts_of parts.now)) }
    ensures facts { OnOk result (facts_seen notes.new.facts.items ≡ with_more (facts_seen notes.old.facts.items) (of_parts (sight layers.now) control (names_seen clock.now) readers.now notes.old.next (parts_of parts.now))) }
{
    for (_, expr) in parts {
        gather_expr(alloc, layers, control, clock, readers, expr, notes)?;
    }
    Ok(())
}

fn is_call(expr: &Expr) -> bool
    ensures { result ≡ is_call expr.now }
{
    match &*expr.kind {
        ExprKind::Call {
            node: _,
            inlined: _,
            args: _,
        } => true,
        _ => false,
    }
}

/// The point of a condition: who reads it, and that it reads the control.
#[tactic(auto, using(crate::proofs::Rules::gathered))]
fn add_test(
    control: Option<usize>,
    reader: usize,
    vertex: usize,
    span: Span,
    facts: &mut Vec<Fact>,
) -> Result<(), AllocError>
    ensures { OnOk result (facts_seen facts.new.items ≡ with_more (facts_seen facts.old.items) (stand Cond (codes "cond") span (Some vertex) ++ (read (Some reader) (Some vertex) ++ read (Some vertex) control))) }
{
    stand(PointKind::Cond, b"cond", span, Some(vertex), facts)?;
    read(Some(reader), Some(vertex), facts)?;
    read(Some(vertex), control, facts)
}

/// The condition of a transition, which a word of its automaton reads. One that is a call is one vertex with it.
#[tactic(auto, using(crate::proofs::Rules::gathered))]
fn gather_test<'a>(
    alloc: Global,
    layers: &[Layer],
    control: Option<usize>,
    reader: usize,
    expr: &'a Expr,
    notes: &mut Notes<'a>,
) -> Result<(), AllocError>
    ensures next { OnOk result (notes.new.next ≡ (notes.old.next + own_of_test expr.now) + calls_in expr.now) }
    ensures facts { OnOk result (facts_seen notes.new.facts.items ≡ with_more (facts_seen notes.old.facts.items) (of_test (sight layers.now) control reader notes.old.next expr.now)) }
{
    let vertex = notes.next;
    add_test(control, reader, vertex, expr.span, &mut notes.facts)?;
    if is_call(expr) {
        return gather_expr(alloc, layers, control, &[], &[], expr, notes);
    }
    take_numbers(&mut notes.next, 1)?;
    gather_expr(alloc, layers, control, &[], &[vertex], expr, notes)
}

#[tactic(auto, using(crate::proofs::Rules::gathered_in_lists))]
pub fn gather_tests<'a>(
    alloc: Global,
    layers: &[Layer],
    control: Option<usize>,
    reader: usize,
    transitions: &'a [Trans],
    notes: &mut Notes<'a>,
) -> Result<(), AllocError>
    ensures next { OnOk result (notes.new.next ≡ notes.old.next + size_of_tests transitions.now) }
    ensures facts { OnOk result (facts_seen notes.new.facts.items ≡ with_more (facts_seen notes.old.facts.items) (of_tests (sight layers.now) control reader notes.old.next transitions.now)) }
{
    for transition in transitions {
        gather_test(alloc, layers, control, reader, &transition.cond, notes)?;
    }
    Ok(())
}
