//! The clocks of expressions. An expression is read on a clock that is passed down to it.
ghost use Rattle.std.specs.Prelude.{◌≡◌, ◌<◌, length, Some, Err, OnOk, IfOk};
ghost use Rattle.hp_clocks.specs.declared.cell.Failure.TheVariants as Failure;
ghost use Rattle.hp_clocks.specs.Cells.{AreCells, Never, Tells};
ghost use Rattle.hp_clocks.specs.Scopes.{AreThere, IsClockOf, NeverRead, standing};
ghost use Rattle.hp_clocks.specs.Layers.{sight};
ghost use Rattle.hp_clocks.specs.Scopes.{Grows};
ghost use Rattle.hp_meaning.specs.Causal.Clocked.{IsOn, ExprsOn, PartsOn};
ghost use Rattle.hp_tree.specs.Expressions.{exprs_of, parts_of};

use crate::cell::{BASE, Cells, Failure};
use crate::layer::{Layer, Seen, sight};
use hp_base::Name;
use hp_tree::{Cons, Expr, ExprKind};

/// The name is on the clock.
#[tactic(auto, using(crate::proofs::Rules::names))]
pub fn put_name(
    layers: &[Layer],
    cells: &mut Cells,
    name: &Name,
    clock: usize,
) -> Result<(), Failure>
    requires are_cells { AreCells cells.old.cells.items }
    requires there { clock < length cells.old.cells.items }
    requires all_there { AreThere (length cells.old.cells.items) (sight layers.now) }
    ensures tells { OnOk result (Tells cells.old.cells.items cells.new.cells.items (λ at. standing at (sight layers.now) name.now ≡ Some (at clock))) }
    ensures clash { result ≡ Err Failure.Clash → Never cells.old.cells.items (λ at. standing at (sight layers.now) name.now ≡ Some (at clock)) }
{
    match sight(layers, name.bytes()) {
        Seen::Nowhere => Err(Failure::Clash),
        Seen::Own(own) => cells.unify(own, clock),
        Seen::Further(other) => {
            cells.unify(other, BASE)?;
            cells.unify(clock, BASE)
        }
    }
}

/// The clock of a name that is read.
#[tactic(auto, using(crate::proofs::Rules::names))]
fn clock_of_name(layers: &[Layer], cells: &mut Cells, name: &Name) -> Result<usize, Failure>
    requires are_cells { AreCells cells.old.cells.items }
    requires all_there { AreThere (length cells.old.cells.items) (sight layers.now) }
    ensures there { IfOk result (λ clock. clock < length cells.old.cells.items) }
    ensures tells { IfOk result (λ clock. Tells cells.old.cells.items cells.new.cells.items (λ at. standing at (sight layers.now) name.now ≡ Some (at clock))) }
    ensures clock { IfOk result (λ clock. IsClockOf cells.old.cells.items (sight layers.now) name.now clock) }
    ensures clash { result ≡ Err Failure.Clash → NeverRead cells.old.cells.items (sight layers.now) name.now }
{
    match sight(layers, name.bytes()) {
        Seen::Nowhere => Err(Failure::Clash),
        Seen::Own(own) => Ok(own),
        Seen::Further(other) => {
            cells.unify(other, BASE)?;
            Ok(BASE)
        }
    }
}

/// The expression is on the clock.
#[cycle(put)]
#[tactic(auto, using(crate::proofs::Rules::put))]
pub fn put_expr<'a>(
    layers: &[Layer],
    cells: &mut Cells<'a>,
    expr: &'a Expr,
    clock: usize,
) -> Result<(), Failure>
    requires are_cells { AreCells cells.old.cells.items }
    requires there { clock < length cells.old.cells.items }
    requires all_there { AreThere (length cells.old.cells.items) (sight layers.now) }
    ensures grows { OnOk result (Grows cells.old.cells.items cells.new.cells.items (λ at. IsOn (standing at (sight layers.now)) expr.now (at clock))) }
    ensures clash { result ≡ Err Failure.Clash → Never cells.old.cells.items (λ at. IsOn (standing at (sight layers.now)) expr.now (at clock)) }
{
    match &*expr.kind {
        ExprKind::Const(_) => Ok(()),
        ExprKind::Name(name) => put_name(layers, cells, name, clock),
        ExprKind::Last(_) => cells.unify(clock, BASE),
        ExprKind::One(_, a) | ExprKind::Pre(a) => put_expr(layers, cells, a, clock),
        ExprKind::Two(_, a, b) | ExprKind::Fby(a, b) | ExprKind::Arrow(a, b) => {
            put_expr(layers, cells, a, clock)?;
            put_expr(layers, cells, b, clock)
        }
        ExprKind::If(a, b, c) => {
            put_expr(layers, cells, a, clock)?;
            put_expr(layers, cells, b, clock)?;
            put_expr(layers, cells, c, clock)
        }
        ExprKind::When(a, cons, name) => {
            let under = clock_of_name(layers, cells, name)?;
            let on = cells.add_on(cons, name, under)?;
            cells.unify(clock, on)?;
            put_expr(layers, cells, a, under)
        }
        ExprKind::Merge(name, parts) => {
            put_name(layers, cells, name, clock)?;
            put_parts(layers, cells, name, parts, clock)
        }
        ExprKind::Call {
            node: _,
            inlined: _,
            args,
        } => put_args(layers, cells, args, clock),
    }
}

#[cycle(put)]
#[tactic(auto, using(crate::proofs::Rules::put))]
fn put_args<'a>(
    layers: &[Layer],
    cells: &mut Cells<'a>,
    args: &'a [Expr],
    clock: usize,
) -> Result<(), Failure>
    requires are_cells { AreCells cells.old.cells.items }
    requires there { clock < length cells.old.cells.items }
    requires all_there { AreThere (length cells.old.cells.items) (sight layers.now) }
    ensures grows { OnOk result (Grows cells.old.cells.items cells.new.cells.items (λ at. ExprsOn (standing at (sight layers.now)) (exprs_of args.now) (at clock))) }
    ensures clash { result ≡ Err Failure.Clash → Never cells.old.cells.items (λ at. ExprsOn (standing at (sight layers.now)) (exprs_of args.now) (at clock)) }
{
    for arg in args {
        put_expr(layers, cells, arg, clock)?;
    }
    Ok(())
}

/// Each operand of a `merge` is there where the name has its constructor.
#[cycle(put)]
#[tactic(auto, using(crate::proofs::Rules::put))]
fn put_parts<'a>(
    layers: &[Layer],
    cells: &mut Cells<'a>,
    name: &'a Name,
    parts: &'a [(Cons, Expr)],
    clock: usize,
) -> Result<(), Failure>
    requires are_cells { AreCells cells.old.cells.items }
    requires there { clock < length cells.old.cells.items }
    requires all_there { AreThere (length cells.old.cells.items) (sight layers.now) }
    ensures grows { OnOk result (Grows cells.old.cells.items cells.new.cells.items (λ at. PartsOn (standing at (sight layers.now)) name.now (parts_of parts.now) (at clock))) }
    ensures clash { result ≡ Err Failure.Clash → Never cells.old.cells.items (λ at. PartsOn (standing at (sight layers.now)) name.now (parts_of parts.now) (at clock)) }
{
    for (cons, expr) in parts {
        let on = cells.add_on(cons, name, clock)?;
        put_expr(layers, cells, expr, on)?;
    }
    Ok(())
}
