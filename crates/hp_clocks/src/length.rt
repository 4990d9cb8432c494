//! How many steps clocks have.
ghost use Rattle.std.specs.Prelude.{◌≡◌, ◌<◌, ◌≤◌, suc, length, map, All};
ghost use Rattle.hp_tree.specs.Expressions.{exprs_of, parts_of};
ghost use Rattle.hp_clocks.specs.Cells.{AreCells};
ghost use Rattle.hp_clocks.specs.Solved.{clock_read};
ghost use Rattle.hp_clocks.specs.Longest.{counted, longest as longest_on, longest_of_all, longest_of_parts as longest_part, longest_local, longest_right, longest_solved, TellsLong};

use crate::cell::{Cell, Cells};
use crate::solve::Solution;
use hp_tree::{Cons, Expr, ExprKind};

/// What is counted of clocks: no more than one above the limit.
const MOST: usize = 65;

/// The number of steps of a clock, as far as it is counted.
#[tactic(auto, using(crate::proofs::LengthRules::walking))]
fn length(cells: &Cells, clock: usize) -> usize
    requires are_cells { AreCells cells.now.cells.items }
    requires there { clock < length cells.now.cells.items }
    ensures { result ≡ counted (length (clock_read cells.now.cells.items clock)) }
{
    let mut count = 0;
    let mut at = clock;
    while count < MOST {
        match cells.cell(at) {
            Cell::Same(next) => at = next,
            Cell::On(_, _, under) => {
                count += 1;
                at = under;
            }
            Cell::Open(_) | Cell::Base => return count,
        }
    }
    count
}

/// One step more, as far as it is counted.
fn one_more(length: usize) -> usize
    requires { length ≤ 65 }
    ensures { result ≡ counted (suc length) }
{
    (length + 1).min(MOST)
}

/// The longest clock in an expression on a clock of this length, as far as it is counted.
#[cycle(longest)]
#[tactic(auto, using(crate::proofs::LengthRules::counting))]
fn longest_in(expr: &Expr, length: usize) -> usize
    requires { length ≤ 65 }
    ensures { result ≡ counted (longest_on expr.now length) }
{
    match &*expr.kind {
        ExprKind::Const(_) | ExprKind::Name(_) | ExprKind::Last(_) => length,
        ExprKind::One(_, a) | ExprKind::Pre(a) => longest_in(a, length),
        ExprKind::Two(_, a, b) | ExprKind::Fby(a, b) | ExprKind::Arrow(a, b) => {
            longest_in(a, length).max(longest_in(b, length))
        }
        ExprKind::If(a, b, c) => longest_in(a, length)
            .max(longest_in(b, length))
            .max(longest_in(c, length)),
        ExprKind::When(a, _, _) => length.max(longest_in(a, length.saturating_sub(1))),
        ExprKind::Merge(_, parts) => length.max(longest_of_parts(parts, one_more(length))),
        ExprKind::Call {
            node: _,
            inlined: _,
            args,
        } => length.max(longest_of_args(args, length)),
    }
}

#[cycle(longest)]
#[tactic(auto, using(crate::proofs::LengthRules::parts))]
fn longest_of_args(args: &[Expr], length: usize) -> usize
    requires { length ≤ 65 }
    ensures { result ≡ counted (longest_of_all (exprs_of args.now) length) }
{
    let mut most = 0;
    for arg in args {
        most = most.max(longest_in(arg, length));
    }
    most
}

#[cycle(longest)]
#[tactic(auto, using(crate::proofs::LengthRules::parts))]
fn longest_of_parts(parts: &[(Cons, Expr)], length: usize) -> usize
    requires { length ≤ 65 }
    ensures { result ≡ counted (longest_part (parts_of parts.now) length) }
{
    let mut most = 0;
    for (_, expr) in parts {
        most = most.max(longest_in(expr, length));
    }
    most
}

fn longest_of_locals(cells: &Cells, locals: &[usize]) -> usize
    requires are_cells { AreCells cells.now.cells.items }
    requires there { All (λ l. l < length cells.now.cells.items) locals.now }
    ensures { result ≡ counted (longest_local (map (λ l. clock_read cells.now.cells.items l) locals.now)) }
{
    let mut most = 0;
    for local in locals {
        most = most.max(length(cells, *local));
    }
    most
}

fn longest_of_rights(cells: &Cells, rights: &[(usize, &Expr)]) -> usize
    requires are_cells { AreCells cells.now.cells.items }
    requires there { All (λ r. r.0 < length cells.now.cells.items) rights.now }
    ensures { result ≡ counted (longest_right (map (λ r. (clock_read cells.now.cells.items r.0, r.1.now)) rights.now)) }
{
    let mut most = 0;
    for (clock, expr) in rights {
        most = most.max(longest_in(expr, length(cells, *clock)));
    }
    most
}

fn longest_counted(solution: &Solution) -> usize
    requires are_cells { AreCells solution.now.cells.cells.items }
    requires locals_there { All (λ l. l < length solution.now.cells.cells.items) solution.now.locals.items }
    requires rights_there { All (λ r. r.0 < length solution.now.cells.cells.items) solution.now.rights.items }
    ensures { result ≡ counted (longest_solved solution.now) }
{
    let locals = longest_of_locals(&solution.cells, &solution.locals);
    locals.max(longest_of_rights(&solution.cells, &solution.rights))
}

/// The longest clock of a node, of its locals and its expressions, as far as it is counted.
pub fn longest(solution: &Solution) -> usize
    requires are_cells { AreCells solution.now.cells.cells.items }
    requires locals_there { All (λ l. l < length solution.now.cells.cells.items) solution.now.locals.items }
    requires rights_there { All (λ r. r.0 < length solution.now.cells.cells.items) solution.now.rights.items }
    ensures at_most { result ≤ 65 }
    ensures long { TellsLong solution.now result }
{
    longest_counted(solution)
}
