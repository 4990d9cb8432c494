//! A machine as lines: its numbers of variables, its gates in order, and which of them are what.

use crate::page::Page;
use hp_boolx::{BoolMachine, Counts, Gate};
use std::alloc::AllocError;

fn add_one(word: &[u8], i: usize, page: &mut Page) -> Result<(), AllocError> {
    page.begin(word)?;
    page.number(i)
}

fn add_two(word: &[u8], i: usize, j: usize, page: &mut Page) -> Result<(), AllocError> {
    add_one(word, i, page)?;
    page.number(j)
}

fn add_gate(gate: Gate, page: &mut Page) -> Result<(), AllocError> {
    match gate {
        Gate::Const(value) => add_one(b"const", usize::from(value), page),
        Gate::Var(x) => add_one(b"var", usize::from(x), page),
        Gate::Not(i) => add_one(b"not", i, page),
        Gate::And(i, j) => add_two(b"and", i, j, page),
        Gate::Or(i, j) => add_two(b"or", i, j, page),
        Gate::Xor(i, j) => add_two(b"xor", i, j, page),
        Gate::Ite(i, j, k) => {
            add_two(b"ite", i, j, page)?;
            page.number(k)
        }
    }
}

/// Adds gates, each on a line.
pub fn add_gates(gates: &[Gate], page: &mut Page) -> Result<(), AllocError> {
    for gate in gates {
        add_gate(*gate, page)?;
        page.end()?;
    }
    Ok(())
}

fn add_counts(counts: Counts, page: &mut Page) -> Result<(), AllocError> {
    page.begin(b"vars")?;
    for count in [counts.registers, counts.early, counts.control, counts.late] {
        page.number(usize::from(count))?;
    }
    page.end()
}

fn add_next(next: &[usize], page: &mut Page) -> Result<(), AllocError> {
    page.begin(b"next")?;
    for gate in next {
        page.number(*gate)?;
    }
    page.end()
}

/// Adds which gates say that codes are values, what is supposed, and what is owed.
fn add_roots(m: &BoolMachine, page: &mut Page) -> Result<(), AllocError> {
    add_one(b"valid", m.valid, page)?;
    page.end()?;
    add_one(b"hyp", m.hyp, page)?;
    page.end()?;
    add_one(b"duty", m.duty, page)?;
    page.end()
}

pub fn add_machine(m: &BoolMachine, page: &mut Page) -> Result<(), AllocError> {
    add_counts(m.counts, page)?;
    add_gates(&m.gates, page)?;
    page.begin(b"init")?;
    page.bits(&m.init)?;
    page.end()?;
    add_next(&m.next, page)?;
    add_roots(m, page)
}
