//! The slots of a node as lines: which variables they are, what they stand for, and how automata move.

use crate::names::{Names, QUOTED};
use crate::page::Page;
use crate::slots::{Row, Slot, Slots};
use crate::values::{add_value, count_of};
use hp_labels::{Subject, Values};
use hp_tree::{Expr, State, Trans};
use std::alloc::AllocError;

/// What kind of a thing a slot stands for.
fn kind_of(subject: Subject) -> &'static [u8] {
    match subject {
        Subject::Input(_) => b"input",
        Subject::Control(_) => b"control",
        Subject::Last(_) => b"last",
        Subject::Comparison(_) => b"comparison",
        Subject::Output { .. } => b"output",
        Subject::Previous { .. } => b"previous",
        Subject::Past => b"past",
        Subject::State => b"state",
        Subject::Afresh => b"afresh",
    }
}

/// Adds the names of values, in the order of their codes.
fn add_values(values: Values, page: &mut Page) -> Result<(), AllocError> {
    for number in 0..count_of(values) {
        page.tab()?;
        add_value(values, number, &mut page.text)?;
    }
    Ok(())
}

fn add_slot(names: &Names, slot: &Slot, row: &[u8], page: &mut Page) -> Result<(), AllocError> {
    page.begin(row)?;
    page.word(kind_of(slot.label.subject))?;
    page.number(slot.first)?;
    page.number(slot.width)?;
    page.span(slot.label.span)?;
    page.tab()?;
    names.add_label(&slot.label, &mut page.text)?;
    add_values(slot.label.values, page)?;
    page.end()
}

/// Adds a quoted expression with its place.
pub fn add_text(names: &Names, expr: &Expr, page: &mut Page) -> Result<(), AllocError> {
    page.span(expr.span)?;
    page.tab()?;
    names.source.add(expr.span, QUOTED, &mut page.text)
}

/// Adds the transitions of a state.
fn add_transitions(
    names: &Names,
    kind: &[u8],
    state: &State,
    transitions: &[Trans],
    page: &mut Page,
) -> Result<(), AllocError> {
    for transition in transitions {
        page.begin(kind)?;
        page.word(state.name.bytes())?;
        page.word(transition.target.bytes())?;
        add_text(names, &transition.cond, page)?;
        page.end()?;
    }
    Ok(())
}

/// Adds how an automaton moves.
fn add_states(names: &Names, states: &[State], page: &mut Page) -> Result<(), AllocError> {
    for state in states {
        add_transitions(names, b"strong", state, &state.unless, page)?;
        add_transitions(names, b"weak", state, &state.until, page)?;
    }
    Ok(())
}

/// Adds of which node a slot is an output, and by which name; of a node with a contract that it has one.
fn add_callee(names: &Names, slot: &Slot, page: &mut Page) -> Result<(), AllocError> {
    let Subject::Output { node, output, .. } = slot.label.subject else {
        return Ok(());
    };
    page.begin(b"of")?;
    page.word(node.bytes())?;
    page.word(output.name.bytes())?;
    if let Some(callee) = names.nodes.find(node.bytes())
        && let Some(contract) = &callee.contract
    {
        page.word(b"contract")?;
        if let Some(assume) = &contract.assume {
            add_text(names, assume, page)?;
        }
    }
    page.end()
}

fn add_row(names: &Names, row: &Row, kind: &[u8], page: &mut Page) -> Result<(), AllocError> {
    for slot in &row.slots {
        add_slot(names, slot, kind, page)?;
        add_callee(names, slot, page)?;
        if let Values::States(states) = slot.label.values {
            add_states(names, states, page)?;
        }
    }
    Ok(())
}

/// Adds the slots of a node; behind one what more is known of it.
pub fn add_slots(names: &Names, slots: &Slots, page: &mut Page) -> Result<(), AllocError> {
    add_row(names, &slots.registers, b"register", page)?;
    add_row(names, &slots.early, b"early", page)?;
    add_row(names, &slots.controls, b"control", page)?;
    add_row(names, &slots.late, b"late", page)
}
