//! The values of slots.

use hp_base::Name;
use hp_labels::Values;
use hp_tree::State;
use std::alloc::AllocError;

fn add_constructor(cons: &[Name], number: usize, into: &mut Vec<u8>) -> Result<(), AllocError> {
    match cons.get(number) {
        None => into.extend_from_slice(b"no value"),
        Some(name) => into.extend_from_slice(name.bytes()),
    }
}

fn add_state(states: &[State], number: usize, into: &mut Vec<u8>) -> Result<(), AllocError> {
    match states.get(number) {
        None => into.extend_from_slice(b"no state"),
        Some(state) => into.extend_from_slice(state.name.bytes()),
    }
}

/// Adds the value of a number.
pub fn add_value(values: Values, number: usize, into: &mut Vec<u8>) -> Result<(), AllocError> {
    match values {
        Values::Truth => into.extend_from_slice(if number == 0 { b"false" } else { b"true" }),
        Values::Constructors(cons) => add_constructor(cons, number, into),
        Values::States(states) => add_state(states, number, into),
    }
}

/// How many values there are that have a name.
pub fn count_of(values: Values) -> usize {
    match values {
        Values::Truth => 2,
        Values::Constructors(cons) => cons.len(),
        Values::States(states) => states.len(),
    }
}
