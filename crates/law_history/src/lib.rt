//! Laws of `hp_machines` and `hp_exec`: the machines of a program give its stream history. Used by `law_decided`, `law_choices`, `hp_driver`.
#![tactic(auto)]

pub mod counted;
pub mod streams;
