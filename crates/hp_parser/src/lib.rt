//! The tree of a source text, or the first token at which no program goes on. Invariant: a tree that is made is the one tree that the grammar gives the text, within the limits. Used by `hp_compile`, `hp_print` and the laws.
#![tactic(auto)]

mod atom;
mod declaration;
mod equation;
mod expression;
mod fault;
mod laws;
mod level;
mod measured;
mod mode;
mod parsing;
mod program;
mod reader;

pub use laws::one_limit_is_passed;
pub use mode::Mode;
pub use parsing::{ParseErr, parse};
