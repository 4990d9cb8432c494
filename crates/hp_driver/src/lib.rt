//! The commands of the tool: words, sources, machines that are run, the trace loop, the top call; and the compiler as a call, `compile`. Invariant: each answer is a row of `specs/Outcome`, with its cause. Used by `hp_main`, `hp_rows`.
#![tactic(auto)]

mod certificate;
mod checkpoint;
mod choosing;
mod compile_error;
mod compiling;
mod controls;
mod diagnostic;
mod execution;
mod follow;
mod laws;
mod machines;
mod memory;
mod ordering;
mod past;
mod refuse;
mod report;
mod resources;
mod run;
mod runnable;
mod source;
mod status;
mod sweep;
mod system;
mod telling;
mod tool;
mod trace_limits;
mod words;

pub use compile_error::CompileErr;
pub use compiling::{compile, compile_program};
pub use controls::has_controls;
pub use laws::{
    checkpoints_are_memories, machines_of_contracts_mirror_nodes, plain_programs_are_good,
    stopped_runs_are_joined, written_certificates_are_good, written_machines_agree_with_nodes,
};
pub use memory::{Answer, run_in_memory};
pub use ordering::run_tool_with_order;
pub use resources::Extras;
pub use status::Status;
pub use system::run_on_system;
pub use tool::run_tool;
pub use trace_limits::MAX_LINES;
