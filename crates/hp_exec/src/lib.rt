//! The executor of machines: one step after another, without memory and without refusal. Invariant: what a step answers and leaves is what the machine's definition says; all memory is taken before the first step. Used by `hp_driver`, and its hooks by `hp_native`; its specs by `law_history`.
#![tactic(auto)]

mod build;
mod code;
mod compile;
mod copy_propagation;
mod count;
mod error;
mod exec;
mod facts;
mod flat;
mod frame;
mod frame_offset;
mod frame_size;
mod hook;
mod inline;
mod layout;
mod liveness;
mod names;
mod program;
mod routine;
mod run;
mod scope;
mod signature;
mod specialise;
mod store;
mod types;
mod without_calls;

pub use count::{MAX_CALLS, MAX_INSTANCES};
pub use error::ExecErr;
pub use exec::Exec;
pub use hook::{Hook, NoHook, Way};
