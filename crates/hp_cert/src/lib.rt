//! Certificates: their text both ways, made of diagrams, and checked. Invariant: what an accepted certificate says of a Boolean machine is so, whoever wrote it. Used by `hp_verdicts`, `hp_games`, `hp_controller`, `hp_driver`; its specs by `law_decided`.
#![tactic(auto)]

pub mod certmade;
pub mod certtext;
mod checking;
mod conditions;
mod fits;
mod functions;
mod marks;
mod steps;
mod value;

pub use checking::{Proved, check};
