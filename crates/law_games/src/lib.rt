//! Laws of contracts: the game of a contract is the game of a machine that mirrors its node. Used by `law_drawing`, `law_choices`, `law_decided`.
#![tactic(auto)]

pub mod abstracted;
pub mod forced;
pub mod guaranteed;
pub mod mirror;
pub mod ready_games;
pub mod settled;
pub mod wires;
pub mod wiretyped;
