//! Laws of `hp_abstract` and `hp_circuit`: the circuit of a node carries its values, reads what it reads, is a circuit and has no circle; and the machine of the circuit mirrors the node, so its game is that of the contract. Used by `law_decided`, `law_choices`.
#![tactic(auto)]

pub mod carried;
pub mod carrying;
pub mod drawable;
pub mod early;
pub mod form;
pub mod inshape;
pub mod mirroring;
pub mod mirrors;
pub mod no_circle;
pub mod reached;
pub mod steered;
pub mod uncalled;
