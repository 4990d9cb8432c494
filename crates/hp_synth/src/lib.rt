//! Boolean machines, solved: nothing is forced and the safe states are known, or in how many instants a violation is forced. Invariant: the count is the least. Used by `hp_control`, `hp_cert`, `hp_verdicts`, `hp_controller`, `hp_controlled`, `hp_games`.
#![tactic(auto)]

mod building;
mod course;
mod layout;
mod next;
mod ordering;
mod played;
mod preparation;
mod quantifying;
mod renaming;
mod rounds;
mod search;
mod solving;
mod sweep;
mod verdict;

pub use course::next_values;
pub use layout::Layout;
pub use next::next_set;
pub use ordering::layout_of;
pub use played::{End, Played};
pub use preparation::prepare;
pub use quantifying::{all_in, some_in};
pub use renaming::{placed, renamed};
pub use rounds::{Sets, bad};
pub use solving::{play, solve};
pub use verdict::{Solved, Verdict};
