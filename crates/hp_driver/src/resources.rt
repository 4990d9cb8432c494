//! What runs of machines are given beside the machines.
use hp_native::Native;
use std::alloc::Global;

/// What a call of the tool is given beside its words and the outside: memory, and what a user adds.
#[derive(Drop)]
pub struct Extras {
    pub alloc: Global,
    /// In `run` and `exec` each of them answers calls of the machines that are its own.
    pub natives: Vec<Native>,
}

impl Extras {
    /// Nothing is added.
    pub fn none(alloc: Global) -> Extras {
        Extras {
            alloc,
            natives: Vec::new(alloc),
        }
    }
}

/// Memory, and natives that answer calls of their machines.
#[derive(Drop)]
pub(crate) struct Resources<'a, N> {
    pub alloc: Global,
    pub natives: &'a [N],
}
