//! What is known of a whole text.
use crate::formula::Formulas;
use crate::names::Names;
use std::alloc::Global;

/// Which formulas there are, and which names occur.
#[derive(Drop)]
pub struct Text<'a> {
    pub alloc: Global,
    pub formulas: Formulas,
    pub names: Names<'a>,
}
