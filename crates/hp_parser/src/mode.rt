/// Which expressions are read.
#[derive(Clone, Copy, Debug, PartialEq, Eq)]
pub enum Mode {
    Whole,
    /// The conditions of transitions, which hold no operators on streams and no calls.
    Plain,
}
