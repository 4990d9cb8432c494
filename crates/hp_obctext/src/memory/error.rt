use hp_base::Span;
use thiserror::Error;

/// Why a text is no checkpoint of a node, with values like those that its machine keeps.
#[derive(Clone, Copy, Debug, PartialEq, Eq, Error)]
pub enum MemErr {
    /// The first word, space or newline with which it begins no checkpoint, or the place behind the text.
    #[error("line {line}, column {col}: no checkpoint", line = .span.line, col = .span.col)]
    Syntax { span: Span },
    /// It is one of another node.
    #[error("a checkpoint of another node")]
    Node,
    /// It has another number of values: this one.
    #[error("{found} values, and another number of memories")]
    Count { found: u64 },
    /// The first value, counted from 1, that is not of the kind of its memory.
    #[error("value {number}: not of the kind of its memory")]
    Word { number: u64 },
}
