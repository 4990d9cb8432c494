/// A place in a source text. Lines and columns count bytes from 1, and `end` is the offset behind the last byte.
/// What is neither a token nor a part of a tree is one byte long; where it is behind the text, `end` is the text's length.
#[derive(Clone, Copy, Debug, PartialEq, Eq)]
pub struct Span {
    pub line: u32,
    pub col: u32,
    pub end: u32,
}
