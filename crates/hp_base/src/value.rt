/// What a place of a program holds at an instant.
#[derive(Clone, Copy, Debug, PartialEq, Eq)]
pub enum Value {
    /// Nothing, since the place is not there at this instant.
    Absent,
    /// What is not yet defined, as `pre x` at the first instant.
    Nil,
    B(bool),
    /// A constructor of an enumeration: the number of its type, and its own, each from 0 in declared order.
    E(u16, u8),
    I(i32),
    /// Any integer, in the Boolean abstraction.
    Star,
}
