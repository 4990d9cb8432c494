/// The values of all variables of a machine at one instant: registers, early, control and late variables, in this order.
#[derive(Debug, Drop)]
pub struct Instant {
    pub values: Vec<bool>,
    /// Of each register and early variable whether it may as well have the other value, with those before it that may: from each such state and by each such input a violation is forced within as many instants. At the first instant no register may, and at instants between the ends of a long play nothing is said. No clause promises this.
    pub free: Vec<bool>,
}

/// What is found of a machine.
#[derive(Debug, Drop)]
pub enum Outcome {
    /// No violation is ever forced.
    Kept,
    /// A violation is forced, and this is a play of the least number of instants in which it is.
    Lost { play: Vec<Instant> },
}
