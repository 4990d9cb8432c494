//! What a drawing is made of.
use hp_circuit::Shape;

/// A wire, and what it carries.
#[derive(Clone, Copy)]
pub struct Value {
    pub wire: usize,
    pub shape: Shape,
}

/// A clock: the wire that says whether it holds, and the clock around its innermost step.
#[derive(Clone, Copy)]
pub struct Clock {
    pub holds: usize,
    pub outer: usize,
}

/// A constructor: its number in its type, and how many that has.
#[derive(Clone, Copy)]
pub struct Constructor {
    pub number: usize,
    pub count: usize,
}

/// What a layer says of a name.
#[derive(Clone, Copy)]
pub struct Entry {
    /// Its wire, if it has a value there.
    pub wire: Option<usize>,
    pub shape: Shape,
    /// The wire whose value is to be said next, in the layer of a control equation.
    pub hole: usize,
    /// The place of its declaration in the block.
    pub decl: Option<usize>,
}

/// What is known of a place of a node.
#[derive(Clone, Copy)]
pub struct Place {
    /// Whether its block is there.
    pub here: usize,
    /// Whether its memory is read as at the start.
    pub cut: usize,
    /// Whether what it keeps where it is not there is what it holds at the start.
    pub kept: usize,
    /// The clock on which it stands.
    pub clock: usize,
    /// It stands in the node itself, outside of all blocks in its body.
    pub outside: bool,
}

/// A register of a place: its slot, what is read of it, and what it keeps where the place is not there.
#[derive(Clone, Copy)]
pub struct Register {
    pub slot: usize,
    pub read: usize,
    pub keeps: usize,
    pub shape: Shape,
}

/// Where an automaton goes: a state, and whether its body begins anew.
#[derive(Clone, Copy)]
pub struct Jump {
    pub state: usize,
    pub restart: usize,
}

/// The wires of the words of an automaton.
#[derive(Clone, Copy)]
pub struct Lines {
    /// What a state is carried as.
    pub shape: Shape,
    pub next: Register,
    pub pending: Register,
    /// What memory selects.
    pub selected: Jump,
    /// The active state, and whether its body begins anew.
    pub active: Jump,
}

/// The part of each jump that is not said yet.
#[derive(Clone, Copy)]
pub struct Rests {
    pub strong: Jump,
    pub weak: Jump,
}

/// The wires of a call.
#[derive(Clone, Copy)]
pub struct Callee {
    /// The first of its outputs, which stand one behind the other.
    pub outputs: usize,
    /// The first of its inputs, which do so too.
    pub inputs: usize,
    /// What its outputs read.
    pub reads: usize,
}

/// A state of an automaton that is entered: whether it is taken, where it is there, and where its body is.
#[derive(Clone, Copy)]
pub struct Entered {
    pub taken: usize,
    pub place: Place,
    pub body: Place,
}
