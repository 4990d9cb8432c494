/// What a wire carries.
#[derive(Clone, Copy, Debug, PartialEq, Eq)]
pub enum Shape {
    /// A truth value: 0 is false, and 1 is true.
    Truth,
    /// One of so many constructors of a type, or states of an automaton, by its number. In bits it may have a number that none of them has.
    Cons { count: usize },
    /// An integer, of which nothing is kept.
    Mark,
}

/// What gives a wire its value. Other wires, and slots, are known by their numbers; a wire may name wires behind it.
#[derive(Clone, Copy, Debug)]
pub enum Wire {
    /// What the slot holds, or is given.
    Slot(usize),
    /// Always this number; 0 for an integer.
    Constant(usize),
    /// The value of another wire of the same shape.
    Copy(usize),
    Not(usize),
    And(usize, usize),
    Or(usize, usize),
    Xor(usize, usize),
    /// Whether two wires of one shape have the same value; of integers, of which nothing is kept, always.
    Equal(usize, usize),
    /// Whether a wire has the constructor of this number.
    Is(usize, usize),
    /// Of two wires of the same shape the first where a truth value holds, else the second.
    If(usize, usize, usize),
}

/// What a slot is for.
#[derive(Clone, Copy, Debug)]
pub enum Role {
    /// An input, which is known before the controllable variables are chosen.
    Input,
    /// A register: the number that it holds at first, and the wire of its next value.
    Register { first: usize, next: usize },
    /// A controllable variable. Of truth values true is preferred, and of constructors the first.
    Control,
    /// A comparison, or the output of a call. It is early, which is known before the controllable variables are chosen, if it may be and reads none of them by any chain.
    Free { may_be_early: bool },
}

/// What is remembered or given, with the wire that carries it.
#[derive(Clone, Copy, Debug)]
pub struct Slot {
    pub role: Role,
    pub shape: Shape,
    pub wire: usize,
}

/// The circuit of a node at one instant.
#[derive(Debug, Drop)]
pub struct Circuit {
    /// Slots in the order of places. Those of each kind are numbered in this order, bit by bit.
    pub slots: Vec<Slot>,
    pub wires: Vec<Wire>,
    /// What each wire carries.
    pub shapes: Vec<Shape>,
    /// What wires read beyond the wires that give them their values: a wire, and one that it reads.
    pub reads: Vec<(usize, usize)>,
    /// The wires of the assumption, the hypothesis and the duty.
    pub assume: usize,
    pub hyp: usize,
    pub duty: usize,
}
