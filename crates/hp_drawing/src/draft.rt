//! A circuit as it is drawn.
ghost use Rattle.std.specs.Prelude.{◌≡◌, IfOk, OnOk, slice_get};
ghost use Rattle.hp_circuit.specs.declared.circuit.Shape.TheVariants.{Truth};
ghost use Rattle.hp_drawing.specs.Seen.{IsOf, sketch_of};
ghost use Rattle.hp_drawing.specs.Sketch as sketch;

use crate::parts::{Clock, Value};
use hp_circuit::{Circuit, Role, Shape, Slot, Wire};
use std::alloc::{AllocError, Global};

/// The wires that are always false and true.
pub const FALSE: usize = 0;

pub const TRUE: usize = 1;

/// The clock that is always there.
pub const BASE: usize = 0;

/// A wire whose value is said later is a copy of itself.
fn is_open(wire: usize, gives: Wire) -> bool
    ensures { result ≡ sketch.is_open wire gives }
{
    match gives {
        Wire::Copy(a) => a == wire,
        _ => false,
    }
}

/// The slot of a register that holds the value of this wire next.
fn with_next(slot: Slot, value: usize) -> Slot
    ensures { result ≡ sketch.with_next slot value }
{
    match slot.role {
        Role::Register { first, next: _ } => Slot {
            role: Role::Register { first, next: value },
            ..slot
        },
        _ => slot,
    }
}

/// A circuit that is not complete.
#[derive(Drop)]
pub struct Draft {
    circuit: Circuit,
    clocks: Vec<Clock>,
}

impl Draft {
    /// A circuit of the two constant wires, and the base clock.
    #[tactic(auto, unfolding(crate::specs::Sketch::empty))]
    pub fn new(alloc: Global) -> Result<Draft, AllocError>
        ensures { IfOk result (λ draft. sketch_of draft ≡ sketch.empty) }
    {
        let mut draft = Draft::empty(alloc);
        draft.begin()?;
        Ok(draft)
    }

    #[tactic(auto, unfolding(crate::specs::Seen::sketch_of, crate::specs::Sketch::nothing))]
    fn empty(alloc: Global) -> Draft
        ensures { sketch_of result ≡ sketch.nothing }
    {
        let circuit = Circuit {
            slots: Vec::new(alloc),
            wires: Vec::new(alloc),
            shapes: Vec::new(alloc),
            reads: Vec::new(alloc),
            assume: TRUE,
            hyp: TRUE,
            duty: TRUE,
        };
        Draft {
            circuit,
            clocks: Vec::new(alloc),
        }
    }

    // ---- what is assumed, supposed and owed

    #[tactic(auto, unfolding(crate::specs::Seen::sketch_of, crate::specs::Sketch::with_hyp))]
    fn set_hyp(&mut self, wire: usize)
        ensures { sketch_of self.new ≡ sketch.with_hyp wire (sketch_of self.old) }
    {
        self.circuit.hyp = wire;
    }

    #[tactic(auto, unfolding(crate::specs::Seen::sketch_of, crate::specs::Sketch::with_duty))]
    fn set_duty(&mut self, wire: usize)
        ensures { sketch_of self.new ≡ sketch.with_duty wire (sketch_of self.old) }
    {
        self.circuit.duty = wire;
    }

    #[tactic(auto, unfolding(crate::specs::Seen::sketch_of, crate::specs::Sketch::with_assume))]
    fn set_assume(&mut self, wire: usize)
        ensures { sketch_of self.new ≡ sketch.with_assume wire (sketch_of self.old) }
    {
        self.circuit.assume = wire;
    }

    #[tactic(auto, unfolding(crate::specs::Seen::sketch_of, crate::specs::Sketch::hyp_of))]
    fn hyp(&self) -> usize
        ensures { result ≡ sketch.hyp_of (sketch_of self.now) }
    {
        self.circuit.hyp
    }

    #[tactic(auto, unfolding(crate::specs::Seen::sketch_of, crate::specs::Sketch::duty_of))]
    fn duty(&self) -> usize
        ensures { result ≡ sketch.duty_of (sketch_of self.now) }
    {
        self.circuit.duty
    }

    /// What may be supposed, and what is owed, besides what may be supposed and is owed so far.
    #[tactic(auto, unfolding(crate::specs::Sketch::add_told))]
    fn add_told(&mut self, supposed: usize, owed: usize) -> Result<(), AllocError>
        ensures { OnOk result (sketch_of self.new ≡ sketch.add_told supposed owed (sketch_of self.old)) }
    {
        let hyp = self.and(self.hyp(), supposed)?;
        self.set_hyp(hyp);
        let duty = self.and(self.duty(), owed)?;
        self.set_duty(duty);
        Ok(())
    }

    #[tactic(auto, unfolding(crate::specs::Sketch::begun))]
    fn begin(&mut self) -> Result<(), AllocError>
        ensures { OnOk result (sketch_of self.new ≡ sketch.begun (sketch_of self.old)) }
    {
        self.push(Wire::Constant(0), Shape::Truth)?;
        self.push(Wire::Constant(1), Shape::Truth)?;
        self.add_clock(TRUE, BASE)?;
        Ok(())
    }

    // ---- wires

    /// The circuit of what is drawn.
    #[tactic(auto, unfolding(crate::specs::Seen::sketch_of))]
    pub fn circuit(self) -> Circuit
        ensures { IsOf result (sketch_of self) }
    {
        self.circuit
    }

    /// The number of the next wire.
    #[tactic(auto, unfolding(crate::specs::Seen::sketch_of, crate::specs::Sketch::next_wire))]
    pub fn next_wire(&self) -> usize
        ensures { result ≡ sketch.next_wire (sketch_of self.now) }
    {
        self.circuit.wires.len()
    }

    /// Adds a wire, and gives its number.
    #[tactic(auto, unfolding(crate::specs::Seen::sketch_of, crate::specs::Sketch::push))]
    pub fn push(&mut self, wire: Wire, shape: Shape) -> Result<usize, AllocError>
        ensures sketch { OnOk result (sketch_of self.new ≡ (sketch.push wire shape (sketch_of self.old)).1) }
        ensures wire { IfOk result (λ w. w ≡ (sketch.push wire shape (sketch_of self.old)).0) }
    {
        let number = self.circuit.wires.len();
        self.circuit.wires.push(wire)?;
        self.circuit.shapes.push(shape)?;
        Ok(number)
    }

    /// A wire of a truth value.
    pub fn truth(&mut self, wire: Wire) -> Result<usize, AllocError>
        ensures sketch { OnOk result (sketch_of self.new ≡ (sketch.push wire Truth (sketch_of self.old)).1) }
        ensures wire { IfOk result (λ w. w ≡ (sketch.push wire Truth (sketch_of self.old)).0) }
    {
        self.push(wire, Shape::Truth)
    }

    /// What the wire carries.
    #[tactic(auto, unfolding(crate::specs::Seen::sketch_of, crate::specs::Sketch::shape_at))]
    pub fn shape(&self, wire: usize) -> Option<Shape>
        ensures { result ≡ sketch.shape_at wire (sketch_of self.now) }
    {
        match self.circuit.shapes.get(wire) {
            None => None,
            Some(shape) => Some(*shape),
        }
    }

    #[tactic(auto, unfolding(crate::specs::Seen::sketch_of))]
    fn wire(&self, wire: usize) -> Option<Wire>
        ensures { result ≡ slice_get (sketch_of self.now).wires wire }
    {
        self.circuit.wires.get(wire).copied()
    }

    /// Puts what gives the wire its value in the place of what gave it one.
    #[tactic(auto, unfolding(crate::specs::Seen::sketch_of, crate::specs::Sketch::write))]
    fn write(&mut self, wire: usize, gives: Wire)
        ensures { sketch_of self.new ≡ sketch.write wire gives (sketch_of self.old) }
    {
        if let Some(place) = self.circuit.wires.get_mut(wire) {
            *place = gives;
        }
    }

    /// The wire reads all that gives it its value.
    #[tactic(auto, unfolding(crate::specs::Sketch::read_all))]
    fn read_all(&mut self, wire: usize, gives: Wire) -> Result<(), AllocError>
        ensures { OnOk result (sketch_of self.new ≡ sketch.read_all wire gives (sketch_of self.old)) }
    {
        match gives {
            Wire::Slot(_) | Wire::Constant(_) => Ok(()),
            Wire::Copy(a) | Wire::Not(a) | Wire::Is(a, _) => self.read(wire, a),
            Wire::And(a, b) | Wire::Or(a, b) | Wire::Xor(a, b) | Wire::Equal(a, b) => {
                self.read(wire, a)?;
                self.read(wire, b)
            }
            Wire::If(test, a, b) => {
                self.read(wire, test)?;
                self.read(wire, a)?;
                self.read(wire, b)
            }
        }
    }

    /// Says what gives the wire its value. What gave it a value before, if something did, is read on.
    #[tactic(auto, unfolding(crate::specs::Sketch::set))]
    pub fn set(&mut self, wire: usize, gives: Wire) -> Result<(), AllocError>
        ensures { OnOk result (sketch_of self.new ≡ sketch.set wire gives (sketch_of self.old)) }
    {
        match self.wire(wire) {
            None => self.read_all(wire, gives),
            Some(before) => {
                if !is_open(wire, before) {
                    self.read_all(wire, before)?;
                }
                self.write(wire, gives);
                Ok(())
            }
        }
    }

    /// Says that the wire reads the other.
    #[tactic(auto, unfolding(crate::specs::Seen::sketch_of, crate::specs::Sketch::read))]
    pub fn read(&mut self, wire: usize, other: usize) -> Result<(), AllocError>
        ensures { OnOk result (sketch_of self.new ≡ sketch.read wire other (sketch_of self.old)) }
    {
        self.circuit.reads.push((wire, other))?;
        Ok(())
    }

    /// An integer.
    #[tactic(auto, unfolding(crate::specs::Sketch::mark))]
    pub fn mark(&mut self) -> Result<usize, AllocError>
        ensures sketch { OnOk result (sketch_of self.new ≡ (sketch.mark (sketch_of self.old)).1) }
        ensures wire { IfOk result (λ w. w ≡ (sketch.mark (sketch_of self.old)).0) }
    {
        self.push(Wire::Constant(0), Shape::Mark)
    }

    /// An integer that reads another wire.
    #[tactic(auto, unfolding(crate::specs::Sketch::mark_of))]
    pub fn mark_of(&mut self, source: usize) -> Result<usize, AllocError>
        ensures sketch { OnOk result (sketch_of self.new ≡ (sketch.mark_of source (sketch_of self.old)).1) }
        ensures wire { IfOk result (λ w. w ≡ (sketch.mark_of source (sketch_of self.old)).0) }
    {
        let mark = self.mark()?;
        self.read(mark, source)?;
        Ok(mark)
    }

    /// A wire whose value is said later.
    #[tactic(auto, unfolding(crate::specs::Sketch::hole))]
    pub fn hole(&mut self, shape: Shape) -> Result<usize, AllocError>
        ensures sketch { OnOk result (sketch_of self.new ≡ (sketch.hole shape (sketch_of self.old)).1) }
        ensures wire { IfOk result (λ w. w ≡ (sketch.hole shape (sketch_of self.old)).0) }
    {
        let number = self.next_wire();
        match shape {
            Shape::Mark => self.mark(),
            _ => self.push(Wire::Copy(number), shape),
        }
    }

    /// Gives the wire the value of another one.
    #[tactic(auto, unfolding(crate::specs::Sketch::define))]
    pub fn define(&mut self, wire: usize, source: Value) -> Result<(), AllocError>
        ensures { OnOk result (sketch_of self.new ≡ sketch.define wire source (sketch_of self.old)) }
    {
        match source.shape {
            Shape::Mark => self.read(wire, source.wire),
            _ => self.set(wire, Wire::Copy(source.wire)),
        }
    }

    /// The same value on a new wire.
    #[tactic(auto, unfolding(crate::specs::Sketch::copy))]
    pub fn copy(&mut self, source: Value) -> Result<usize, AllocError>
        ensures sketch { OnOk result (sketch_of self.new ≡ (sketch.copy source (sketch_of self.old)).1) }
        ensures wire { IfOk result (λ w. w ≡ (sketch.copy source (sketch_of self.old)).0) }
    {
        let wire = self.hole(source.shape)?;
        self.define(wire, source)?;
        Ok(wire)
    }

    // ---- gates that are left out where they are constant

    #[tactic(auto, unfolding(crate::specs::Sketch::not_gate))]
    pub fn not(&mut self, a: usize) -> Result<usize, AllocError>
        ensures sketch { OnOk result (sketch_of self.new ≡ (sketch.not_gate a (sketch_of self.old)).1) }
        ensures wire { IfOk result (λ w. w ≡ (sketch.not_gate a (sketch_of self.old)).0) }
    {
        match a {
            FALSE => Ok(TRUE),
            TRUE => Ok(FALSE),
            _ => self.truth(Wire::Not(a)),
        }
    }

    #[tactic(auto, unfolding(crate::specs::Sketch::and_gate))]
    pub fn and(&mut self, a: usize, b: usize) -> Result<usize, AllocError>
        ensures sketch { OnOk result (sketch_of self.new ≡ (sketch.and_gate a b (sketch_of self.old)).1) }
        ensures wire { IfOk result (λ w. w ≡ (sketch.and_gate a b (sketch_of self.old)).0) }
    {
        match (a, b) {
            (FALSE, _) | (_, FALSE) => Ok(FALSE),
            (TRUE, _) => Ok(b),
            (_, TRUE) => Ok(a),
            _ => self.truth(Wire::And(a, b)),
        }
    }

    #[tactic(auto, unfolding(crate::specs::Sketch::or_gate))]
    pub fn or(&mut self, a: usize, b: usize) -> Result<usize, AllocError>
        ensures sketch { OnOk result (sketch_of self.new ≡ (sketch.or_gate a b (sketch_of self.old)).1) }
        ensures wire { IfOk result (λ w. w ≡ (sketch.or_gate a b (sketch_of self.old)).0) }
    {
        match (a, b) {
            (TRUE, _) | (_, TRUE) => Ok(TRUE),
            (FALSE, _) => Ok(b),
            (_, FALSE) => Ok(a),
            _ => self.truth(Wire::Or(a, b)),
        }
    }

    /// The first where the condition holds, else the second.
    #[tactic(auto, unfolding(crate::specs::Sketch::choose_gate))]
    pub fn choose(
        &mut self,
        condition: usize,
        first: usize,
        second: usize,
        shape: Shape,
    ) -> Result<usize, AllocError>
        ensures sketch { OnOk result (sketch_of self.new ≡ (sketch.choose_gate condition first second shape (sketch_of self.old)).1) }
        ensures wire { IfOk result (λ w. w ≡ (sketch.choose_gate condition first second shape (sketch_of self.old)).0) }
    {
        match condition {
            FALSE => Ok(second),
            TRUE => Ok(first),
            _ => self.push(Wire::If(condition, first, second), shape),
        }
    }

    /// Whether the wire has the constructor of this number.
    #[tactic(auto, unfolding(crate::specs::Sketch::is_gate))]
    pub fn is(&mut self, wire: usize, number: usize) -> Result<usize, AllocError>
        ensures sketch { OnOk result (sketch_of self.new ≡ (sketch.is_gate wire number (sketch_of self.old)).1) }
        ensures wire { IfOk result (λ w. w ≡ (sketch.is_gate wire number (sketch_of self.old)).0) }
    {
        self.truth(Wire::Is(wire, number))
    }

    // ---- slots

    /// The number of the next slot.
    #[tactic(auto, unfolding(crate::specs::Seen::sketch_of, crate::specs::Sketch::next_slot))]
    pub fn next_slot(&self) -> usize
        ensures { result ≡ sketch.next_slot (sketch_of self.now) }
    {
        self.circuit.slots.len()
    }

    /// Adds a slot, and gives the wire that carries it. There is none of an integer.
    #[tactic(auto, unfolding(crate::specs::Seen::sketch_of, crate::specs::Sketch::slot, crate::specs::Sketch::next_slot))]
    pub fn slot(&mut self, role: Role, shape: Shape) -> Result<usize, AllocError>
        ensures sketch { OnOk result (sketch_of self.new ≡ (sketch.slot role shape (sketch_of self.old)).1) }
        ensures wire { IfOk result (λ w. w ≡ (sketch.slot role shape (sketch_of self.old)).0) }
    {
        let number = self.circuit.slots.len();
        let wire = self.push(Wire::Slot(number), shape)?;
        self.circuit.slots.push(Slot { role, shape, wire })?;
        Ok(wire)
    }

    /// Something that is given, or an integer.
    #[tactic(auto, unfolding(crate::specs::Sketch::given))]
    pub fn given(&mut self, role: Role, shape: Shape) -> Result<usize, AllocError>
        ensures sketch { OnOk result (sketch_of self.new ≡ (sketch.given role shape (sketch_of self.old)).1) }
        ensures wire { IfOk result (λ w. w ≡ (sketch.given role shape (sketch_of self.old)).0) }
    {
        match shape {
            Shape::Mark => self.mark(),
            _ => self.slot(role, shape),
        }
    }

    /// Says what the register of the slot holds next.
    #[tactic(auto, unfolding(crate::specs::Seen::sketch_of, crate::specs::Sketch::set_next))]
    pub fn set_next(&mut self, slot: usize, value: usize)
        ensures { sketch_of self.new ≡ sketch.set_next slot value (sketch_of self.old) }
    {
        if slot < self.circuit.slots.len() {
            let old = self.circuit.slots[slot];
            self.circuit.slots[slot] = with_next(old, value);
        }
    }

    // ---- clocks

    #[tactic(auto, unfolding(crate::specs::Seen::sketch_of, crate::specs::Sketch::add_clock))]
    fn add_clock(&mut self, holds: usize, outer: usize) -> Result<usize, AllocError>
        ensures sketch { OnOk result (sketch_of self.new ≡ (sketch.add_clock holds outer (sketch_of self.old)).1) }
        ensures wire { IfOk result (λ w. w ≡ (sketch.add_clock holds outer (sketch_of self.old)).0) }
    {
        let number = self.clocks.len();
        self.clocks.push(Clock { holds, outer })?;
        Ok(number)
    }

    /// Whether the clock holds.
    #[tactic(auto, unfolding(crate::specs::Seen::sketch_of, crate::specs::Sketch::holds))]
    pub fn holds(&self, clock: usize) -> usize
        ensures { result ≡ sketch.holds clock (sketch_of self.now) }
    {
        match self.clocks.get(clock) {
            None => TRUE,
            Some(found) => found.holds,
        }
    }

    /// The clock without its innermost step.
    #[tactic(auto, unfolding(crate::specs::Seen::sketch_of, crate::specs::Sketch::outer_clock))]
    pub fn outer_clock(&self, clock: usize) -> usize
        ensures { result ≡ sketch.outer_clock clock (sketch_of self.now) }
    {
        match self.clocks.get(clock) {
            None => BASE,
            Some(found) => found.outer,
        }
    }

    /// The clock with one step more.
    #[tactic(auto, unfolding(crate::specs::Sketch::inner_clock))]
    pub fn inner_clock(&mut self, clock: usize, step: usize) -> Result<usize, AllocError>
        ensures sketch { OnOk result (sketch_of self.new ≡ (sketch.inner_clock clock step (sketch_of self.old)).1) }
        ensures wire { IfOk result (λ w. w ≡ (sketch.inner_clock clock step (sketch_of self.old)).0) }
    {
        let holds = self.and(self.holds(clock), step)?;
        self.add_clock(holds, clock)
    }

    // ---- contracts of called nodes

    /// Where the call is there, the node may suppose that its contract is kept, and owes what it assumes.
    #[tactic(auto, unfolding(crate::specs::Sketch::add_call))]
    pub fn add_call(&mut self, here: usize, assume: usize, enforce: usize) -> Result<(), AllocError>
        ensures { OnOk result (sketch_of self.new ≡ sketch.add_call here assume enforce (sketch_of self.old)) }
    {
        let away = self.not(here)?;
        let not_assumed = self.not(assume)?;
        let kept = self.or(not_assumed, enforce)?;
        let supposed = self.or(away, kept)?;
        let owed = self.or(away, assume)?;
        self.add_told(supposed, owed)?;
        Ok(())
    }

    /// Says what is assumed, and what holds besides what is supposed and owed of calls.
    #[tactic(auto, unfolding(crate::specs::Sketch::finish))]
    pub fn finish(&mut self, assume: usize, enforce: usize) -> Result<(), AllocError>
        ensures { OnOk result (sketch_of self.new ≡ sketch.finish assume enforce (sketch_of self.old)) }
    {
        self.set_assume(assume);
        let hyp = self.and(assume, self.hyp())?;
        self.set_hyp(hyp);
        let duty = self.and(enforce, self.duty())?;
        self.set_duty(duty);
        Ok(())
    }
}
