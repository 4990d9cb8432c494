//! The slots of a node with their variables.

use hp_abstract::{Abstraction, Given, Shape, shape_width};
use hp_boolx::BoolMachine;
use hp_labels::{Label, Subject, Values};
use std::alloc::{AllocError, Global};

/// A slot: what it stands for, its first variable, and how many it has.
#[derive(Clone, Copy)]
pub struct Slot<'a> {
    pub label: Label<'a>,
    pub first: usize,
    pub width: usize,
}

/// The slots of one kind, in the order of their variables.
#[derive(Drop)]
pub struct Row<'a> {
    pub slots: Vec<Slot<'a>>,
    next: usize,
}

/// The slots of a node by kinds.
#[derive(Drop)]
pub struct Slots<'a> {
    pub registers: Row<'a>,
    pub early: Row<'a>,
    pub controls: Row<'a>,
    pub late: Row<'a>,
}

/// The shape of values.
fn shape_of(values: Values) -> Shape {
    match values {
        Values::Truth => Shape::Truth,
        Values::Constructors(cons) => Shape::Cons { count: cons.len() },
        Values::States(states) => Shape::Cons {
            count: states.len(),
        },
    }
}

/// Whether these are the values of a shape.
fn fits(values: Values, shape: Shape) -> bool {
    match (values, shape) {
        (Values::Truth, Shape::Truth) => true,
        (Values::Constructors(cons), Shape::Cons { count }) => cons.len() == count,
        _ => false,
    }
}

impl<'a> Row<'a> {
    fn new(alloc: Global, first: usize) -> Row<'a> {
        Row {
            slots: Vec::new(alloc),
            next: first,
        }
    }

    fn add(&mut self, label: Label<'a>) -> Result<(), AllocError> {
        let width = shape_width(shape_of(label.values));
        self.slots.push(Slot {
            label,
            first: self.next,
            width,
        })?;
        self.next = self.next.saturating_add(width);
        Ok(())
    }
}

/// Where the variables of each kind begin, and where the last ones end.
#[derive(Clone, Copy)]
struct Bounds {
    early: usize,
    control: usize,
    late: usize,
    end: usize,
}

fn bounds_of(m: &BoolMachine) -> Bounds {
    let early = usize::from(m.counts.registers);
    let control = early.saturating_add(usize::from(m.counts.early));
    let late = control.saturating_add(usize::from(m.counts.control));
    let end = late.saturating_add(usize::from(m.counts.late));
    Bounds {
        early,
        control,
        late,
        end,
    }
}

impl<'a> Slots<'a> {
    fn new(alloc: Global, bounds: &Bounds) -> Slots<'a> {
        Slots {
            registers: Row::new(alloc, 0),
            early: Row::new(alloc, bounds.early),
            controls: Row::new(alloc, bounds.control),
            late: Row::new(alloc, bounds.late),
        }
    }

    /// Adds a slot that is given; it says whether the machine has such a one.
    fn add_given(&mut self, label: Label<'a>, given: Option<&Given>) -> Result<bool, AllocError> {
        let Some(given) = given else {
            return Ok(false);
        };
        if given.is_early {
            self.early.add(label)?;
        } else {
            self.late.add(label)?;
        }
        Ok(fits(label.values, given.shape))
    }

    fn end_at(&self, bounds: &Bounds) -> bool {
        self.registers.next == bounds.early
            && self.early.next == bounds.control
            && self.controls.next == bounds.late
            && self.late.next == bounds.end
    }
}

/// Whether a slot is given, so that it is early or late.
fn is_given(subject: Subject) -> bool {
    matches!(
        subject,
        Subject::Input(_) | Subject::Comparison(_) | Subject::Output { .. }
    )
}

/// The slots of a node with these labels, where they are those of its machine: as many are given, each of its shape, and each kind has as many bits.
pub fn slots_of<'a>(
    alloc: Global,
    labels: &[Label<'a>],
    made: &Abstraction,
) -> Result<Option<Slots<'a>>, AllocError> {
    let bounds = bounds_of(&made.machine);
    let mut slots = Slots::new(alloc, &bounds);
    let mut place: usize = 0;
    for label in labels {
        if is_given(label.subject) {
            if !slots.add_given(*label, made.given.get(place))? {
                return Ok(None);
            }
            place = place.saturating_add(1);
        } else if matches!(label.subject, Subject::Control(_)) {
            slots.controls.add(*label)?;
        } else {
            slots.registers.add(*label)?;
        }
    }
    if place == made.given.len() && slots.end_at(&bounds) {
        Ok(Some(slots))
    } else {
        Ok(None)
    }
}
