//! The registers of variables that are declared with `last`.
ghost use Rattle.std.specs.Prelude.{◌≡◌, IfOk, OnOk};
ghost use Rattle.hp_drawing.specs.Scopes as scopes;
ghost use Rattle.hp_drawing.specs.Seen.{sketch_of};
ghost use Rattle.hp_abstract.specs.Seen.{layer_of, told_in};

use crate::scope::{Layer, wire_or_false};
use crate::shape::is_mark;
use crate::table::Tables;
use hp_base::Const;
use hp_circuit::Shape;
use hp_drawing::{Draft, Entry, FALSE, Place, Register};
use hp_tree::Decl;
use std::alloc::AllocError;

/// The last value of a variable with this wire, and the number that it has at first. That of an integer is no register.
#[tactic(auto, unfolding(hp_drawing::specs::Scopes::last_entry))]
fn last_wire(
    place: Place,
    first: usize,
    shape: Shape,
    wire: usize,
    draft: &mut Draft,
) -> Result<Entry, AllocError>
    ensures sketch { OnOk result (sketch_of draft.new ≡ (scopes.last_entry place first shape wire (sketch_of draft.old)).1) }
    ensures entry { IfOk result (λ e. e ≡ (scopes.last_entry place first shape wire (sketch_of draft.old)).0) }
{
    if is_mark(shape) {
        let mark = draft.mark()?;
        return Ok(Entry::at(mark, shape));
    }
    let register = Register::new(place, first, shape, draft)?;
    register.takes(place, wire, draft)?;
    Ok(Entry::at(register.read, shape))
}

/// The wire of a variable in a layer. One of which nothing is said is false.
fn wire_in(values: &Layer, name: &[u8]) -> usize
    ensures { result ≡ scopes.wire_in (layer_of values.now) name.now }
{
    match values.of(name) {
        None => FALSE,
        Some(entry) => wire_or_false(entry.wire),
    }
}

/// Adds the last value of a variable that has this one at first.
fn add_constant<'a>(
    tables: &Tables<'a>,
    place: Place,
    decl: &'a Decl,
    constant: &Const,
    values: &Layer<'a>,
    lasts: &mut Layer<'a>,
    draft: &mut Draft,
) -> Result<(), AllocError>
    ensures sketch { OnOk result (sketch_of draft.new ≡ (scopes.add_constant (told_in tables.now) place decl.now constant.now (layer_of values.now) (layer_of lasts.old) (sketch_of draft.old)).1) }
    ensures layer { OnOk result (layer_of lasts.new ≡ (scopes.add_constant (told_in tables.now) place decl.now constant.now (layer_of values.now) (layer_of lasts.old) (sketch_of draft.old)).0) }
{
    let wire = wire_in(values, decl.name.bytes());
    let (_, first) = tables.constant(constant);
    let shape = tables.shape(&decl.ty);
    let entry = last_wire(place, first, shape, wire, draft)?;
    lasts.put(decl.name.bytes(), entry)
}

/// Adds the last value of a variable, if it is declared so.
fn add_last<'a>(
    tables: &Tables<'a>,
    place: Place,
    decl: &'a Decl,
    values: &Layer<'a>,
    lasts: &mut Layer<'a>,
    draft: &mut Draft,
) -> Result<(), AllocError>
    ensures sketch { OnOk result (sketch_of draft.new ≡ (scopes.add_last (told_in tables.now) place decl.now decl.now.last (layer_of values.now) (layer_of lasts.old) (sketch_of draft.old)).1) }
    ensures layer { OnOk result (layer_of lasts.new ≡ (scopes.add_last (told_in tables.now) place decl.now decl.now.last (layer_of values.now) (layer_of lasts.old) (sketch_of draft.old)).0) }
{
    match &decl.last {
        None => Ok(()),
        Some(constant) => add_constant(tables, place, decl, constant, values, lasts, draft),
    }
}

/// Adds the last values of variables, where their values are known.
#[tactic(auto, using(crate::proofs::Rules::rows))]
pub fn add_lasts<'a>(
    tables: &Tables<'a>,
    place: Place,
    decls: &'a [Decl],
    values: &Layer<'a>,
    lasts: &mut Layer<'a>,
    draft: &mut Draft,
) -> Result<(), AllocError>
    ensures sketch { OnOk result (sketch_of draft.new ≡ (scopes.add_lasts (told_in tables.now) place decls.now (layer_of values.now) (layer_of lasts.old) (sketch_of draft.old)).1) }
    ensures layer { OnOk result (layer_of lasts.new ≡ (scopes.add_lasts (told_in tables.now) place decls.now (layer_of values.now) (layer_of lasts.old) (sketch_of draft.old)).0) }
{
    for decl in decls {
        add_last(tables, place, decl, values, lasts, draft)?;
    }
    Ok(())
}
