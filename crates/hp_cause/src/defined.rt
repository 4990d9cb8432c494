//! The names around that a control equation defines.
ghost use Rattle.std.specs.Prelude.{◌≡◌, Some, slice_get, drop, OnOk};
ghost use Rattle.hp_cause.specs.Around.{of_place, of_places};
ghost use Rattle.hp_cause.specs.Gathering.{of_defined_name, of_name_if, of_defined};
ghost use Rattle.hp_tables.specs.Defining.Names.{listed};
ghost use Rattle.hp_tables.specs.Defining.Layers.{is_said, sight};
ghost use Rattle.hp_cause.specs.Told.{facts_seen, names_seen, with_more};

use crate::around::Around;
use crate::fact::{Fact, read, stand};
use hp_base::{Name, Span};
use hp_meaning::causal::PointKind;
use hp_tables::defining::{Layer, sight};
use std::alloc::{AllocError, Global};

/// A name that a control equation defines: it reads the vertex, and the control around.
#[tactic(auto, using(crate::proofs::Rules::gathered))]
fn add_defined_name<'a>(
    layers: &[Layer],
    control: Option<usize>,
    read_by_each: usize,
    span: Span,
    name: &'a [u8],
    facts: &mut Vec<Fact<'a>>,
) -> Result<(), AllocError>
    ensures { OnOk result (facts_seen facts.new.items ≡ with_more (facts_seen facts.old.items) (of_defined_name (sight layers.now) control (Some read_by_each) span name.now)) }
{
    let vertex = sight(layers, name);
    stand(PointKind::Def, name, span, vertex, facts)?;
    read(vertex, Some(read_by_each), facts)?;
    read(vertex, control, facts)
}

#[tactic(auto, using(crate::proofs::Rules::gathered))]
fn add_if_defined<'a>(
    layers: &[Layer],
    control: Option<usize>,
    read_by_each: usize,
    span: Span,
    hidden: &Layer,
    name: &'a [u8],
    facts: &mut Vec<Fact<'a>>,
) -> Result<(), AllocError>
    ensures { OnOk result (facts_seen facts.new.items ≡ with_more (facts_seen facts.old.items) (of_name_if (sight layers.now) control (Some read_by_each) span (is_said hidden.now) name.now)) }
{
    if hidden.of(name).is_some() {
        return add_defined_name(layers, control, read_by_each, span, name, facts);
    }
    Ok(())
}

/// Those of the names around that a control equation defines, found by a walk over all of them.
#[tactic(auto, using(crate::proofs::Rules::gathered_in_lists))]
fn add_defined_of_all<'a>(
    layers: &[Layer],
    control: Option<usize>,
    read_by_each: usize,
    span: Span,
    hidden: &Layer,
    around: &[&'a [u8]],
    facts: &mut Vec<Fact<'a>>,
) -> Result<(), AllocError>
    ensures { OnOk result (facts_seen facts.new.items ≡ with_more (facts_seen facts.old.items) (of_defined (sight layers.now) control (Some read_by_each) span (is_said hidden.now) (names_seen around.now))) }
{
    for i in 0..around.len() {
        add_if_defined(
            layers,
            control,
            read_by_each,
            span,
            hidden,
            around[i],
            facts,
        )?;
    }
    Ok(())
}

#[tactic(auto, using(crate::proofs::Rules::gathered))]
fn add_at_place<'a>(
    layers: &[Layer],
    control: Option<usize>,
    read_by_each: usize,
    span: Span,
    around: &[&'a [u8]],
    place: usize,
    facts: &mut Vec<Fact<'a>>,
) -> Result<(), AllocError>
    ensures { OnOk result (facts_seen facts.new.items ≡ with_more (facts_seen facts.old.items) (of_place (sight layers.now) control (Some read_by_each) span (slice_get (names_seen around.now) place))) }
{
    if let Some(name) = around.get(place) {
        return add_defined_name(layers, control, read_by_each, span, name, facts);
    }
    Ok(())
}

#[tactic(auto, using(crate::proofs::Rules::gathered_in_lists))]
fn add_at_places<'a>(
    layers: &[Layer],
    control: Option<usize>,
    read_by_each: usize,
    span: Span,
    around: &[&'a [u8]],
    places: &[usize],
    facts: &mut Vec<Fact<'a>>,
) -> Result<(), AllocError>
    ensures { OnOk result (facts_seen facts.new.items ≡ with_more (facts_seen facts.old.items) (of_places (sight layers.now) control (Some read_by_each) span (names_seen around.now) places.now)) }
{
    for i in 0..places.len() {
        add_at_place(
            layers,
            control,
            read_by_each,
            span,
            around,
            places[i],
            facts,
        )?;
    }
    Ok(())
}

/// Those of the names around that a control equation defines, which hides them inside. In a judged program no two names around are equal,
/// and then no more of them are looked at than it defines.
pub fn add_defined<'a>(
    alloc: Global,
    layers: &[Layer],
    around: &Around<'a>,
    control: Option<usize>,
    read_by_each: usize,
    span: Span,
    names: &[&Name],
    hidden: &Layer,
    facts: &mut Vec<Fact<'a>>,
) -> Result<(), AllocError>
    requires { is_said hidden.now ≡ listed (names_seen names.now) }
    ensures { OnOk result (facts_seen facts.new.items ≡ with_more (facts_seen facts.old.items) (of_defined (sight layers.now) control (Some read_by_each) span (is_said hidden.now) (names_seen around.now.names.items))) }
{
    match around.places(alloc, names)? {
        None => add_defined_of_all(
            layers,
            control,
            read_by_each,
            span,
            hidden,
            &around.names,
            facts,
        ),
        Some(places) => add_at_places(
            layers,
            control,
            read_by_each,
            span,
            &around.names,
            &places,
            facts,
        ),
    }
}
