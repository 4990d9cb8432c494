//! Entering and leaving blocks and control equations.
ghost use Rattle.std.specs.Prelude.{◌≡◌, [], map, IfOk, OnOk};
ghost use Rattle.hp_tree.specs.BlockView.{eqn_seen};
ghost use Rattle.hp_drawing.specs.Scopes as scopes;
ghost use Rattle.hp_drawing.specs.DrawnBlocks.{enter_block, own_of_block};
ghost use Rattle.hp_drawing.specs.Seen.{sketch_of};
ghost use Rattle.hp_abstract.specs.Seen.{layer_of, now_of, scope_of, told_in};

use crate::lasts::add_lasts;
use crate::scope::{Layer, Scope, wire_or_false};
use crate::shape::is_mark;
use crate::table::Tables;
use hp_base::Name;
use hp_drawing::{Draft, Entry, Place, Value, chain};
use hp_tables::defining::{names_in, names_of};
use hp_tree::{Block, Decl, Eqn};
use std::alloc::AllocError;

/// The variables that a block declares, with wires that are said later.
#[tactic(auto, using(crate::proofs::Rules::rows))]
fn put_locals<'a>(
    tables: &Tables<'a>,
    locals: &'a [Decl],
    layer: &mut Layer<'a>,
    draft: &mut Draft,
) -> Result<(), AllocError>
    ensures sketch { OnOk result (sketch_of draft.new ≡ (scopes.put_locals (told_in tables.now) 0 locals.now (layer_of layer.old) (sketch_of draft.old)).1) }
    ensures layer { OnOk result (layer_of layer.new ≡ (scopes.put_locals (told_in tables.now) 0 locals.now (layer_of layer.old) (sketch_of draft.old)).0) }
{
    for i in 0..locals.len() {
        let local = &locals[i];
        let shape = tables.shape(&local.ty);
        let wire = draft.hole(shape)?;
        layer.add(local.name.bytes(), Entry::local(i, wire, shape))?;
    }
    Ok(())
}

/// A name that a block defines, and did not declare.
fn put_name<'a>(
    scope: &Scope<'a>,
    name: &'a [u8],
    layer: &mut Layer<'a>,
    draft: &mut Draft,
) -> Result<(), AllocError>
    ensures sketch { OnOk result (sketch_of draft.new ≡ (scopes.put_name (scope_of scope.now) name.now (layer_of layer.old) (sketch_of draft.old)).1) }
    ensures layer { OnOk result (layer_of layer.new ≡ (scopes.put_name (scope_of scope.now) name.now (layer_of layer.old) (sketch_of draft.old)).0) }
{
    match layer.of(name) {
        Some(_) => Ok(()),
        None => {
            let shape = scope.shape(name);
            let wire = draft.hole(shape)?;
            layer.put(name, Entry::at(wire, shape))
        }
    }
}

/// Names that a block defines.
#[tactic(auto, using(crate::proofs::Rules::rows))]
fn put_names<'a>(
    scope: &Scope<'a>,
    names: &[&'a Name],
    layer: &mut Layer<'a>,
    draft: &mut Draft,
) -> Result<(), AllocError>
    ensures sketch { OnOk result (sketch_of draft.new ≡ (scopes.put_names (scope_of scope.now) (map now_of names.now) (layer_of layer.old) (sketch_of draft.old)).1) }
    ensures layer { OnOk result (layer_of layer.new ≡ (scopes.put_names (scope_of scope.now) (map now_of names.now) (layer_of layer.old) (sketch_of draft.old)).0) }
{
    for i in 0..names.len() {
        put_name(scope, names[i].bytes(), layer, draft)?;
    }
    Ok(())
}

/// What a block says of the names that it declares or defines.
fn own_layer<'a>(
    tables: &Tables<'a>,
    scope: &Scope<'a>,
    block: &'a Block,
    draft: &mut Draft,
) -> Result<Layer<'a>, AllocError>
    ensures sketch { OnOk result (sketch_of draft.new ≡ (own_of_block (told_in tables.now) (scope_of scope.now) block.now (sketch_of draft.old)).1) }
    ensures layer { IfOk result (λ layer. layer_of layer ≡ (own_of_block (told_in tables.now) (scope_of scope.now) block.now (sketch_of draft.old)).0) }
{
    let names = names_in(tables.alloc, &block.eqns)?;
    let mut layer = Layer::new(tables.alloc);
    put_locals(tables, &block.locals, &mut layer, draft)?;
    put_names(scope, &names, &mut layer, draft)?;
    Ok(layer)
}

/// Enters a block.
#[tactic(auto, unfolding(hp_drawing::specs::Scopes::push_values, hp_drawing::specs::Scopes::push_lasts, hp_drawing::specs::Scopes::pop_values, hp_drawing::specs::Scopes::pop_lasts))]
pub fn enter<'a>(
    tables: &Tables<'a>,
    scope: &mut Scope<'a>,
    place: Place,
    block: &'a Block,
    draft: &mut Draft,
) -> Result<(), AllocError>
    ensures sketch { OnOk result (sketch_of draft.new ≡ (enter_block (told_in tables.now) (scope_of scope.old) place block.now (sketch_of draft.old)).1) }
    ensures scope { OnOk result (scope_of scope.new ≡ (enter_block (told_in tables.now) (scope_of scope.old) place block.now (sketch_of draft.old)).0) }
    ensures around { OnOk result (scopes.leave (scope_of scope.new) ≡ scope_of scope.old) }
{
    let layer = own_layer(tables, scope, block, draft)?;
    let mut lasts = Layer::new(tables.alloc);
    add_lasts(tables, place, &block.locals, &layer, &mut lasts, draft)?;
    scope.push(layer)?;
    scope.push_lasts(lasts)?;
    Ok(())
}

/// Leaves a block.
pub fn leave(scope: &mut Scope)
    ensures { scope_of scope.new ≡ scopes.leave (scope_of scope.old) }
{
    scope.leave();
    scope.leave_lasts();
}

/// Hides a name of the block around, of which the last value is read inside of the control equation.
fn hide_name<'a>(
    scope: &Scope<'a>,
    name: &'a [u8],
    hidden: &mut Layer<'a>,
) -> Result<(), AllocError>
    ensures { OnOk result (layer_of hidden.new ≡ scopes.hide_name (scope_of scope.now) name.now (layer_of hidden.old)) }
{
    let Some(own) = scope.own(name) else {
        return Ok(());
    };
    let entry = Entry {
        wire: scope.last_wire(name),
        ..own
    };
    hidden.add(name, entry)
}

#[tactic(auto, using(crate::proofs::Rules::rows))]
fn hide_names<'a>(
    scope: &Scope<'a>,
    names: &[&'a Name],
    hidden: &mut Layer<'a>,
) -> Result<(), AllocError>
    ensures { OnOk result (layer_of hidden.new ≡ scopes.hide_names (scope_of scope.now) (map now_of names.now) (layer_of hidden.old)) }
{
    for i in 0..names.len() {
        hide_name(scope, names[i].bytes(), hidden)?;
    }
    Ok(())
}

/// What a control equation says of the names that it defines: they are hidden.
fn hidden_layer<'a>(
    tables: &Tables<'a>,
    scope: &Scope<'a>,
    eqn: &'a Eqn,
) -> Result<Layer<'a>, AllocError>
    ensures { IfOk result (λ layer. layer_of layer ≡ scopes.hide_names (scope_of scope.now) (scopes.names_of_eqn (eqn_seen eqn.now)) []) }
{
    let names = names_of(tables.alloc, eqn)?;
    let mut hidden = Layer::new(tables.alloc);
    hide_names(scope, &names, &mut hidden)?;
    Ok(hidden)
}

/// Enters a control equation.
#[tactic(auto, unfolding(hp_drawing::specs::Scopes::hide, hp_drawing::specs::Scopes::push_values, hp_drawing::specs::Scopes::pop_values))]
pub fn hide<'a>(tables: &Tables<'a>, scope: &mut Scope<'a>, eqn: &'a Eqn) -> Result<(), AllocError>
    ensures hidden { OnOk result (scope_of scope.new ≡ scopes.hide (scope_of scope.old) (eqn_seen eqn.now)) }
    ensures around { OnOk result (scopes.pop_values (scope_of scope.new) ≡ (scope_of scope.old)) }
{
    let hidden = hidden_layer(tables, scope, eqn)?;
    scope.push(hidden)
}

/// What a block of a control equation gives to a name: its wire there, or that of its last value.
fn branch_value(own: &Layer, name: &[u8], hidden: Entry) -> Value
    ensures { result ≡ scopes.branch_value (layer_of own.now) name.now hidden }
{
    let from = match own.of(name) {
        None => hidden.wire,
        Some(entry) => match entry.decl {
            None => entry.wire,
            Some(_) => hidden.wire,
        },
    };
    Value {
        wire: wire_or_false(from),
        shape: hidden.shape,
    }
}

/// Says what a name of a control equation is where the condition holds, and gives the wire that is said next.
fn join_name(
    own: &Layer,
    name: &[u8],
    entry: Entry,
    condition: usize,
    draft: &mut Draft,
) -> Result<usize, AllocError>
    ensures sketch { OnOk result (sketch_of draft.new ≡ (scopes.join_name (layer_of own.now) condition name.now entry (sketch_of draft.old)).1) }
    ensures wire { IfOk result (λ w. w ≡ (scopes.join_name (layer_of own.now) condition name.now entry (sketch_of draft.old)).0) }
{
    chain::add(draft, entry.hole, condition, branch_value(own, name, entry))
}

/// Says what the names of a control equation are where the condition holds: what the block gives.
fn join_names(
    own: &Layer,
    condition: usize,
    hidden: &mut Layer,
    draft: &mut Draft,
) -> Result<(), AllocError>
    ensures sketch { OnOk result (sketch_of draft.new ≡ (scopes.join_names (layer_of own.now) condition (layer_of hidden.old) (sketch_of draft.old)).1) }
    ensures layer { OnOk result (layer_of hidden.new ≡ (scopes.join_names (layer_of own.now) condition (layer_of hidden.old) (sketch_of draft.old)).0) }
{
    for i in 0..hidden.len() {
        let Some((name, entry)) = hidden.at(i) else {
            unreachable!();
        };
        let rest = join_name(own, name, entry, condition, draft)?;
        hidden.set_hole(i, rest);
    }
    Ok(())
}

/// Leaves a block of a control equation, which is taken where the condition holds.
#[tactic(auto, unfolding(hp_drawing::specs::Scopes::join, hp_drawing::specs::Scopes::push_values, hp_drawing::specs::Scopes::pop_values, hp_drawing::specs::Scopes::pop_lasts, hp_drawing::specs::Scopes::top_layer))]
pub fn join(scope: &mut Scope, condition: usize, draft: &mut Draft) -> Result<(), AllocError>
    ensures sketch { OnOk result (sketch_of draft.new ≡ (scopes.join condition (scope_of scope.old) (sketch_of draft.old)).1) }
    ensures scope { OnOk result (scope_of scope.new ≡ (scopes.join condition (scope_of scope.old) (sketch_of draft.old)).0) }
    ensures around { OnOk result (scopes.pop_values (scope_of scope.new) ≡ scopes.pop_values (scopes.leave (scope_of scope.old))) }
{
    scope.leave_lasts();
    let Some(own) = scope.pop() else {
        return Ok(());
    };
    let Some(mut hidden) = scope.pop() else {
        return Ok(());
    };
    join_names(&own, condition, &mut hidden, draft)?;
    scope.push(hidden)
}

/// The names of a layer read the wire.
#[tactic(auto, using(crate::proofs::Rules::entries))]
fn read_by_names(hidden: &Layer, wire: usize, draft: &mut Draft) -> Result<(), AllocError>
    ensures { OnOk result (sketch_of draft.new ≡ scopes.read_by_names (layer_of hidden.now) wire (sketch_of draft.old)) }
{
    for i in 0..hidden.len() {
        if let Some((_, entry)) = hidden.at(i) {
            draft.read(entry.hole, wire)?;
        }
    }
    Ok(())
}

/// The names of the control equation read the wire.
#[tactic(auto, unfolding(hp_drawing::specs::Scopes::read_by_hidden))]
pub fn read_by_hidden(scope: &Scope, wire: usize, draft: &mut Draft) -> Result<(), AllocError>
    ensures { OnOk result (sketch_of draft.new ≡ scopes.read_by_hidden (scope_of scope.now) wire (sketch_of draft.old)) }
{
    match scope.top() {
        None => Ok(()),
        Some(hidden) => read_by_names(hidden, wire, draft),
    }
}

/// A name is zeros where nothing has said what it is.
fn end_name(entry: Entry, draft: &mut Draft) -> Result<(), AllocError>
    ensures { OnOk result (sketch_of draft.new ≡ scopes.end_name entry (sketch_of draft.old)) }
{
    if is_mark(entry.shape) {
        return Ok(());
    }
    chain::end(draft, entry.hole)
}

/// The names of a layer are zeros where nothing has said what they are.
#[tactic(auto, using(crate::proofs::Rules::entries))]
fn end_names(hidden: &Layer, draft: &mut Draft) -> Result<(), AllocError>
    ensures { OnOk result (sketch_of draft.new ≡ scopes.end_names (layer_of hidden.now) (sketch_of draft.old)) }
{
    for i in 0..hidden.len() {
        if let Some((_, entry)) = hidden.at(i) {
            end_name(entry, draft)?;
        }
    }
    Ok(())
}

/// Leaves a control equation. Its names are zeros where no block of it is taken.
#[tactic(auto, unfolding(hp_drawing::specs::Scopes::end_hidden, hp_drawing::specs::Scopes::top_layer))]
pub fn unhide(scope: &mut Scope, draft: &mut Draft) -> Result<(), AllocError>
    ensures sketch { OnOk result (sketch_of draft.new ≡ scopes.end_hidden (scope_of scope.old) (sketch_of draft.old)) }
    ensures scope { OnOk result (scope_of scope.new ≡ scopes.pop_values (scope_of scope.old)) }
{
    if let Some(hidden) = scope.top() {
        end_names(hidden, draft)?;
    }
    scope.leave();
    Ok(())
}
