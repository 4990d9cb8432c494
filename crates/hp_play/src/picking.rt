//! One valuation of a diagram, and what of it does not matter.
ghost use Rattle.std.specs.Prelude.{◌≡◌, ◌≢◌, ◌+◌, ◌<◌, ◌≤◌, if◌then◌else◌, length, IsTrue, IfOk, OnOk};
ghost use Rattle.hp_diagram.specs.Diagrams.{function, valuation, zero_ref, Has, Keeps};
ghost use Rattle.hp_synth.specs.Layouts.{place, IsLayout};
ghost use Rattle.hp_synth.specs.Valued.{Valued, read, through};
ghost use Rattle.hp_play.specs.Fields.{AreValues, IsLiteral};

use hp_diagram::{Ref, Table, one, zero};
use hp_synth::{Layout, all_in};
use std::alloc::{AllocError, Global};

/// The valuations in which the variable at a place has this value.
fn literal(t: &mut Table, y: u16, value: bool) -> Result<Ref, AllocError>
    requires { y < t.old.vars }
    ensures ok { IfOk result (IsLiteral t.new y value) }
    ensures keeps { OnOk result (Keeps t.old t.new) }
{
    let variable = t.var(y)?;
    if value {
        return Ok(variable);
    }
    t.not(variable)
}

/// The valuations in which the variables from one on have these values.
pub fn of_values(
    t: &mut Table,
    layout: &Layout,
    from: u16,
    values: &[bool],
) -> Result<Ref, AllocError>
    requires layout { IsLayout t.old.vars layout.now }
    requires within { from + length values.now ≤ t.old.vars }
    ensures ok { IfOk result (AreValues (place layout.now) t.new from values.now) }
    ensures keeps { OnOk result (Keeps t.old t.new) }
{
    let _vars = t.vars();
    let mut all = one();
    for i in 0..values.len() {
        let value = literal(t, layout.place(from + i as u16), values[i])?;
        all = t.and(all, value)?;
    }
    Ok(all)
}

fn either(is_first: bool, first: Ref, second: Ref) -> Ref
    ensures { result ≡ (if is_first then first else second) }
{
    if is_first { first } else { second }
}

/// The value that is wanted of a variable, where the function is not false there, and else the other one.
fn value_of(low: Ref, high: Ref, wanted: bool) -> bool
    ensures { (low ≡ zero_ref → high ≢ zero_ref) → (if result then high else low) ≢ zero_ref }
{
    if wanted {
        high != zero()
    } else {
        low == zero()
    }
}

/// Changes the values to ones at which the function is true, if there are some; of two that differ first at a place, those that have the value from before there.
pub fn pick(t: &Table, r: Ref, values: &mut [bool])
    requires has { Has t.now r }
    requires values { length values.old ≡ t.now.vars }
    ensures len { length values.new ≡ length values.old }
    ensures found { (v : Valued) → IsTrue (function t.now r v) → IsTrue (function t.now r (valuation values.new)) }
{
    let mut at = r;
    for y in 0..t.vars() {
        let (low, high) = t.children(at, y);
        let place = usize::from(y);
        let value = value_of(low, high, values[place]);
        values[place] = value;
        at = either(value, high, low);
    }
}

/// The values of a machine's variables, of those at their places.
pub fn own_values(
    alloc: Global,
    vars: u16,
    layout: &Layout,
    placed: &[bool],
) -> Result<Vec<bool>, AllocError>
    requires layout { IsLayout vars layout.now }
    requires placed { length placed.now ≡ vars }
    ensures { IfOk result (λ values. values.items ≡ read 0 vars (through (place layout.now) (valuation placed.now))) }
{
    let mut values = Vec::new(alloc);
    for x in 0..vars {
        values.push(placed[usize::from(layout.place(x))])?;
    }
    Ok(values)
}

/// Of each register and early variable from the first one on whether it may have the other value too, with those before it that may, where these are the valuations that serve; those before the first one may not.
pub fn free_values(
    alloc: Global,
    t: &mut Table,
    layout: &Layout,
    serve: Ref,
    placed: &[bool],
    first: u16,
) -> Result<Vec<bool>, AllocError>
    requires layout { IsLayout t.old.vars layout.now }
    requires serve { Has t.old serve }
    requires placed { length placed.now ≡ t.old.vars }
    requires first { first ≤ layout.now.counts.registers + layout.now.counts.early }
    ensures many { IfOk result (λ free. length free.items ≡ layout.now.counts.registers + layout.now.counts.early) }
    ensures keeps { OnOk result (Keeps t.old t.new) }
{
    let _vars = t.vars();
    let mut left = serve;
    let mut free = vec![in alloc; false; usize::from(first)]?;
    for x in first..layout.counts.registers + layout.counts.early {
        let wider = all_in(alloc, t, layout, left, x, x + 1)?;
        let serves = t.value(wider, placed);
        left = either(serves, wider, left);
        free.push(serves)?;
    }
    Ok(free)
}
