ghost use Rattle.std.specs.Prelude.{◌≡◌, ◌<◌, All, length, IfOk};
ghost use Rattle.hp_diagram.specs.Diagrams.{Has, function, Means, Keeps};
ghost use Rattle.hp_quant.specs.Replacements.{replaced, HasAll, Composes, AllComposed, AreComposed};

use crate::memo::Memo;
use hp_diagram::{Ref, Table};
use std::alloc::{AllocError, Global};

/// The function of r with functions in the place of variables, all at once. A variable with `None` stays.
pub fn compose(alloc: Global, t: &mut Table, r: Ref, by: &[Option<Ref>]) -> Result<Ref, AllocError>
    requires has { Has t.old r }
    requires replacements { HasAll t.old by.now }
    requires each { length by.now ≡ t.old.vars }
    ensures ok { IfOk result (Means t.new (λ v. function t.old r (replaced t.old by.now v))) }
    ensures keeps { Keeps t.old t.new }
{
    replace(t, r, by, &mut Memo::new(alloc))
}

/// The same, beside what was found with the same functions before, in this table as it grew; what is found is added. Of several
/// references that share parts, one after the other, each part is looked at once.
pub fn compose_with(
    t: &mut Table,
    r: Ref,
    by: &[Option<Ref>],
    memo: &mut Memo,
) -> Result<Ref, AllocError>
    requires has { Has t.old r }
    requires replacements { HasAll t.old by.now }
    requires each { length by.now ≡ t.old.vars }
    requires right { AllComposed t.old by.now memo.old }
    ensures ok { IfOk result (Means t.new (λ v. function t.old r (replaced t.old by.now v))) }
    ensures keeps { Keeps t.old t.new }
    ensures right { AllComposed t.new by.now memo.new }
{
    replace(t, r, by, memo)
}

/// The functions of some references with functions in the place of variables, all found in one pass.
pub fn compose_all(
    alloc: Global,
    t: &mut Table,
    refs: &[Ref],
    by: &[Option<Ref>],
) -> Result<Vec<Ref>, AllocError>
    requires has { All (Has t.old) refs.now }
    requires replacements { HasAll t.old by.now }
    requires each { length by.now ≡ t.old.vars }
    ensures many { IfOk result (λ made. length made.items ≡ length refs.now) }
    ensures ok { IfOk result (λ made. AreComposed t.old t.new by.now refs.now made.items) }
    ensures keeps { Keeps t.old t.new }
{
    // The proof of `keeps` wants the table's rules.
    let _vars = t.vars();
    let mut memo = Memo::new(alloc);
    let mut made = Vec::new(alloc);
    for i in 0..refs.len() {
        let s = replace(t, refs[i], by, &mut memo)?;
        made.push(s)?;
    }
    Ok(made)
}

/// The same, beside what this pass has found so far.
fn replace(t: &mut Table, r: Ref, by: &[Option<Ref>], memo: &mut Memo) -> Result<Ref, AllocError>
    requires has { Has t.old r }
    requires replacements { HasAll t.old by.now }
    requires each { length by.now ≡ t.old.vars }
    requires right { AllComposed t.old by.now memo.old }
    ensures ok { IfOk result (Composes t.new by.now r) }
    ensures keeps { Keeps t.old t.new }
    ensures right { AllComposed t.new by.now memo.new }
{
    let Some(node) = t.branch(r) else {
        return Ok(r);
    };
    if let Some(s) = memo.get(r) {
        return Ok(s);
    }
    let low = replace(t, node.low, by, memo)?;
    let high = replace(t, node.high, by, memo)?;
    let test = replacement(t, node.var, by)?;
    let s = t.choose(test, high, low)?;
    memo.put(r, s)?;
    Ok(s)
}

/// The function in the place of a variable.
fn replacement(t: &mut Table, var: u16, by: &[Option<Ref>]) -> Result<Ref, AllocError>
    requires replacements { HasAll t.old by.now }
    requires each { length by.now ≡ t.old.vars }
    requires var { var < t.old.vars }
    ensures ok { IfOk result (Means t.new (λ v. replaced t.old by.now v var)) }
    ensures keeps { Keeps t.old t.new }
{
    match by[usize::from(var)] {
        Some(g) => {
            // The proof of `keeps` wants the table's rules.
            let _vars = t.vars();
            Ok(g)
        }
        None => t.var(var),
    }
}
