ghost use Rattle.std.specs.Prelude.{◌≡◌, ◌≤◌, ◌<◌, ◌↔◌, IsTrue, IfOk, IfSome, IfNone};
ghost use Rattle.hp_diagram.specs.Diagrams.{Has};
ghost use Rattle.hp_quant.specs.Implications.{Implies, AllImplied};

use crate::pair::{Found, Pair};
use hp_diagram::{Ref, Table, one, zero};
use std::alloc::{AllocError, Global};

/// Whether g is true wherever f is. It makes no node.
pub fn implies(alloc: Global, t: &Table, f: Ref, g: Ref) -> Result<bool, AllocError>
    requires f { Has t.now f }
    requires g { Has t.now g }
    ensures { IfOk result (λ b. IsTrue b ↔ Implies t.now f g) }
{
    follows(t, Pair { f, g }, &mut Found::new(alloc))
}

/// The answer that is seen from the references alone.
fn plain_implication(t: &Table, p: Pair) -> Option<bool>
    requires f { Has t.now p.f }
    requires g { Has t.now p.g }
    ensures answer { IfSome result (λ b. IsTrue b ↔ Implies t.now p.f p.g) }
    ensures node { IfNone result (2 ≤ p.f.index) }
{
    // The proof of `answer` opens the table, whose functions have one reference each.
    let _vars = t.vars();
    if p.f == p.g {
        return Some(true);
    }
    if p.f == zero() {
        return Some(true);
    }
    if p.g == one() {
        return Some(true);
    }
    if p.f == one() {
        return Some(false);
    }
    if p.g == zero() {
        return Some(false);
    }
    None
}

/// The answer for two functions, beside the pairs that were found to follow so far: of each the reference of "where f is, g is" is kept, which is `one`.
fn follows(t: &Table, p: Pair, found: &mut Found) -> Result<bool, AllocError>
    requires f { Has t.now p.f }
    requires g { Has t.now p.g }
    requires right { AllImplied t.now found.old }
    ensures ok { IfOk result (λ b. IsTrue b ↔ Implies t.now p.f p.g) }
    ensures right { AllImplied t.now found.new }
{
    let _vars = t.vars();
    if let Some(answer) = plain_implication(t, p) {
        return Ok(answer);
    }
    if let Some(_) = found.get(p) {
        return Ok(true);
    }
    let var = t.level(p.f).min(t.level(p.g));
    let (f_low, f_high) = t.children(p.f, var);
    let (g_low, g_high) = t.children(p.g, var);
    let low = Pair { f: f_low, g: g_low };
    if !follows(t, low, found)? {
        return Ok(false);
    }
    let high = Pair {
        f: f_high,
        g: g_high,
    };
    if !follows(t, high, found)? {
        return Ok(false);
    }
    found.put(p, one())?;
    Ok(true)
}
