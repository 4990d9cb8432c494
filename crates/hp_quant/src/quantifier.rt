ghost use Rattle.std.specs.Prelude.{◌≡◌, ◌≤◌, false, ℕ, length, IfOk};
ghost use Rattle.hp_diagram.specs.Diagrams.{Has, Keeps};
ghost use Rattle.hp_quant.specs.Quantifiers.{IsSomeAt, IsAllAt, IsEitherAt, IsExists, IsForall, MarksRange};
ghost use Rattle.hp_quant.specs.Turns.{marked, Answers};

use crate::pair::{Found, Pair};
use crate::turns::{Plan, seek};
use hp_diagram::{Ref, Table, zero};
use std::alloc::{AllocError, Global};

/// The function that is true where some values of the variables from `from` up to, not including, `to` make it true.
pub fn exists(alloc: Global, t: &mut Table, r: Ref, from: u16, to: u16) -> Result<Ref, AllocError>
    requires has { Has t.old r }
    requires order { from ≤ to }
    requires within { to ≤ t.old.vars }
    ensures ok { IfOk result (IsExists t.old t.new from to r) }
    ensures keeps { Keeps t.old t.new }
{
    // The proof of `keeps` wants the table's rules.
    let _vars = t.vars();
    let of = range(alloc, from, to)?;
    some_marked(alloc, t, r, &of)
}

/// The function that is true where all values of the variables from `from` up to, not including, `to` make it true.
pub fn forall(alloc: Global, t: &mut Table, r: Ref, from: u16, to: u16) -> Result<Ref, AllocError>
    requires has { Has t.old r }
    requires order { from ≤ to }
    requires within { to ≤ t.old.vars }
    ensures ok { IfOk result (IsForall t.old t.new from to r) }
    ensures keeps { Keeps t.old t.new }
{
    // The proof of `keeps` wants the table's rules.
    let _vars = t.vars();
    let of = range(alloc, from, to)?;
    all_marked(alloc, t, r, &of)
}

/// The function that is true where some values of the marked variables make it true.
pub fn some_marked(alloc: Global, t: &mut Table, r: Ref, of: &[bool]) -> Result<Ref, AllocError>
    requires has { Has t.old r }
    requires within { length of.now ≤ t.old.vars }
    ensures ok { IfOk result (IsSomeAt t.old t.new of.now r) }
    ensures keeps { Keeps t.old t.new }
{
    let f = zero();
    seek_anew(alloc, t, Pair { f, g: r }, false, of)
}

/// The function that is true where all values of the marked variables make it true.
pub fn all_marked(alloc: Global, t: &mut Table, r: Ref, of: &[bool]) -> Result<Ref, AllocError>
    requires has { Has t.old r }
    requires within { length of.now ≤ t.old.vars }
    ensures ok { IfOk result (IsAllAt t.old t.new of.now r) }
    ensures keeps { Keeps t.old t.new }
{
    let f = zero();
    seek_anew(alloc, t, Pair { f, g: r }, true, of)
}

/// The function that is true where some values of the marked variables make one of the two true. Their disjunction is not made.
pub fn either_marked(
    alloc: Global,
    t: &mut Table,
    f: Ref,
    g: Ref,
    of: &[bool],
) -> Result<Ref, AllocError>
    requires f { Has t.old f }
    requires g { Has t.old g }
    requires within { length of.now ≤ t.old.vars }
    ensures ok { IfOk result (IsEitherAt t.old t.new of.now f g) }
    ensures keeps { Keeps t.old t.new }
{
    seek_anew(alloc, t, Pair { f, g }, false, of)
}

/// Marks for the variables from `from` up to, not including, `to`.
fn range(alloc: Global, from: u16, to: u16) -> Result<Vec<bool>, AllocError>
    requires { from ≤ to }
    ensures len { IfOk result (λ of. length of.items ≡ to) }
    ensures marks { IfOk result (λ of. MarksRange of.items from to) }
{
    let mut of = vec![in alloc; true; usize::from(to)]?;
    for x in 0..usize::from(from) {
        of[x] = false;
    }
    Ok(of)
}

/// The variable from which on none is marked.
fn end_of(of: &[bool]) -> usize
    ensures within { result ≤ length of.now }
    ensures none { (x : ℕ) → result ≤ x → marked of.now x ≡ false }
{
    let mut end = of.len();
    while end > 0 && !of[end - 1] {
        end -= 1;
    }
    end
}

/// The answer for two functions, where nothing is found yet.
fn seek_anew(
    alloc: Global,
    t: &mut Table,
    p: Pair,
    all: bool,
    of: &[bool],
) -> Result<Ref, AllocError>
    requires f { Has t.old p.f }
    requires g { Has t.old p.g }
    requires within { length of.now ≤ t.old.vars }
    ensures ok { IfOk result (λ s. (end : ℕ) × ((x : ℕ) → end ≤ x → marked of.now x ≡ false) × Answers t.new (record { all = all; end = end }) of.now p s) }
    ensures keeps { Keeps t.old t.new }
{
    let end = end_of(of);
    seek(t, p, Plan { all, end }, of, &mut Found::new(alloc))
}
