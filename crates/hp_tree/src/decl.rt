ghost use Rattle.std.specs.Prelude.{◌≡◌, ◌↔◌, IsTrue, IfOk};
ghost use Rattle.hp_tree.specs.DeclView.{clock_seen};

use hp_base::{Const, Name, Span, Ty};
use std::alloc::{AllocError, Global};
use std::marker::Model;

/// What a clock or an arm compares with: a truth value, or a constructor of an enumeration.
#[derive(Debug, Drop)]
pub enum Cons {
    False,
    True,
    Named(Name),
}

impl Cons {
    pub fn copy(&self, alloc: Global) -> Result<Cons, AllocError>
        ensures { IfOk result (λ cons. cons ≡ self.now) }
    {
        match self {
            Cons::False => Ok(Cons::False),
            Cons::True => Ok(Cons::True),
            Cons::Named(name) => Ok(Cons::Named(name.copy(alloc)?)),
        }
    }

    pub fn same(&self, other: &Cons) -> bool
        ensures { IsTrue result ↔ (self.now ≡ other.now) }
    {
        match (self, other) {
            (Cons::False, Cons::False) => true,
            (Cons::True, Cons::True) => true,
            (Cons::Named(x), Cons::Named(y)) => x.same(y),
            _ => false,
        }
    }
}

/// The declaration of one variable.
#[derive(Debug, Drop)]
pub struct Decl {
    pub name: Name,
    pub ty: Ty,
    /// The first value of a variable that is declared with `last`.
    pub last: Option<Const>,
    /// The path of its clock, outermost first; `None` where no clock is written.
    pub clock: Option<Vec<(Cons, Name)>>,
    /// The place of the name.
    pub span: Span,
}

impl Model for Decl {
    ghost use Rattle.hp_tree.specs.Blocks.{Decl};
    ghost use Rattle.hp_tree.specs.DeclCode.{decl_code};

    ghost Value = { Decl };

    ghost coded = { decl_code };

    ghost use Rattle.hp_tree.specs.DeclView.{decl_seen};

    ghost view = { decl_seen };
}

impl Decl {
    pub fn copy(&self, alloc: Global) -> Result<Decl, AllocError>
        ensures { IfOk result (λ decl. decl ≡ self.now) }
    {
        Ok(Decl {
            name: self.name.copy(alloc)?,
            ty: self.ty.copy(alloc)?,
            last: copy_last(alloc, &self.last)?,
            clock: copy_clock(alloc, &self.clock)?,
            span: self.span,
        })
    }

    /// Whether the two are the same declaration, at the same place.
    pub fn same(&self, other: &Decl) -> bool
        ensures { IsTrue result ↔ (self.now ≡ other.now) }
    {
        self.name.same(&other.name)
            && self.ty.same(&other.ty)
            && same_last(&self.last, &other.last)
            && same_clock(&self.clock, &other.clock)
            && self.span == other.span
    }
}

/// A copy of each declaration, in order.
pub fn copy_decls(alloc: Global, decls: &[Decl]) -> Result<Vec<Decl>, AllocError>
    ensures { IfOk result (λ copies. copies.items ≡ decls.now) }
{
    let mut copies = Vec::new(alloc);
    for decl in decls {
        copies.push(decl.copy(alloc)?)?;
    }
    Ok(copies)
}

/// A copy of the first value of a declaration, if it has one.
pub fn copy_last(alloc: Global, last: &Option<Const>) -> Result<Option<Const>, AllocError>
    ensures { IfOk result (λ copy. copy ≡ last.now) }
{
    match last {
        None => Ok(None),
        Some(constant) => Ok(Some(constant.copy(alloc)?)),
    }
}

/// A copy of the clock of a declaration, if it has one.
pub fn copy_clock(
    alloc: Global,
    clock: &Option<Vec<(Cons, Name)>>,
) -> Result<Option<Vec<(Cons, Name)>>, AllocError>
    ensures { IfOk result (λ copy. clock_seen copy ≡ clock_seen clock.now) }
{
    match clock {
        None => Ok(None),
        Some(path) => Ok(Some(copy_path(alloc, path)?)),
    }
}

fn copy_path(alloc: Global, path: &[(Cons, Name)]) -> Result<Vec<(Cons, Name)>, AllocError>
    ensures { IfOk result (λ copies. copies.items ≡ path.now) }
{
    let mut copies = Vec::new(alloc);
    for (cons, name) in path {
        copies.push((cons.copy(alloc)?, name.copy(alloc)?))?;
    }
    Ok(copies)
}

/// Whether the two lists of declarations are the same.
pub fn same_decls(decls: &[Decl], others: &[Decl]) -> bool
    ensures { IsTrue result ↔ (decls.now ≡ others.now) }
{
    if decls.len() != others.len() {
        return false;
    }
    for i in 0..decls.len() {
        if !decls[i].same(&others[i]) {
            return false;
        }
    }
    true
}

fn same_last(last: &Option<Const>, other: &Option<Const>) -> bool
    ensures { IsTrue result ↔ (last.now ≡ other.now) }
{
    match (last, other) {
        (None, None) => true,
        (Some(a), Some(b)) => a.same(b),
        _ => false,
    }
}

fn same_clock(clock: &Option<Vec<(Cons, Name)>>, other: &Option<Vec<(Cons, Name)>>) -> bool
    ensures { IsTrue result ↔ (clock_seen clock.now ≡ clock_seen other.now) }
{
    match (clock, other) {
        (None, None) => true,
        (Some(path), Some(other_path)) => same_path(path, other_path),
        _ => false,
    }
}

fn same_path(path: &[(Cons, Name)], other: &[(Cons, Name)]) -> bool
    ensures { IsTrue result ↔ (path.now ≡ other.now) }
{
    if path.len() != other.len() {
        return false;
    }
    for i in 0..path.len() {
        let (cons, name) = &path[i];
        let (other_cons, other_name) = &other[i];
        if !(cons.same(other_cons) && name.same(other_name)) {
            return false;
        }
    }
    true
}
