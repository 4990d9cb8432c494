//! The names that equations define, and what a block declares.
ghost use Rattle.std.specs.Prelude.{◌≡◌, [], map, option_map, slice_get, IfOk, OnOk};
ghost use Rattle.hp_tree.specs.Blocks.{eqns_of};
ghost use Rattle.hp_tree.specs.BlockView.{eqn_seen};
ghost use Rattle.hp_tree.specs.Meaning.{declares, names_of as decl_names};
ghost use Rattle.hp_tables.specs.Declarations.Tables.{said_in};
ghost use Rattle.law_equations.specs.Made.Making.{each_once, is_plain, keeps_name, names_of_eqn, names_of_eqns, path_of, path_written};
ghost use Rattle.hp_complete.specs.Names.{decl_of, names_seen, with_once};
ghost use Rattle.hp_complete.specs.Signatures.{numbered};

use hp_base::Name;
use hp_tables::declarations::{Table, numbers_of};
use hp_tables::defining::{declared_names, names_in as all_names_in, names_of as all_names_of};
use hp_tree::{Cons, Decl, Eqn};
use indexmap::IndexSet;
use std::alloc::{AllocError, Global};

/// The variables that a block declares. Of two declarations of one name the first counts.
#[derive(Drop)]
pub struct Locals<'a> {
    pub decls: &'a [Decl],
    places: Table<'a, usize>,
    ghost known: { said_in places ≡ numbered 0 (decl_names decls.now) },
}

impl<'a> Locals<'a> {
    pub fn new(alloc: Global, decls: &'a [Decl]) -> Result<Locals<'a>, AllocError>
        ensures { IfOk result (λ locals. locals.decls.now ≡ decls.now) }
    {
        let names = declared_names(alloc, decls)?;
        let places = numbers_of(alloc, &names)?;
        Ok(Locals { decls, places })
    }

    fn place(&self, name: &[u8]) -> Option<usize>
        ensures { result ≡ numbered 0 (decl_names self.now.decls.now) name.now }
    {
        self.places.find(name)
    }

    /// The declaration of a name.
    #[tactic(auto, using(crate::proofs::NameRules::locals))]
    pub fn find(&self, name: &[u8]) -> Option<&'a Decl>
        ensures { option_map (λ d. d.now) result ≡ decl_of self.now.decls.now name.now }
    {
        match self.place(name) {
            None => None,
            Some(place) => decl_at(self.decls, place),
        }
    }

    #[tactic(auto, using(crate::proofs::NameRules::locals))]
    pub fn declares(&self, name: &[u8]) -> bool
        ensures { result ≡ declares self.now.decls.now name.now }
    {
        match self.find(name) {
            None => false,
            Some(_) => true,
        }
    }

    /// The path of the name's clock, outermost first.
    #[tactic(auto, using(crate::proofs::NameRules::locals))]
    pub fn path(&self, name: &[u8]) -> &'a [(Cons, Name)]
        ensures { result.now ≡ path_of self.now.decls.now name.now }
    {
        match self.find(name) {
            None => &[],
            Some(decl) => path(decl),
        }
    }

    /// Whether the variable of the name keeps it in the body of a node: one that is declared on the base clock.
    #[tactic(auto, using(crate::proofs::NameRules::locals))]
    pub fn keeps_name(&self, name: &[u8]) -> bool
        ensures { result ≡ keeps_name self.now.decls.now name.now }
    {
        match self.find(name) {
            None => false,
            Some(decl) => is_plain(decl),
        }
    }
}

#[tactic(auto, using(crate::proofs::NameRules::locals))]
fn decl_at(decls: &[Decl], place: usize) -> Option<&Decl>
    ensures { option_map (λ d. d.now) result ≡ slice_get decls.now place }
{
    if place < decls.len() {
        return Some(&decls[place]);
    }
    None
}

/// The path of a declaration's clock, outermost first; one that is not written is the base clock.
pub fn path(decl: &Decl) -> &[(Cons, Name)]
    ensures { result.now ≡ path_written decl.now.clock }
{
    match &decl.clock {
        None => &[],
        Some(path) => path,
    }
}

/// Whether a declaration is on the base clock.
#[tactic(auto, using(crate::proofs::NameRules::locals))]
pub fn is_plain(decl: &Decl) -> bool
    ensures { result ≡ is_plain decl.now.clock }
{
    path(decl).is_empty()
}

/// A name behind others, if it is none of those that are seen.
#[tactic(auto, using(crate::proofs::NameRules::once))]
fn add_once<'a>(
    name: &'a [u8],
    seen: &mut IndexSet<&'a [u8]>,
    into: &mut Vec<&'a [u8]>,
) -> Result<(), AllocError>
    requires { names_seen seen.old.keys ≡ names_seen into.old.items }
    ensures seen { OnOk result (names_seen seen.new.keys ≡ with_once (names_seen seen.old.keys) name.now) }
    ensures names { OnOk result (names_seen into.new.items ≡ with_once (names_seen into.old.items) name.now) }
{
    if seen.insert(name)? {
        into.push(name)?;
    }
    Ok(())
}

/// Each of the names once, in the order in which they come first.
#[tactic(auto, using(crate::proofs::NameRules::once))]
fn distinct<'a>(alloc: Global, names: &[&'a Name]) -> Result<Vec<&'a [u8]>, AllocError>
    ensures { IfOk result (λ found. names_seen found.items ≡ each_once [] (names_seen names.now)) }
{
    let mut seen: IndexSet<&'a [u8]> = IndexSet::new(alloc);
    let mut found = Vec::new(alloc);
    for i in 0..names.len() {
        add_once(names[i].bytes(), &mut seen, &mut found)?;
    }
    Ok(found)
}

/// The names that the equations of a block define, each once.
pub fn names_in<'a>(alloc: Global, eqns: &'a [Eqn]) -> Result<Vec<&'a [u8]>, AllocError>
    ensures { IfOk result (λ names. names_seen names.items ≡ each_once [] (names_of_eqns (eqns_of (map eqn_seen eqns.now)))) }
{
    let names = all_names_in(alloc, eqns)?;
    distinct(alloc, &names)
}

/// The names that an equation defines, each once.
pub fn names_of<'a>(alloc: Global, eqn: &'a Eqn) -> Result<Vec<&'a [u8]>, AllocError>
    ensures { IfOk result (λ names. names_seen names.items ≡ each_once [] (names_of_eqn (eqn_seen eqn.now))) }
{
    let names = all_names_of(alloc, eqn)?;
    distinct(alloc, &names)
}
