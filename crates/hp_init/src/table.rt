//! How a block declares names.
ghost use Rattle.std.specs.Prelude.{◌≡◌, IfOk, OnOk};
ghost use Rattle.hp_init.specs.Tables.{holds, declared_in};
ghost use Rattle.hp_tables.specs.Defining.Layers.{put_at};
ghost use Rattle.hp_init.specs.Wants.{must_be_first};
ghost use Rattle.hp_tree.specs.Meaning.{declares};

use hp_tree::Decl;
use indexmap::IndexMap;
use std::alloc::{AllocError, Global};

/// Notes what is said of the name.
fn put<'a>(
    names: &mut IndexMap<&'a [u8], bool>,
    name: &'a [u8],
    is_last: bool,
) -> Result<(), AllocError>
    ensures { OnOk result (holds names.new ≡ put_at (holds names.old) name.now is_last) }
{
    names.insert(name, is_last)?;
    Ok(())
}

/// Whether the name is declared, and if so whether it is `last`.
fn find(names: &IndexMap<&[u8], bool>, name: &[u8]) -> Option<bool>
    ensures { result ≡ holds names.now name.now }
{
    match names.get(name) {
        None => None,
        Some(is_last) => Some(*is_last),
    }
}

/// The names that are declared, and whether each is declared `last`; of two with one name the first counts.
fn declared_names<'a>(
    alloc: Global,
    decls: &'a [Decl],
) -> Result<IndexMap<&'a [u8], bool>, AllocError>
    ensures { IfOk result (λ names. holds names ≡ declared_in decls.now) }
{
    let mut names = IndexMap::new(alloc);
    let mut i = decls.len();
    while i > 0 {
        i -= 1;
        let decl = &decls[i];
        put(&mut names, decl.name.bytes(), decl.last.is_some())?;
    }
    Ok(names)
}

/// The variables that a block declares, and whether each is declared `last`.
#[derive(Drop)]
pub struct Locals<'a> {
    pub decls: &'a [Decl],
    names: IndexMap<&'a [u8], bool>,
    ghost known: { holds names ≡ declared_in decls.now },
}

impl<'a> Locals<'a> {
    pub fn new(alloc: Global, decls: &'a [Decl]) -> Result<Locals<'a>, AllocError>
        ensures { IfOk result (λ locals. locals.decls.now ≡ decls.now) }
    {
        let names = declared_names(alloc, decls)?;
        Ok(Locals { decls, names })
    }

    fn of(&self, name: &[u8]) -> Option<bool>
        ensures { result ≡ declared_in self.now.decls.now name.now }
    {
        find(&self.names, name)
    }

    #[tactic(auto, using(crate::proofs::Rules::locals))]
    pub fn declares(&self, name: &[u8]) -> bool
        ensures { result ≡ declares self.now.decls.now name.now }
    {
        self.of(name).is_some()
    }

    /// Whether a name that the block defines has to be First: one that is declared `last`, or further out.
    #[tactic(auto, using(crate::proofs::Rules::locals))]
    pub fn must_be_first(&self, name: &[u8]) -> bool
        ensures { result ≡ must_be_first self.now.decls.now name.now }
    {
        self.of(name).unwrap_or(true)
    }
}
