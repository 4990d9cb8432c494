//! How a block declares names.
ghost use Rattle.std.specs.Prelude.{◌≡◌, [], IfOk};
ghost use Rattle.hp_cause.specs.Tables.{own_path, path_at, path_of};
ghost use Rattle.hp_tables.specs.Defining.Layers.{says, says_numbers};
ghost use Rattle.hp_tree.specs.Meaning.{declares, names_of};

use hp_base::Name;
use hp_tables::defining::Layer;
use hp_tree::{Cons, Decl};
use std::alloc::{AllocError, Global};

/// The variables that a block declares.
#[derive(Drop)]
pub struct Locals<'a> {
    pub decls: &'a [Decl],
    layer: Layer<'a>,
    ghost known: { says layer ≡ says_numbers 0 (names_of decls.now) },
}

impl<'a> Locals<'a> {
    pub fn new(alloc: Global, decls: &'a [Decl]) -> Result<Locals<'a>, AllocError>
        ensures { IfOk result (λ locals. locals.decls.now ≡ decls.now) }
    {
        let layer = Layer::declared(alloc, decls, 0)?;
        Ok(Locals { decls, layer })
    }

    fn find(&self, name: &[u8]) -> Option<Option<usize>>
        ensures { result ≡ says_numbers 0 (names_of self.now.decls.now) name.now }
    {
        self.layer.of(name)
    }

    #[tactic(auto, using(crate::proofs::Rules::locals))]
    pub fn declares(&self, name: &[u8]) -> bool
        ensures { result ≡ declares self.now.decls.now name.now }
    {
        self.find(name).is_some()
    }

    /// The path of the name's clock, outermost first.
    pub fn path(&self, name: &[u8]) -> &'a [(Cons, Name)]
        ensures { result.now ≡ path_of self.now.decls.now name.now }
    {
        match self.find(name) {
            None => &[],
            Some(None) => &[],
            Some(Some(i)) => path_at(self.decls, i),
        }
    }
}

fn path(decl: &Decl) -> &[(Cons, Name)]
    ensures { result.now ≡ own_path decl.now }
{
    match &decl.clock {
        None => &[],
        Some(path) => path,
    }
}

#[tactic(auto, using(crate::proofs::Rules::locals))]
fn path_at(decls: &[Decl], i: usize) -> &[(Cons, Name)]
    ensures { result.now ≡ path_at decls.now i }
{
    if i < decls.len() {
        return path(&decls[i]);
    }
    &[]
}
