//! How equations define names.
ghost use Rattle.std.specs.Prelude.{◌≡◌, map, OnOk, IfOk};
ghost use Rattle.hp_typing.specs.Uses.{beside, between, worse, nowhere, only, both, worst, pairwise, among, how, worsened, put_at};

use hp_base::Name;
use indexmap::IndexMap;
use std::alloc::{AllocError, Global};

/// How equations and the blocks inside them define a name.
#[derive(Clone, Copy)]
pub enum Use {
    Never,
    Once,
    /// In a block of a control equation, and not in another.
    Partly,
    /// Twice in one block.
    Twice,
}

impl Use {
    /// By an equation and by others beside it in its block.
    fn beside(self, other: Use) -> Use
        ensures { result ≡ beside self other }
    {
        match (self, other) {
            (Use::Never, other) => other,
            (used, Use::Never) => used,
            _ => Use::Twice,
        }
    }

    /// By two blocks of a control equation.
    fn between(self, other: Use) -> Use
        ensures { result ≡ between self other }
    {
        match (self, other) {
            (Use::Twice, _) | (_, Use::Twice) => Use::Twice,
            (Use::Never, Use::Never) => Use::Never,
            (Use::Once, Use::Once) => Use::Once,
            _ => Use::Partly,
        }
    }

    fn worse(self, other: Use) -> Use
        ensures { result ≡ worse self other }
    {
        match (self, other) {
            (Use::Twice, _) | (_, Use::Twice) => Use::Twice,
            (Use::Partly, _) | (_, Use::Partly) => Use::Partly,
            (Use::Never, other) => other,
            (Use::Once, _) => Use::Once,
        }
    }
}

/// How each name is defined by some equations.
#[derive(Drop)]
pub struct Uses<'a> {
    pub names: IndexMap<&'a [u8], Use>,
}

impl<'a> Uses<'a> {
    pub fn new(alloc: Global) -> Uses<'a>
        ensures { how result ≡ nowhere }
    {
        Uses {
            names: IndexMap::new(alloc),
        }
    }

    /// How the name is defined.
    pub fn of(&self, name: &[u8]) -> Use
        ensures { result ≡ how self.now name.now }
    {
        match self.names.get(name) {
            None => Use::Never,
            Some(used) => *used,
        }
    }

    fn put(&mut self, name: &'a [u8], used: Use) -> Result<(), AllocError>
        ensures { OnOk result (how self.new ≡ put_at (how self.old) name.now used) }
    {
        self.names.insert(name, used)?;
        Ok(())
    }

    /// Adds an equation that has the name on its left side.
    pub fn add(&mut self, name: &'a Name) -> Result<(), AllocError>
        ensures { OnOk result (how self.new ≡ both (how self.old) (only name.now)) }
    {
        let text = name.bytes();
        let used = self.of(text).beside(Use::Once);
        self.put(text, used)
    }

    /// Adds an equation that defines the names so.
    pub fn add_all(&mut self, other: &Uses<'a>) -> Result<(), AllocError>
        ensures { OnOk result (how self.new ≡ both (how self.old) (how other.now)) }
    {
        for i in 0..other.names.len() {
            if let Some((name, used)) = other.names.get_index(i) {
                let so_far = self.of(*name);
                self.put(*name, so_far.beside(*used))?;
            }
        }
        Ok(())
    }

    /// Makes the names as bad as they are between two blocks, which are those that one of the blocks has.
    fn worsen(
        &mut self,
        names: &Uses<'a>,
        first: &Uses<'a>,
        second: &Uses<'a>,
    ) -> Result<(), AllocError>
        ensures { OnOk result (how self.new ≡ worsened names.now (how self.old) (pairwise (how first.now) (how second.now))) }
    {
        for i in 0..names.names.len() {
            if let Some((name, _)) = names.names.get_index(i) {
                let before = first.of(*name);
                let after = second.of(*name);
                let so_far = self.of(*name);
                self.put(*name, so_far.worse(before.between(after)))?;
            }
        }
        Ok(())
    }

    /// Makes each name as bad as it is between two blocks.
    fn add_pair(&mut self, first: &Uses<'a>, second: &Uses<'a>) -> Result<(), AllocError>
        ensures { OnOk result (how self.new ≡ worst (how self.old) (pairwise (how first.now) (how second.now))) }
    {
        self.worsen(first, first, second)?;
        self.worsen(second, first, second)?;
        Ok(())
    }
}

/// How the blocks of a control equation define the names. Of the blocks each is compared with the next.
pub fn join<'a>(alloc: Global, blocks: &[Uses<'a>]) -> Result<Uses<'a>, AllocError>
    ensures { IfOk result (λ uses. how uses ≡ among (map how blocks.now)) }
{
    let mut all = Uses::new(alloc);
    for i in 0..blocks.len() {
        let block = &blocks[i];
        let next = &blocks[(i + 1).min(blocks.len() - 1)];
        all.add_pair(block, next)?;
    }
    Ok(all)
}
