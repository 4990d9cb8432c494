//! How names are seen in blocks.
ghost use Rattle.std.specs.Prelude.{◌≡◌, ◌+◌, ◌<◌, ◌^◌, length, map, IfOk, OnOk};
ghost use Rattle.hp_tree.specs.BlockView.{eqn_seen};
ghost use Rattle.hp_tree.specs.Blocks.{eqns_of};
ghost use Rattle.hp_clocks.specs.Layers.{says, said, own_says, sight, put_at, no_entry, says_names, says_locals, says_based, cell_by, cells_by, says_by, says_own};
ghost use Rattle.hp_clocks.specs.Putting.{own_size, own_locals};
ghost use Rattle.hp_clocks.specs.Units.{number_in, or_base};
ghost use Rattle.hp_clocks.specs.Names.{with_more};
ghost use Rattle.hp_tables.specs.Defining.Names.{names_in, controls_in};

use crate::cell::BASE;
use hp_base::Name;
use hp_tables::defining::{controls_in, names_in};
use hp_tree::{Block, Decl, Eqn};
use indexmap::IndexMap;
use std::alloc::{AllocError, Global};

/// The clocks of names, by their cells.
#[derive(Drop)]
pub struct Layer<'a> {
    pub names: IndexMap<&'a [u8], usize>,
}

impl<'a> Layer<'a> {
    pub fn new(alloc: Global) -> Layer<'a>
        ensures { says result ≡ no_entry }
    {
        Layer {
            names: IndexMap::new(alloc),
        }
    }

    /// What it says of the name.
    pub fn of(&self, name: &[u8]) -> Option<usize>
        ensures { result ≡ says self.now name.now }
    {
        match self.names.get(name) {
            None => None,
            Some(cell) => Some(*cell),
        }
    }

    /// The cell of a name of which it says something, or else the base clock.
    fn cell(&self, name: &[u8]) -> usize
        ensures { result ≡ or_base (says self.now name.now) }
    {
        match self.of(name) {
            None => BASE,
            Some(cell) => cell,
        }
    }

    fn put(&mut self, name: &'a [u8], cell: usize) -> Result<(), AllocError>
        ensures { OnOk result (says self.new ≡ put_at (says self.old) name.now cell) }
    {
        self.names.insert(name, cell)?;
        Ok(())
    }

    /// Adds names that are on the base clock.
    pub fn add_based(&mut self, decls: &'a [Decl]) -> Result<(), AllocError>
        ensures { OnOk result (says self.new ≡ says_based decls.now (says self.old)) }
    {
        for decl in decls {
            self.put(decl.name.bytes(), BASE)?;
        }
        Ok(())
    }

    /// The numbers of variables from `first` on; of two with one name the first counts.
    pub fn numbered(alloc: Global, decls: &'a [Decl], first: usize) -> Result<Layer<'a>, AllocError>
        requires { first + length decls.now < 2 ^ 64 }
        ensures { IfOk result (λ layer. says layer ≡ number_in first decls.now) }
    {
        let mut layer = Layer::new(alloc);
        let mut i = decls.len();
        while i > 0 {
            i -= 1;
            let decl = &decls[i];
            layer.put(decl.name.bytes(), first + i)?;
        }
        Ok(layer)
    }

    /// The names, with the cells that another layer says, or else the base clock.
    fn named(alloc: Global, names: &[&'a Name], cells: &Layer) -> Result<Layer<'a>, AllocError>
        ensures { IfOk result (λ layer. says layer ≡ says_names (map (λ x. x.now) names.now) (says cells.now)) }
    {
        let mut layer = Layer::new(alloc);
        let mut i = names.len();
        while i > 0 {
            i -= 1;
            let name = names[i].bytes();
            layer.put(name, cells.cell(name))?;
        }
        Ok(layer)
    }

    /// Locals with their cells.
    fn of_locals(
        alloc: Global,
        controls: &Layer,
        numbers: &Layer,
        decls: &'a [Decl],
    ) -> Result<Layer<'a>, AllocError>
        ensures { IfOk result (λ layer. says layer ≡ says_locals (says controls.now) (says numbers.now) decls.now) }
    {
        let mut layer = Layer::new(alloc);
        let mut i = decls.len();
        while i > 0 {
            i -= 1;
            let decl = &decls[i];
            layer.put(decl.name.bytes(), cell_by(controls, numbers, decl))?;
        }
        Ok(layer)
    }
}

/// The cell of a local. One that a control equation defines, or that is declared `last`, is on the base clock.
#[tactic(auto, using(crate::proofs::NamedRules::locals))]
fn cell_by(controls: &Layer, numbers: &Layer, decl: &Decl) -> usize
    ensures { result ≡ cell_by (says controls.now) (says numbers.now) decl.now }
{
    if decl.last.is_some() || controls.of(decl.name.bytes()).is_some() {
        return BASE;
    }
    numbers.cell(decl.name.bytes())
}

/// The cells of the locals, in order.
#[tactic(auto, using(crate::proofs::NamedRules::locals))]
fn add_cells(
    controls: &Layer,
    numbers: &Layer,
    decls: &[Decl],
    into: &mut Vec<usize>,
) -> Result<(), AllocError>
    ensures { OnOk result (into.new.items ≡ with_more into.old.items (map (cell_by (says controls.now) (says numbers.now)) decls.now)) }
{
    for decl in decls {
        into.push(cell_by(controls, numbers, decl))?;
    }
    Ok(())
}

/// The names that control equations define.
fn controlled_layer<'a>(alloc: Global, eqns: &'a [Eqn]) -> Result<Layer<'a>, AllocError>
    ensures { IfOk result (λ layer. says layer ≡ says_names (controls_in (eqns_of (map eqn_seen eqns.now))) no_entry) }
{
    let names = controls_in(alloc, eqns)?;
    Layer::named(alloc, &names, &Layer::new(alloc))
}

/// The names that equations define, where locals have these cells.
fn defined_layer<'a>(
    alloc: Global,
    eqns: &'a [Eqn],
    locals: &Layer,
) -> Result<Layer<'a>, AllocError>
    ensures { IfOk result (λ layer. says layer ≡ says_names (names_in (eqns_of (map eqn_seen eqns.now))) (says locals.now)) }
{
    let names = names_in(alloc, eqns)?;
    Layer::named(alloc, &names, locals)
}

/// What a block says of the names that it defines, where its locals have the numbers from `first` on. The cells of its locals are added.
#[tactic(auto, using(crate::proofs::NamedRules::locals))]
fn layer_by<'a>(
    alloc: Global,
    block: &'a Block,
    controls: &Layer,
    numbers: &Layer,
    into: &mut Vec<usize>,
) -> Result<Layer<'a>, AllocError>
    ensures says { IfOk result (λ layer. says layer ≡ says_by (says controls.now) (says numbers.now) block.now) }
    ensures cells { OnOk result (into.new.items ≡ with_more into.old.items (cells_by (says controls.now) (says numbers.now) block.now)) }
{
    add_cells(controls, numbers, &block.locals, into)?;
    let locals = Layer::of_locals(alloc, controls, numbers, &block.locals)?;
    defined_layer(alloc, &block.eqns, &locals)
}

/// What a block says of the names that it defines, where its locals have the numbers from `first` on. The cells of its locals are added.
pub fn own_layer<'a>(
    alloc: Global,
    block: &'a Block,
    first: usize,
    into: &mut Vec<usize>,
) -> Result<Layer<'a>, AllocError>
    requires { first + own_size block.now < 2 ^ 64 }
    ensures says { IfOk result (λ layer. says layer ≡ says_own first block.now) }
    ensures cells { OnOk result (into.new.items ≡ with_more into.old.items (own_locals first block.now)) }
{
    let controls = controlled_layer(alloc, &block.eqns)?;
    let numbers = Layer::numbered(alloc, &block.locals, first)?;
    layer_by(alloc, block, &controls, &numbers, into)
}

/// How a name is seen in a block.
#[derive(Clone, Copy)]
pub enum Seen {
    Nowhere,
    /// The block defines it.
    Own(usize),
    /// A block around it does. It is read where it is on the base clock there.
    Further(usize),
}

/// What the innermost layer says of the name that says something; the outermost stands first.
#[tactic(auto, using(crate::proofs::LayerLaws::said_here))]
fn nearest(layers: &[Layer], name: &[u8]) -> Option<usize>
    ensures { result ≡ said layers.now name.now }
{
    let mut i = layers.len();
    while i > 0 {
        i -= 1;
        let layer = &layers[i];
        if let Some(cell) = layer.of(name) {
            return Some(cell);
        }
    }
    None
}

/// What the block's own layer says of the name.
fn own(layers: &[Layer], name: &[u8]) -> Option<usize>
    ensures { result ≡ own_says layers.now name.now }
{
    match layers.last() {
        None => None,
        Some(layer) => layer.of(name),
    }
}

/// How a name is seen where these layers are, the outermost first.
pub fn sight(layers: &[Layer], name: &[u8]) -> Seen
    ensures { result ≡ sight layers.now name.now }
{
    if let Some(cell) = own(layers, name) {
        return Seen::Own(cell);
    }
    match nearest(layers, name) {
        None => Seen::Nowhere,
        Some(cell) => Seen::Further(cell),
    }
}
