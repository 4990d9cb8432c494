//! Which calls are formulas.
ghost use Rattle.std.specs.Prelude.{◌≡◌};
ghost use Rattle.hp_past.specs.Formulas.{word, names_node, declares_node, formulas_of, formula_of};

use hp_base::Name;
use hp_tree::Item;

/// The past-time formulas of contracts.
#[derive(Clone, Copy, Debug, PartialEq, Eq)]
pub enum Formula {
    /// `once(e)`: e was true at some instant so far.
    Once,
    /// `historically(e)`: e was true at each instant so far.
    Historically,
    /// `since(e1, e2)`: e2 was true at some instant so far, and e1 at each later one.
    Since,
}

impl Formula {
    fn word(self) -> &'static str
        ensures { result.now ≡ word self }
    {
        match self {
            Formula::Once => "once",
            Formula::Historically => "historically",
            Formula::Since => "since",
        }
    }
}

fn names_node(item: &Item, formula: Formula) -> bool
    ensures { result ≡ names_node item.now (word formula) }
{
    match item {
        Item::TypeItem(_) => false,
        Item::NodeItem(node) => node.name.bytes() == formula.word().as_bytes(),
    }
}

/// Whether a node has the name of the formula.
#[tactic(auto, using(crate::proofs::Rules::node_names))]
fn declares_node(items: &[Item], formula: Formula) -> bool
    ensures { result ≡ declares_node items.now (word formula) }
{
    for item in items {
        if names_node(item, formula) {
            return true;
        }
    }
    false
}

/// Which formulas there are: those whose name is not that of a node of the program.
#[derive(Clone, Copy, Debug)]
pub struct Formulas {
    pub once: bool,
    pub historically: bool,
    pub since: bool,
}

impl Formulas {
    pub fn of(items: &[Item]) -> Formulas
        ensures { result ≡ formulas_of items.now }
    {
        Formulas {
            once: !declares_node(items, Formula::Once),
            historically: !declares_node(items, Formula::Historically),
            since: !declares_node(items, Formula::Since),
        }
    }

    /// The formula that a call of this name may be.
    pub fn called(self, name: &Name) -> Option<Formula>
        ensures { result ≡ formula_of self name.now }
    {
        let name = name.bytes();
        if self.once && name == Formula::Once.word().as_bytes() {
            return Some(Formula::Once);
        }
        if self.historically && name == Formula::Historically.word().as_bytes() {
            return Some(Formula::Historically);
        }
        if self.since && name == Formula::Since.word().as_bytes() {
            return Some(Formula::Since);
        }
        None
    }
}
