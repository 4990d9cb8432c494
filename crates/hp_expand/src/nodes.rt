ghost use Rattle.std.specs.Prelude.{◌≡◌, ℕ, List, length, true};
ghost use Rattle.hp_expand.specs.Places.{is_below, place_of};

use hp_tree::Item;
use indexmap::IndexMap;

/// The items so far, their inlined calls replaced.
#[derive(Drop)]
pub struct Nodes<'a> {
    pub items: Vec<Item>,
    pub names: IndexMap<&'a [u8], usize>,
    ghost within: { (x : List ℕ) → is_below (length items.items) (place_of names x) ≡ true },
}
