//! The names that are declared around a place of a node.
ghost use Rattle.std.specs.Prelude.{ℕ, List, ◌≡◌, ◌≤◌, [], length, map, take, IfSome, IfOk, OnOk, ◌++◌, ◌∷◌, position};
ghost use Rattle.std.specs.Str.{bytes_eq};
ghost use Rattle.std.proofs.Props.{props};
ghost use Rattle.hp_tree.specs.Meaning.{names_of};
ghost use Rattle.hp_cause.specs.Around.{places_from, first_places};
ghost use Rattle.hp_cause.specs.Gathering.{in_list};
ghost use Rattle.hp_tables.specs.Defining.Names.{listed};
ghost use Rattle.hp_cause.specs.Told.{names_seen, with_more};

use hp_base::Name;
use hp_tree::Decl;
use indexmap::IndexSet;
use std::alloc::{AllocError, Global};

/// The names that are declared around, the outermost first.
#[derive(Drop)]
pub struct Around<'a> {
    pub names: Vec<&'a [u8]>,
    /// The same names, as long as no two of them are equal.
    set: Option<IndexSet<&'a [u8]>>,
    ghost same: { IfSome set (λ set. names_seen set.keys ≡ names_seen names.items) } by { Prim.hlevel props },
}

/// The set with one name more, where that is not one of it.
fn with_name<'a>(
    set: Option<IndexSet<&'a [u8]>>,
    name: &'a [u8],
) -> Result<Option<IndexSet<&'a [u8]>>, AllocError>
    ensures { (names : List (List ℕ)) → IfSome set.entry (λ few. names_seen few.keys ≡ names) → IfOk result (λ grown. IfSome grown (λ more. names_seen more.keys ≡ names ++ name.now ∷ [])) }
{
    let Some(mut set) = set else {
        return Ok(None);
    };
    let is_new = set.insert(name)?;
    if is_new { Ok(Some(set)) } else { Ok(None) }
}

impl<'a> Around<'a> {
    pub fn new(alloc: Global) -> Around<'a>
        ensures { result.names.items ≡ [] }
    {
        Around {
            names: Vec::new(alloc),
            set: Some(IndexSet::new(alloc)),
        }
    }

    pub fn len(&self) -> usize
        ensures { result ≡ length self.now.names.items }
    {
        self.names.len()
    }

    fn add(&mut self, name: &'a [u8]) -> Result<(), AllocError>
        ensures { OnOk result (names_seen self.new.names.items ≡ names_seen self.old.names.items ++ name.now ∷ []) }
    {
        let set = with_name(self.set.take(), name)?;
        self.names.push(name)?;
        self.set = set;
        Ok(())
    }

    /// Adds what is declared.
    #[tactic(auto, using(crate::proofs::Rules::around))]
    pub fn add_declared(&mut self, decls: &'a [Decl]) -> Result<(), AllocError>
        ensures { OnOk result (names_seen self.new.names.items ≡ with_more (names_seen self.old.names.items) (names_of decls.now)) }
    {
        for decl in decls {
            self.add(decl.name.bytes())?;
        }
        Ok(())
    }

    /// Keeps the first of the names.
    #[tactic(auto, using(crate::proofs::Rules::left))]
    pub fn forget(&mut self, count: usize)
        requires { count ≤ length self.now.names.items }
        ensures { names_seen self.new.names.items ≡ take count (names_seen self.old.names.items) }
    {
        let set = self.set.take();
        self.names.truncate(count);
        self.set = first_names(set, count);
    }

    /// The places of these names among those around, in order, or nothing where two names around are equal.
    pub fn places(&self, alloc: Global, names: &[&Name]) -> Result<Option<Vec<usize>>, AllocError>
        ensures { IfOk result (λ found. IfSome found (λ places. places.items ≡ places_from 0 (listed (names_seen names.now)) (names_seen self.now.names.items))) }
    {
        match &self.set {
            None => Ok(None),
            Some(set) => {
                let places = places_in(alloc, set, names)?;
                Ok(Some(places))
            }
        }
    }
}

/// The first names of the set.
#[tactic(auto, using(crate::proofs::Rules::left))]
fn first_names(set: Option<IndexSet<&[u8]>>, count: usize) -> Option<IndexSet<&[u8]>>
    ensures { (names : List (List ℕ)) → IfSome set.entry (λ all. names_seen all.keys ≡ names) → IfSome result (λ few. names_seen few.keys ≡ take count names) }
{
    let Some(mut set) = set else {
        return None;
    };
    set.truncate(count);
    Some(set)
}

/// The first place of each of the names that is in the set.
#[tactic(auto, using(crate::proofs::Rules::targeted))]
fn first_places(
    alloc: Global,
    set: &IndexSet<&[u8]>,
    names: &[&Name],
) -> Result<Vec<usize>, AllocError>
    ensures { IfOk result (λ places. places.items ≡ first_places (names_seen set.now.keys) (names_seen names.now)) }
{
    let mut places = Vec::new(alloc);
    for i in 0..names.len() {
        add_place(set, names[i].bytes(), &mut places)?;
    }
    Ok(places)
}

#[tactic(auto, using(crate::proofs::Rules::targeted))]
fn add_place(set: &IndexSet<&[u8]>, name: &[u8], into: &mut Vec<usize>) -> Result<(), AllocError>
    ensures { OnOk result (into.new.items ≡ with_more into.old.items (in_list (position (bytes_eq name.now) (names_seen set.now.keys)))) }
{
    if let Some(place) = set.get_index_of(name) {
        into.push(place)?;
    }
    Ok(())
}

/// The places of the names that are in the set, in order.
fn places_in(
    alloc: Global,
    set: &IndexSet<&[u8]>,
    names: &[&Name],
) -> Result<Vec<usize>, AllocError>
    ensures { IfOk result (λ places. places.items ≡ places_from 0 (listed (names_seen names.now)) (names_seen set.now.keys)) }
{
    let _count = set.len();
    let mut places = first_places(alloc, set, names)?;
    places.sort_unstable();
    places.dedup();
    Ok(places)
}
