//! The constructors of a program.
ghost use Rattle.std.specs.Prelude.{◌≡◌, IfOk, OnOk};
ghost use Rattle.hp_tables.specs.Declarations.Items.{constructors_of, number_or, with_constructors, with_item};
ghost use Rattle.hp_tables.specs.Declarations.Tables.{said_in};

use crate::declarations::table::Table;
use hp_base::Name;
use hp_tree::Item;
use std::alloc::{AllocError, Global};

/// The number, or the other one where there is none.
fn number_or(other: usize, number: Option<usize>) -> usize
    ensures { result ≡ number_or other number }
{
    match number {
        None => other,
        Some(number) => number,
    }
}

/// Adds the constructors of a type that has this number; of two of one name the one that is added later counts.
#[tactic(auto, using(crate::proofs::DeclarationsLemmas::Rules::tables))]
fn put_all<'a>(
    number: usize,
    cons: &'a [Name],
    found: &mut Table<'a, (usize, usize)>,
) -> Result<(), AllocError>
    ensures { OnOk result (said_in found.new ≡ with_constructors number 0 cons.now (said_in found.old)) }
{
    let mut i = cons.len();
    while i > 0 {
        i -= 1;
        found.put(cons[i].bytes(), (number, i))?;
    }
    Ok(())
}

fn put_item<'a>(
    types: &Table<'_, usize>,
    other: usize,
    item: &'a Item,
    found: &mut Table<'a, (usize, usize)>,
) -> Result<(), AllocError>
    ensures { OnOk result (said_in found.new ≡ with_item (said_in types.now) other item.now (said_in found.old)) }
{
    match item {
        Item::TypeItem(decl) => {
            let number = number_or(other, types.find(decl.name.bytes()));
            put_all(number, &decl.cons, found)
        }
        Item::NodeItem(_) => Ok(()),
    }
}

/// The constructors of the items: what the table has for the type, or else the other number, and the place among those of the type. Of two
/// of one name the first counts.
#[tactic(auto, using(crate::proofs::DeclarationsLemmas::Rules::tables))]
pub fn constructors_of<'a>(
    alloc: Global,
    types: &Table<'_, usize>,
    other: usize,
    items: &'a [Item],
) -> Result<Table<'a, (usize, usize)>, AllocError>
    ensures { IfOk result (λ found. said_in found ≡ constructors_of (said_in types.now) other items.now) }
{
    let mut found = Table::new(alloc);
    let mut i = items.len();
    while i > 0 {
        i -= 1;
        put_item(types, other, &items[i], &mut found)?;
    }
    Ok(found)
}
