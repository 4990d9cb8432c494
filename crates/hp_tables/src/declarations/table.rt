//! Tables of names.
ghost use Rattle.std.specs.Prelude.{◌≡◌, map, IfOk, OnOk};
ghost use Rattle.hp_tables.specs.Declarations.Tables.{nothing, numbered, put_at, said_in};

use hp_base::Name;
use indexmap::IndexMap;
use std::alloc::{AllocError, Global};

/// What names stand for, where they stand for anything. A name has what was put last.
#[derive(Drop)]
pub struct Table<'a, T: Drop> {
    pub entries: IndexMap<&'a [u8], T>,
}

impl<'a, T: Copy + Drop> Table<'a, T> {
    pub fn new(alloc: Global) -> Table<'a, T>
        ensures { said_in result ≡ nothing }
    {
        Table {
            entries: IndexMap::new(alloc),
        }
    }

    pub fn put(&mut self, name: &'a [u8], value: T) -> Result<(), AllocError>
        ensures { OnOk result (said_in self.new ≡ put_at (said_in self.old) name.now value) }
    {
        self.entries.insert(name, value)?;
        Ok(())
    }

    /// What the name stands for.
    pub fn find(&self, name: &[u8]) -> Option<T>
        ensures { result ≡ said_in self.now name.now }
    {
        match self.entries.get(name) {
            None => None,
            Some(value) => Some(*value),
        }
    }
}

/// Numbers the names from 0 on; of two equal ones the first counts.
pub fn numbers_of<'a>(alloc: Global, names: &[&'a Name]) -> Result<Table<'a, usize>, AllocError>
    ensures { IfOk result (λ numbers. said_in numbers ≡ numbered 0 (map (λ x. x.now) names.now)) }
{
    let mut numbers = Table::new(alloc);
    let mut i = names.len();
    while i > 0 {
        i -= 1;
        numbers.put(names[i].bytes(), i)?;
    }
    Ok(numbers)
}
