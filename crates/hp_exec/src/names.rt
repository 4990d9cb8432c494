ghost use Rattle.std.specs.Prelude.{◌≡◌, ◌++◌, ◌∷◌, [], None, OnOk, ℕ, List};
ghost use Rattle.hp_exec.specs.Compiling.{place_of};
ghost use Rattle.hp_exec.specs.Naming.{names_in};

use hp_base::Name;
use indexmap::IndexSet;
use std::alloc::AllocError;

/// Adds a name behind the others, from which it differs.
pub fn add<'a>(names: &mut IndexSet<&'a [u8]>, name: &'a Name) -> Result<(), AllocError>
    requires { place_of (names_in names.old) name.now ≡ None }
    ensures { OnOk result (names_in names.new ≡ names_in names.old ++ name.now ∷ []) }
{
    names.insert(name.bytes())?;
    Ok(())
}

/// The place of a name.
pub fn find(names: &IndexSet<&[u8]>, name: &Name) -> Option<usize>
    ensures { result ≡ place_of (names_in names.now) name.now }
{
    names.get_index_of(name.bytes())
}
