//! How names are spelled.
ghost use Rattle.std.specs.Prelude.{◌≡◌};
ghost use Rattle.hp_obc.specs.Form.{is_name, is_constructor};

use hp_base::Name;
use hp_obc::spelling::{spells_constructor, spells_name};

/// Whether this names a type, a machine, a variable, a memory or an instance.
pub fn is_name(name: &Name) -> bool
    ensures { result ≡ is_name name.now }
{
    spells_name(name.bytes())
}

/// Whether this names a constructor.
pub fn is_constructor(name: &Name) -> bool
    ensures { result ≡ is_constructor name.now }
{
    spells_constructor(name.bytes())
}
