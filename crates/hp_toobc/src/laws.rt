//! What the commands of equations do.
ghost use Rattle.hp_toobc.specs.Labels.{NamesDiffer};
ghost use Rattle.hp_toobc.specs.Stepping.{UnderLaw};

use hp_flat::Variable;
use hp_obc::ObcType;

/// Commands under a clock are done where it holds.
pub fn clocks_are_followed(types: &[ObcType], variables: &[Variable])
    ensures { UnderLaw types.now variables.now }
{
    let _variables = (types.len(), variables.len());
}

/// The names of memories and instances of equations at different places differ.
pub fn names_differ()
    ensures { NamesDiffer }
{}
