//! The types of a program, as those of machines.
ghost use Rattle.std.specs.Prelude.{◌≡◌, ◌++◌, ◌∷◌, [], IfOk, OnOk};
ghost use Rattle.law_equations.specs.Made.Types.{obc_type_of, obc_types_of};

use hp_base::copy_names;
use hp_obc::ObcType;
use hp_tree::{Item, TypeDecl};
use std::alloc::{AllocError, Global};

fn obc_type(alloc: Global, decl: &TypeDecl) -> Result<ObcType, AllocError>
    ensures { IfOk result (λ t. t ≡ obc_type_of decl.now) }
{
    Ok(ObcType {
        name: decl.name.copy(alloc)?,
        cons: copy_names(alloc, &decl.cons)?,
    })
}

/// Adds the type that an item declares, if it declares one.
fn add_type(alloc: Global, item: &Item, types: &mut Vec<ObcType>) -> Result<(), AllocError>
    ensures { OnOk result (types.new.items ≡ types.old.items ++ obc_types_of (item.now ∷ [])) }
{
    if let Item::TypeItem(decl) = item {
        types.push(obc_type(alloc, decl)?)?;
    }
    Ok(())
}

/// The types that items declare, in order.
pub fn obc_types(alloc: Global, items: &[Item]) -> Result<Vec<ObcType>, AllocError>
    ensures { IfOk result (λ types. types.items ≡ obc_types_of items.now) }
{
    let mut types = Vec::new(alloc);
    for item in items {
        add_type(alloc, item, &mut types)?;
    }
    Ok(types)
}
