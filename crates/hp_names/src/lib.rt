//! The names of a program: each is declared, once in its scope, and known where it is used. Invariant: the refusal is the first breach in the text. Used by `hp_compile`; its specs by `hp_init`, `hp_drawing`, `hp_abstract`, `hp_driver` and the laws.
#![tactic(auto)]

ghost use Rattle.std.specs.Prelude.{◌≡◌, ◌↔◌, [], OnOk, IfOk, IfErr};
ghost use Rattle.hp_names.specs.Rules.{WellNamed};
ghost use Rattle.hp_names.specs.Claims.{claims};
ghost use Rattle.hp_names.specs.Breaches.{breaches, error_of, AreBreachesOf, NamesFirst};

mod blocks;
mod breach;
mod declarations;
mod error;
mod expressions;
mod names;
mod programs;
mod scope;

use breach::{Breach, Fault};
pub use error::NameErr;
use hp_tree::Program;
use programs::check_items;
use std::alloc::{AllocError, Global};

/// Whether the names of the program are well used, and else the first breach in the text.
#[tactic(auto, using(crate::proofs::Rules::laws))]
pub fn resolve(alloc: Global, p: &Program) -> Result<(), NameErr>
    ensures resolved { OnOk result (WellNamed p.now) }
    ensures refused { IfErr result (NamesFirst (breaches (claims p.now))) }
    ensures accepted { WellNamed p.now → IfErr result (λ e. e ≡ NameErr.OutOfMemory) }

    // The breaches of a program are what keeps it from being well named, and each is one of a rule.
    ensures complete { WellNamed p.now ↔ (breaches (claims p.now) ≡ []) }
    ensures sound { AreBreachesOf (claims p.now) (breaches (claims p.now)) }
{
    match check_items(alloc, &p.items)? {
        None => Ok(()),
        Some(breach) => Err(refusal(alloc, breach)?),
    }
}

/// What is said of the breach.
fn refusal<'a>(alloc: Global, breach: Breach<'a>) -> Result<NameErr, AllocError>
    ensures { IfOk result (λ error. error ≡ error_of breach.entry) }
{
    let name = breach.name.copy(alloc)?;
    let span = breach.at;
    match breach.fault {
        Fault::Unknown => Ok(NameErr::Unknown { name, span }),
        Fault::Twice => Ok(NameErr::Twice { name, span }),
    }
}
