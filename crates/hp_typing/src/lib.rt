//! The types of a program, and the definitions of its names. Invariant: an accepted program has one type for each expression and one equation for each name; the refusal is the first breach. Used by `hp_compile`; its specs by `hp_driver` and the laws.
#![tactic(auto)]

ghost use Rattle.std.specs.Prelude.{◌≡◌, ◌↔◌, [], All, OnOk, IfOk, IfErr};
ghost use Rattle.hp_typing.specs.Rules.{WellTyped};
ghost use Rattle.hp_typing.specs.DefinitionRules.{WellDefined};
ghost use Rattle.hp_typing.specs.Definedness.{definition_claims};
ghost use Rattle.hp_typing.specs.Claims.{claims};
ghost use Rattle.hp_typing.specs.Breaches.{breaches, or_else, text_of, error_of, AreBreachesOf, IsTwiceUsed, IsTwiceFirst, NamesFirst};
ghost use Rattle.hp_typing.specs.Seen.{shape_seen, cons_seen};

mod blocks;
mod breach;
mod constructors;
mod declarations;
mod defined;
mod definitions;
mod error;
mod expressions;
mod kind;
mod merges;
mod programs;
mod scope;
mod uses;

use breach::{Breach, Fault};
use defined::check_definitions;
pub use error::{Is, TypeErr};
use hp_base::Name;
use hp_tree::Program;
use kind::{Constructor, Kind, Shape};
use programs::check_items;
use std::alloc::{AllocError, Global};

/// Whether the types of the program agree and its names are well defined, and else the first wrong type in the text, or where there
/// is none the first wrong definition.
#[tactic(auto, using(crate::proofs::Rules::laws))]
pub fn check_types(alloc: Global, p: &Program) -> Result<(), TypeErr>
    ensures agree { OnOk result (WellTyped p.now) }
    ensures defined { OnOk result (WellDefined p.now) }
    ensures refused { IfErr result (NamesFirst (or_else (breaches (claims p.now)) (breaches (definition_claims p.now)))) }
    ensures accepted { WellTyped p.now → WellDefined p.now → IfErr result (λ e. e ≡ TypeErr.OutOfMemory) }

    // The breaches of a program are what keeps its types from agreeing or its names from being well defined, and each is one of a
    // rule.
    ensures complete { WellTyped p.now ↔ (breaches (claims p.now) ≡ []) }
    ensures complete_definitions { WellDefined p.now ↔ (breaches (definition_claims p.now) ≡ []) }
    ensures sound { AreBreachesOf (claims p.now) (breaches (claims p.now)) }
    ensures sound_definitions { AreBreachesOf (definition_claims p.now) (breaches (definition_claims p.now)) }

    // That a name is defined twice is found wherever it is so, and it comes before all else that is wrong of the name.
    ensures twice_used { All IsTwiceUsed (definition_claims p.now) }
    ensures twice_first { All IsTwiceFirst (definition_claims p.now) }
{
    match check_items(alloc, &p.items)? {
        None => match check_definitions(alloc, &p.items)? {
            None => Ok(()),
            Some(breach) => Err(refusal(alloc, breach)?),
        },
        Some(breach) => Err(refusal(alloc, breach)?),
    }
}

/// What is said of the breach.
fn refusal<'a>(alloc: Global, breach: Breach<'a>) -> Result<TypeErr, AllocError>
    ensures { IfOk result (λ error. error ≡ error_of breach.entry) }
{
    let span = breach.at;
    match breach.fault {
        Fault::Wrong(wanted, found) => {
            let wanted = told(alloc, wanted)?;
            let found = told(alloc, found)?;
            Ok(TypeErr::Wrong {
                span,
                wanted,
                found,
            })
        }
        Fault::Undefined(name) => Ok(TypeErr::Undefined {
            name: name.copy(alloc)?,
            span,
        }),
        Fault::Twice(name) => Ok(TypeErr::Twice {
            name: name.copy(alloc)?,
            span,
        }),
        Fault::Branch(name) => Ok(TypeErr::Branch {
            name: name.copy(alloc)?,
            span,
        }),
        Fault::NotOnce(constructor) => Ok(TypeErr::Branch {
            name: name_of(alloc, constructor)?,
            span,
        }),
    }
}

/// The constructor as it is written.
fn name_of<'a>(alloc: Global, constructor: Constructor<'a>) -> Result<Name, AllocError>
    ensures { IfOk result (λ name. name ≡ text_of (cons_seen constructor.entry)) }
{
    match constructor {
        Constructor::False => Name::new(alloc, b"false"),
        Constructor::True => Name::new(alloc, b"true"),
        Constructor::Named(name) => name.copy(alloc),
    }
}

/// What is wanted or found, with a name of its own.
fn told<'a>(alloc: Global, shape: Shape<'a>) -> Result<Is, AllocError>
    ensures { IfOk result (λ is. is ≡ shape_seen shape.entry) }
{
    match shape {
        Shape::Type(Kind::Bool) => Ok(Is::Bool),
        Shape::Type(Kind::Int) => Ok(Is::Int),
        Shape::Type(Kind::Enum(name)) => Ok(Is::Enum(name.copy(alloc)?)),
        Shape::Row(count) => Ok(Is::Row(count)),
    }
}
