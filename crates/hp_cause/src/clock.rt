//! The names of clocks.
ghost use Rattle.std.specs.Prelude.{◌≡◌, [], ◌∷◌, reverse, OnOk, IfOk};
ghost use Rattle.hp_tree.specs.Meaning.{clock_of};
ghost use Rattle.hp_tables.specs.Telling.Seen.{told_seen};
ghost use Rattle.hp_cause.specs.Clocks.{names_told};
ghost use Rattle.hp_cause.specs.Gathering.{names_of_clock};
ghost use Rattle.hp_cause.specs.Told.{names_seen, with_more};

use crate::table::Locals;
use hp_base::{Name, Span};
use hp_tables::telling::{Telling, told_by};
use hp_tree::{Cons, Expr};
use std::alloc::{AllocError, Global};

/// The names of a path, innermost first.
#[tactic(auto, using(crate::proofs::Rules::names))]
fn add_path<'a>(path: &'a [(Cons, Name)], into: &mut Vec<&'a [u8]>) -> Result<(), AllocError>
    ensures { OnOk result (names_seen into.new.items ≡ with_more (names_seen into.old.items) (names_of_clock (reverse path.now))) }
{
    let mut i = path.len();
    while i > 0 {
        i -= 1;
        let (_, name) = &path[i];
        into.push(name.bytes())?;
    }
    Ok(())
}

#[tactic(auto, using(crate::proofs::Rules::names))]
fn add_name<'a>(name: &'a [u8], into: &mut Vec<&'a [u8]>) -> Result<(), AllocError>
    ensures { OnOk result (names_seen into.new.items ≡ with_more (names_seen into.old.items) (name.now ∷ [])) }
{
    into.push(name)?;
    Ok(())
}

/// The names of a path with one step more.
#[tactic(auto, using(crate::proofs::Rules::names))]
fn add_step<'a>(
    name: &'a [u8],
    path: &'a [(Cons, Name)],
    into: &mut Vec<&'a [u8]>,
) -> Result<(), AllocError>
    ensures { OnOk result (names_seen into.new.items ≡ with_more (names_seen into.old.items) (name.now ∷ names_of_clock (reverse path.now))) }
{
    add_name(name, into)?;
    add_path(path, into)?;
    Ok(())
}

/// The names of the clock that is told.
#[tactic(auto, using(crate::proofs::Rules::names))]
fn add_told<'a>(
    locals: &Locals<'a>,
    telling: Option<Telling<'a>>,
    into: &mut Vec<&'a [u8]>,
) -> Result<(), AllocError>
    ensures { OnOk result (names_seen into.new.items ≡ with_more (names_seen into.old.items) (names_told locals.now.decls.now (told_seen telling.entry))) }
{
    match telling {
        None => Ok(()),
        Some(Telling::Base) => Ok(()),
        Some(Telling::Of(name)) => add_path(locals.path(name.bytes()), into),
        Some(Telling::On(_, name)) => add_step(name.bytes(), locals.path(name.bytes()), into),
    }
}

/// The names of the clock on which a definition stands, innermost first.
#[tactic(auto, using(crate::proofs::Rules::tellings))]
pub fn clock_names<'a>(
    alloc: Global,
    locals: &Locals<'a>,
    names: &'a [(Name, Span)],
    right: &'a Expr,
) -> Result<Vec<&'a [u8]>, AllocError>
    ensures { IfOk result (λ clock. names_seen clock.items ≡ names_of_clock (clock_of locals.now.decls.now names.now right.now)) }
{
    let mut clock = Vec::new(alloc);
    add_told(locals, told_by(names, right), &mut clock)?;
    Ok(clock)
}
