//! The constructors that a `switch` or a `merge` names.
ghost use Rattle.std.specs.Prelude.{◌≡◌, [], ◌∷◌, ℕ, nat_eq, count_by, map, IfOk};
ghost use Rattle.hp_tree.specs.BlockView.{arm_seen};
ghost use Rattle.hp_tree.specs.Blocks.{arms_of};
ghost use Rattle.hp_tree.specs.Expressions.{parts_of};
ghost use Rattle.hp_typing.specs.Definitions.{same_cons};
ghost use Rattle.hp_typing.specs.Definedness.{conses_of_parts, conses_of_arms, in_constructors};
ghost use Rattle.hp_typing.specs.Claims.{stands_once};
ghost use Rattle.hp_typing.specs.Seen.{kind_told, cons_seen, conses_seen, conses_told};
ghost use Rattle.hp_typing.specs.Types.{constructors_of};
ghost use Rattle.hp_typing.specs.Breaches.{found_after};

use crate::breach::{Breach, Fault};
use crate::kind::{Constructor, Kind};
use crate::scope::Scope;
use hp_base::first::note;
use hp_base::{Name, Span};
use hp_tree::{Arm, Cons, Expr};
use std::alloc::{AllocError, Global};

/// The constructors of the arms of a `switch`.
#[tactic(auto, using(crate::proofs::Rules::conses))]
pub fn conses_of_arms<'a>(alloc: Global, arms: &'a [Arm]) -> Result<Vec<&'a Cons>, AllocError>
    ensures { IfOk result (λ conses. conses_told conses.items ≡ conses_of_arms (arms_of (map arm_seen arms.now))) }
{
    let mut conses = Vec::new(alloc);
    for arm in arms {
        conses.push(&arm.cons)?;
    }
    Ok(conses)
}

/// The constructors of the parts of a `merge`.
#[tactic(auto, using(crate::proofs::Rules::conses))]
pub fn conses_of_parts<'a>(
    alloc: Global,
    parts: &'a [(Cons, Expr)],
) -> Result<Vec<&'a Cons>, AllocError>
    ensures { IfOk result (λ conses. conses_told conses.items ≡ conses_of_parts (parts_of parts.now)) }
{
    let mut conses = Vec::new(alloc);
    for (cons, _) in parts {
        conses.push(cons)?;
    }
    Ok(conses)
}

/// How often the constructor stands among some.
#[tactic(auto, using(crate::proofs::Rules::conses))]
fn times<'a>(constructor: Constructor<'a>, given: &[&'a Cons]) -> usize
    ensures { result ≡ count_by (same_cons (cons_seen constructor.entry)) (conses_told given.now) }
{
    given.iter().filter(|cons| constructor.is(*cons)).count()
}

/// The constructor has to stand once among those that are named at the place.
#[tactic(auto, using(crate::proofs::Rules::found), unfolding(crate::specs::Breaches::found_after))]
fn check_constructor<'a>(
    at: Span,
    constructor: Constructor<'a>,
    given: &[&'a Cons],
    found: &mut Option<Breach<'a>>,
)
    ensures { found.new ≡ found_after found.old (stands_once at (cons_seen constructor.entry) (conses_told given.now) ∷ []) }
{
    if times(constructor, given) != 1 {
        let fault = Fault::NotOnce(constructor);
        note(found, Breach { at, fault });
    }
}

#[tactic(auto, using(crate::proofs::Rules::found_in_constructors))]
fn check_names<'a>(at: Span, names: &'a [Name], given: &[&'a Cons], found: &mut Option<Breach<'a>>)
    ensures { found.new ≡ found_after found.old (in_constructors at (conses_seen names.now) (conses_told given.now)) }
{
    for name in names {
        check_constructor(at, Constructor::Named(name), given, found);
    }
}

/// Each constructor of the type has to stand once among those that are named at the place.
#[tactic(auto, using(crate::proofs::Rules::found))]
pub fn check_constructors<'a>(
    scope: &Scope<'a>,
    at: Span,
    is: Option<Kind<'a>>,
    given: &[&'a Cons],
    found: &mut Option<Breach<'a>>,
)
    ensures { found.new ≡ found_after found.old (in_constructors at (constructors_of scope.now (kind_told is.entry)) (conses_told given.now)) }
{
    match is {
        None => {}
        Some(Kind::Int) => {}
        Some(Kind::Bool) => {
            check_constructor(at, Constructor::False, given, found);
            check_constructor(at, Constructor::True, given, found);
        }
        Some(Kind::Enum(name)) => match scope.types.get(name) {
            None => {}
            Some(ty) => check_names(at, &ty.cons, given, found),
        },
    }
}
