//! Some names, each once.
ghost use Rattle.std.specs.Prelude.{◌≡◌, ◌+◌, [], ◌∷◌, if◌then◌else◌, IfOk, OnOk};
ghost use Rattle.hp_automata.specs.Names.{is_name, missing, with_name, once};
ghost use Rattle.hp_automata.specs.Lists.{names_seen, paired, with_more};

use hp_base::Name;
use hp_base::known::Known;
use std::alloc::{AllocError, Global};

/// Some names, each once, in the order in which they came.
#[derive(Drop)]
pub struct Names<'a> {
    pub names: Vec<&'a Name>,
    known: Known<'a, Name>,
    ghost tied: { known ≡ paired (names_seen names.items) },
}

/// Adds the name, if it is none of these.
#[tactic(auto, using(crate::proofs::Rules::once))]
fn add_once<'a>(
    known: &mut Known<'a, Name>,
    names: &mut Vec<&'a Name>,
    name: &'a Name,
) -> Result<(), AllocError>
    requires { known.old ≡ paired (names_seen names.old.items) }
    ensures tied { OnOk result (known.new ≡ paired (names_seen names.new.items)) }
    ensures names { OnOk result (names_seen names.new.items ≡ with_name (names_seen names.old.items) name.now) }
{
    if known.has(name) {
        return Ok(());
    }
    known.add(name, name)?;
    names.push(name)?;
    Ok(())
}

impl<'a> Names<'a> {
    /// Whether it is one of them.
    #[tactic(auto, using(crate::proofs::Rules::once))]
    pub fn has(&self, name: &Name) -> bool
        ensures { result ≡ is_name (names_seen self.now.names.items) name.now }
    {
        self.known.has(name)
    }

    /// Each of the names, once.
    #[tactic(auto, using(crate::proofs::Rules::once))]
    pub fn once(alloc: Global, names: &[&'a Name]) -> Result<Names<'a>, AllocError>
        ensures names { IfOk result (λ found. names_seen found.names.items ≡ once (names_seen names.now)) }
        ensures known { IfOk result (λ found. is_name (names_seen found.names.items) ≡ is_name (names_seen names.now)) }
    {
        let mut known = Known::new(alloc);
        let mut found = Vec::new(alloc);
        for i in 0..names.len() {
            add_once(&mut known, &mut found, names[i])?;
        }
        Ok(Names {
            names: found,
            known,
        })
    }
}

/// Adds the name behind the others.
#[tactic(auto, using(crate::proofs::Rules::names))]
pub fn push_name<'a>(names: &mut Vec<&'a Name>, name: &'a Name) -> Result<(), AllocError>
    ensures { OnOk result (names_seen names.new.items ≡ with_more (names_seen names.old.items) (name.now ∷ [])) }
{
    names.push(name)?;
    Ok(())
}

/// Adds the name, if it is none of the others.
#[tactic(auto, using(crate::proofs::Rules::names))]
fn add_if_missing<'a>(
    own: &Names<'_>,
    name: &'a Name,
    into: &mut Vec<&'a Name>,
) -> Result<(), AllocError>
    ensures { OnOk result (names_seen into.new.items ≡ (if is_name (names_seen own.now.names.items) name.now then names_seen into.old.items else with_more (names_seen into.old.items) (name.now ∷ []))) }
{
    if own.has(name) {
        return Ok(());
    }
    push_name(into, name)
}

/// Adds those of the names that are none of the others.
#[tactic(auto, using(crate::proofs::Rules::names))]
pub fn add_missing<'a>(
    own: &Names<'_>,
    names: &[&'a Name],
    into: &mut Vec<&'a Name>,
) -> Result<(), AllocError>
    ensures { OnOk result (names_seen into.new.items ≡ with_more (names_seen into.old.items) (missing (is_name (names_seen own.now.names.items)) (names_seen names.now))) }
{
    for i in 0..names.len() {
        add_if_missing(own, names[i], into)?;
    }
    Ok(())
}
