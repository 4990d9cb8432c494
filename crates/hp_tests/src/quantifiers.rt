//! Quantifiers, composition, imported lines and sweeps.
ghost use Rattle.std.specs.Prelude.{OnOk};
ghost use Rattle.hp_quant.specs.Sweeps.{HasRoots};

use hp_diagram::{Branch, Ref, Table, one, zero};
use hp_quant::{
    Line, all_marked, compose, compose_all, either_marked, exists, forall, implies, import,
    some_marked, sweep,
};
use slab::Slab;
use std::alloc::Global;
use std::process::Abort;
use std::test::Fail;

fn var(rt: &impl Abort, t: &mut Table, v: u16) -> Result<Ref, Fail> {
    assert!(rt; v < t.vars());
    Ok(t.var(v)?)
}

fn ite(rt: &impl Abort, t: &mut Table, f: Ref, g: Ref, h: Ref) -> Result<Ref, Fail> {
    assert!(rt; t.has(f));
    assert!(rt; t.has(g));
    assert!(rt; t.has(h));
    Ok(t.ite(f, g, h)?)
}

fn kept(rt: &impl Abort, t: &Table, f: Ref, g: Ref, h: Ref) -> Option<Ref> {
    assert!(rt; t.has(f));
    assert!(rt; t.has(g));
    assert!(rt; t.has(h));
    t.cached(f, g, h)
}

fn quantified(
    alloc: Global,
    rt: &impl Abort,
    t: &mut Table,
    all: bool,
    f: Ref,
) -> Result<Ref, Fail> {
    assert!(rt; t.has(f));
    assert!(rt; 2 <= t.vars());
    if all {
        Ok(forall(alloc, t, f, 1, 2)?)
    } else {
        Ok(exists(alloc, t, f, 1, 2)?)
    }
}

/// `f` with x0 and x1 exchanged.
fn exchanged(
    alloc: Global,
    rt: &impl Abort,
    t: &mut Table,
    f: Ref,
    x0: Ref,
    x1: Ref,
) -> Result<Ref, Fail> {
    assert!(rt; t.has(f));
    assert!(rt; t.has(x0));
    assert!(rt; t.has(x1));
    assert!(rt; t.vars() == 2);
    Ok(compose(alloc, t, f, &[Some(x1), Some(x0)])?)
}

fn check_passes(alloc: Global, rt: &impl Abort, t: &mut Table) -> Result<(), Fail> {
    let x0 = var(rt, t, 0)?;
    let x1 = var(rt, t, 1)?;
    let both = ite(rt, t, x0, x1, zero())?;
    let either = ite(rt, t, x0, one(), x1)?;
    assert_eq!(rt; quantified(alloc, rt, t, false, both)?, x0, "exists");
    assert_eq!(rt; quantified(alloc, rt, t, true, either)?, x0, "forall");
    Ok(())
}

fn check_exchange(alloc: Global, rt: &impl Abort, t: &mut Table) -> Result<(), Fail> {
    let x0 = var(rt, t, 0)?;
    let x1 = var(rt, t, 1)?;
    let only_x0 = ite(rt, t, x1, zero(), x0)?;
    let only_x1 = ite(rt, t, x0, zero(), x1)?;
    assert_eq!(rt; exchanged(alloc, rt, t, only_x0, x0, x1)?, only_x1);
    Ok(())
}

#[test]
fn passes_give_the_named_functions(rt: HostRuntime) -> Result<(), Fail> {
    let mut t = Table::new(rt.alloc(), 2)?;
    check_passes(rt.alloc(), &rt, &mut t)?;
    check_exchange(rt.alloc(), &rt, &mut t)
}

/// Some values of the marked ones of three variables make the function true, or all values.
fn marked(
    alloc: Global,
    rt: &impl Abort,
    t: &mut Table,
    all: bool,
    f: Ref,
    of: [bool; 3],
) -> Result<Ref, Fail> {
    assert!(rt; t.has(f));
    assert!(rt; 3 <= t.vars());
    if all {
        Ok(all_marked(alloc, t, f, &of)?)
    } else {
        Ok(some_marked(alloc, t, f, &of)?)
    }
}

/// Some x1 makes one of the two true.
fn either_of(alloc: Global, rt: &impl Abort, t: &mut Table, f: Ref, g: Ref) -> Result<Ref, Fail> {
    assert!(rt; t.has(f));
    assert!(rt; t.has(g));
    assert!(rt; 3 <= t.vars());
    Ok(either_marked(alloc, t, f, g, &[false, true, false])?)
}

/// For some x0 and all x1 some x2 makes the function true.
fn in_turn(alloc: Global, rt: &impl Abort, t: &mut Table, f: Ref) -> Result<Ref, Fail> {
    let some = marked(alloc, rt, t, false, f, [false, false, true])?;
    let all = marked(alloc, rt, t, true, some, [false, true, false])?;
    marked(alloc, rt, t, false, all, [true, false, false])
}

fn follows(alloc: Global, rt: &impl Abort, t: &Table, f: Ref, g: Ref) -> Result<bool, Fail> {
    assert!(rt; t.has(f));
    assert!(rt; t.has(g));
    Ok(implies(alloc, t, f, g)?)
}

/// x0 and x1 differ.
fn differ(rt: &impl Abort, t: &mut Table, x0: Ref, x1: Ref) -> Result<Ref, Fail> {
    let other = ite(rt, t, x1, zero(), one())?;
    ite(rt, t, x0, other, x1)
}

/// x0 and x2 are marked, between which x1 stands.
fn check_marked(alloc: Global, rt: &impl Abort, t: &mut Table) -> Result<(), Fail> {
    let x0 = var(rt, t, 0)?;
    let x1 = var(rt, t, 1)?;
    let x2 = var(rt, t, 2)?;
    let both = ite(rt, t, x0, x2, zero())?;
    let all = ite(rt, t, x1, both, zero())?;
    let one_of = ite(rt, t, x0, one(), x2)?;
    let some = ite(rt, t, x1, one(), one_of)?;
    let ends = [true, false, true];
    assert_eq!(rt; marked(alloc, rt, t, false, all, ends)?, x1, "some_marked");
    assert_eq!(rt; marked(alloc, rt, t, true, some, ends)?, x1, "all_marked");
    Ok(())
}

fn check_joined(alloc: Global, rt: &impl Abort, t: &mut Table) -> Result<(), Fail> {
    let x0 = var(rt, t, 0)?;
    let x1 = var(rt, t, 1)?;
    let x2 = var(rt, t, 2)?;
    let f = ite(rt, t, x0, x1, zero())?;
    let g = ite(rt, t, x1, zero(), x2)?;
    let one_of = ite(rt, t, x0, one(), x2)?;
    assert_eq!(rt; either_of(alloc, rt, t, f, g)?, one_of, "either_marked");
    Ok(())
}

/// A later choice may look at what comes before it, an earlier one may not.
fn check_turns(alloc: Global, rt: &impl Abort, t: &mut Table) -> Result<(), Fail> {
    let x0 = var(rt, t, 0)?;
    let x1 = var(rt, t, 1)?;
    let x2 = var(rt, t, 2)?;
    let early = differ(rt, t, x0, x1)?;
    let late = differ(rt, t, x1, x2)?;
    assert_eq!(rt; in_turn(alloc, rt, t, early)?, zero());
    assert_eq!(rt; in_turn(alloc, rt, t, late)?, one());
    Ok(())
}

fn check_implied(alloc: Global, rt: &impl Abort, t: &mut Table) -> Result<(), Fail> {
    let x0 = var(rt, t, 0)?;
    let x1 = var(rt, t, 1)?;
    let both = ite(rt, t, x0, x1, zero())?;
    let nodes = t.len();
    assert!(rt; follows(alloc, rt, t, both, x1)?);
    assert!(rt; !follows(alloc, rt, t, x1, both)?);
    assert_eq!(rt; t.len(), nodes);
    Ok(())
}

#[test]
fn joined_passes_give_the_named_functions(rt: HostRuntime) -> Result<(), Fail> {
    let mut t = Table::new(rt.alloc(), 3)?;
    check_marked(rt.alloc(), &rt, &mut t)?;
    check_joined(rt.alloc(), &rt, &mut t)?;
    check_turns(rt.alloc(), &rt, &mut t)?;
    check_implied(rt.alloc(), &rt, &mut t)
}

/// The functions with x0 and x1 exchanged.
fn all_exchanged(
    alloc: Global,
    rt: &impl Abort,
    t: &mut Table,
    refs: &[Ref; 2],
) -> Result<Vec<Ref>, Fail> {
    assert!(rt; t.has(refs[0]));
    assert!(rt; t.has(refs[1]));
    assert!(rt; t.vars() == 2);
    Ok(compose_all(alloc, t, refs, &[Some(refs[1]), Some(refs[0])])?)
}

#[test]
fn functions_are_replaced_in_each(rt: HostRuntime) -> Result<(), Fail> {
    let mut t = Table::new(rt.alloc(), 2)?;
    let x0 = var(&rt, &mut t, 0)?;
    let x1 = var(&rt, &mut t, 1)?;
    let made = all_exchanged(rt.alloc(), &rt, &mut t, &[x0, x1])?;
    assert_eq!(rt; made.as_slice(), [x1, x0].as_slice());
    Ok(())
}

/// The second line has equal sides, and the third reads a variable before the first.
fn check_lines(alloc: Global, rt: &impl Abort, t: &mut Table) -> Result<(), Fail> {
    let x0 = var(rt, t, 0)?;
    let x1 = var(rt, t, 1)?;
    let both = ite(rt, t, x0, x1, zero())?;
    assert!(rt; t.vars() == 2);
    let lines = [
        Line {
            var: 0,
            low: 0,
            high: 1,
        },
        Line {
            var: 1,
            low: 2,
            high: 2,
        },
        Line {
            var: 1,
            low: 0,
            high: 3,
        },
    ];
    let refs = import(alloc, t, &lines)?;
    assert_eq!(rt; refs.as_slice(), [x0, x0, both].as_slice());
    Ok(())
}

#[test]
fn lines_need_no_order(rt: HostRuntime) -> Result<(), Fail> {
    let mut t = Table::new(rt.alloc(), 2)?;
    check_lines(rt.alloc(), &rt, &mut t)
}

fn add_root(rt: &impl Abort, t: &Table, roots: &mut Slab<Ref>, r: Ref) -> Result<usize, Fail>
    requires { HasRoots t.now roots.old }
    ensures { OnOk result (HasRoots t.now roots.new) }
{
    assert!(rt; t.has(r));
    Ok(roots.insert(r)?)
}

/// The conjunction of the variables from the first on.
fn conjunction(rt: &impl Abort, t: &mut Table) -> Result<Ref, Fail> {
    let mut all = one();
    for v in (0..t.vars()).rev() {
        let x = var(rt, t, v)?;
        all = ite(rt, t, x, all, zero())?;
    }
    Ok(all)
}

fn root_at(roots: &Slab<Ref>, key: usize) -> Result<Ref, Fail> {
    Ok(*roots.get(key).ok_or("the root has no key")?)
}

fn add_roots(
    rt: &impl Abort,
    t: &Table,
    roots: &mut Slab<Ref>,
    refs: &[Ref; 3],
) -> Result<[usize; 3], Fail>
    requires { HasRoots t.now roots.old }
    ensures { OnOk result (HasRoots t.now roots.new) }
{
    let first = add_root(rt, t, roots, refs[0])?;
    let second = add_root(rt, t, roots, refs[1])?;
    let third = add_root(rt, t, roots, refs[2])?;
    Ok([first, second, third])
}

/// What the roots are after a sweep with these.
fn swept(alloc: Global, rt: &impl Abort, t: &mut Table, refs: &[Ref; 3]) -> Result<[Ref; 3], Fail> {
    let mut roots = Slab::new(alloc);
    let [first, second, third] = add_roots(rt, t, &mut roots, refs)?;
    sweep(alloc, t, &mut roots)?;
    Ok([
        root_at(&roots, first)?,
        root_at(&roots, second)?,
        root_at(&roots, third)?,
    ])
}

fn check_what_is_left(alloc: Global, rt: &impl Abort, t: &mut Table) -> Result<(), Fail> {
    conjunction(rt, t)?;
    let x0 = var(rt, t, 0)?;
    let [root, _, _] = swept(alloc, rt, t, &[x0, x0, x0])?;
    assert!(rt; t.has(root));
    assert_eq!(rt;
        t.branch(root),
        Some(Branch {
            var: 0,
            low: zero(),
            high: one()
        })
    );
    assert!(rt; t.has(Ref { index: 2 }));
    assert!(rt; !t.has(Ref { index: 3 }));
    Ok(())
}

#[test]
fn a_sweep_keeps_what_the_roots_reach(rt: HostRuntime) -> Result<(), Fail> {
    let mut t = Table::new(rt.alloc(), 1000)?;
    check_what_is_left(rt.alloc(), &rt, &mut t)
}

fn check_cache(alloc: Global, rt: &impl Abort, t: &mut Table) -> Result<(), Fail> {
    let x0 = var(rt, t, 0)?;
    let x1 = var(rt, t, 1)?;
    let x2 = var(rt, t, 2)?;
    let choice = ite(rt, t, x0, x1, x2)?;
    let both = ite(rt, t, x0, x1, zero())?;
    assert_eq!(rt; kept(rt, t, x0, x1, x2), Some(choice));
    assert_eq!(rt; kept(rt, t, x0, x1, zero()), Some(both));
    let [y0, y1, y2] = swept(alloc, rt, t, &[x0, x1, x2])?;
    assert_eq!(rt; kept(rt, t, y0, y1, y2), None);
    Ok(())
}

#[test]
fn a_sweep_empties_the_cache(rt: HostRuntime) -> Result<(), Fail> {
    let mut t = Table::new(rt.alloc(), 3)?;
    check_cache(rt.alloc(), &rt, &mut t)
}
