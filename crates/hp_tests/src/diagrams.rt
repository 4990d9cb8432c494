//! Decision diagrams.
use hp_diagram::{Branch, Ref, Table, one, zero};
use std::process::Abort;
use std::test::Fail;

#[derive(Clone, Copy)]
enum Step {
    Var(u16),
    Not(Ref),
    And(Ref, Ref),
    Or(Ref, Ref),
    Ite(Ref, Ref, Ref),
}

fn build(rt: &impl Abort, t: &mut Table, step: Step) -> Result<Ref, Fail> {
    let r = match step {
        Step::Var(v) => {
            assert!(rt; v < t.vars());
            t.var(v)?
        }
        Step::Not(f) => {
            assert!(rt; t.has(f));
            t.not(f)?
        }
        Step::And(f, g) => {
            assert!(rt; t.has(f));
            assert!(rt; t.has(g));
            t.and(f, g)?
        }
        Step::Or(f, g) => {
            assert!(rt; t.has(f));
            assert!(rt; t.has(g));
            t.or(f, g)?
        }
        Step::Ite(f, g, h) => {
            assert!(rt; t.has(f));
            assert!(rt; t.has(g));
            assert!(rt; t.has(h));
            t.ite(f, g, h)?
        }
    };
    Ok(r)
}

fn is_same(rt: &impl Abort, t: &Table, a: Ref, b: Ref) -> bool {
    assert!(rt; t.has(a));
    assert!(rt; t.has(b));
    t.same(a, b)
}

fn kept(rt: &impl Abort, t: &Table, f: Ref, g: Ref, h: Ref) -> Option<Ref> {
    assert!(rt; t.has(f));
    assert!(rt; t.has(g));
    assert!(rt; t.has(h));
    t.cached(f, g, h)
}

fn value_at(rt: &impl Abort, t: &Table, r: Ref, values: &[bool]) -> bool {
    assert!(rt; t.has(r));
    assert!(rt; usize::from(t.vars()) <= values.len());
    t.value(r, values)
}

/// The variables x0 and x1, and "x0 and x1".
fn variables(rt: &impl Abort, t: &mut Table) -> Result<[Ref; 3], Fail> {
    let x0 = build(rt, t, Step::Var(0))?;
    let x1 = build(rt, t, Step::Var(1))?;
    let both = build(rt, t, Step::And(x0, x1))?;
    Ok([x0, x1, both])
}

fn check_equal_functions(rt: &impl Abort, t: &mut Table) -> Result<(), Fail> {
    let [x0, x1, both] = variables(rt, t)?;
    let not_x0 = build(rt, t, Step::Not(x0))?;
    let neither = build(rt, t, Step::And(x0, not_x0))?;
    let choice = build(rt, t, Step::Ite(x0, x1, zero()))?;
    for (name, a, b, same) in [
        ("x and not x", neither, zero(), true),
        ("two variables", x0, x1, false),
        ("a choice with zero", choice, both, true),
    ] {
        assert_eq!(rt; is_same(rt, t, a, b), same, "{name}");
    }
    Ok(())
}

#[test]
fn equal_functions_have_one_reference(rt: HostRuntime) -> Result<(), Fail> {
    let mut t = Table::new(rt.alloc(), 2)?;
    check_equal_functions(&rt, &mut t)
}

fn check_values(rt: &impl Abort, t: &mut Table) -> Result<(), Fail> {
    let [x0, x1, both] = variables(rt, t)?;
    let either = build(rt, t, Step::Or(x0, x1))?;
    for (values, and, or) in [
        ([false, false], false, false),
        ([true, false], false, true),
        ([true, true], true, true),
    ] {
        assert_eq!(rt; value_at(rt, t, both, &values), and);
        assert_eq!(rt; value_at(rt, t, either, &values), or);
    }
    Ok(())
}

#[test]
fn values_follow_the_path(rt: HostRuntime) -> Result<(), Fail> {
    let mut t = Table::new(rt.alloc(), 2)?;
    check_values(&rt, &mut t)
}

/// An answer is kept for the arguments in the order in which they were given, and for no others.
fn check_kept(rt: &impl Abort, t: &mut Table) -> Result<(), Fail> {
    let [x0, x1, both] = variables(rt, t)?;
    let choice = build(rt, t, Step::Ite(x0, one(), x1))?;
    assert_eq!(rt; kept(rt, t, x0, one(), x1), Some(choice));
    assert_eq!(rt; kept(rt, t, x0, x1, zero()), Some(both));
    assert_eq!(rt; kept(rt, t, x0, x1, x1), None);
    Ok(())
}

#[test]
fn answers_are_kept(rt: HostRuntime) -> Result<(), Fail> {
    let mut t = Table::new(rt.alloc(), 2)?;
    check_kept(&rt, &mut t)
}

fn check_branch(rt: &impl Abort, t: &mut Table) -> Result<(), Fail> {
    let x1 = build(rt, t, Step::Var(1))?;
    assert!(rt; t.has(x1));
    let branch = Branch {
        var: 1,
        low: zero(),
        high: one(),
    };
    assert_eq!(rt; t.branch(x1), Some(branch));
    Ok(())
}

#[test]
fn a_variable_is_a_branch(rt: HostRuntime) -> Result<(), Fail> {
    let mut t = Table::new(rt.alloc(), 2)?;
    check_branch(&rt, &mut t)
}
