//! Copies of trees, which trees are the same, and how many places nodes have: no clause says that memory is enough for them.
use crate::program_of;
use hp_base::{Name, Span};
use hp_meaning::causal::{Point, PointKind};
use hp_tree::{Item, Program, places};
use std::alloc::Global;
use std::process::Abort;
use std::test::Fail;

/// Programs with each form of expression, of declaration and of equation.
const PROGRAMS: [&str; 3] = [
    "node f(x : bool) returns (y : bool) let y = (false fby last x) -> pre (x when A(x)) tel",
    "node f(x : int; y : t) returns (last z : t = A) \
    let z = if not x then x + 7 else g(merge x (true -> A) (false -> inlined g(- x))) tel",
    "node f(x : bool) returns () var y : t on true(x) on C(y); last z : int = -1; let \
    switch x | true var v : int; do v = x; y = 1 | false do end; \
    reset var w : bool in w = x every y; \
    automaton state A var u : bool; do u = x until x then A unless | y continue B | z then A state B do end tel",
];

/// Whether the body of each node is the same as its copy.
fn is_copied(alloc: Global, program: &Program) -> Result<bool, Fail> {
    for item in &program.items {
        if let Item::NodeItem(node) = item {
            if !node.body.copy(alloc)?.same(&node.body) {
                return Ok(false);
            }
        }
    }
    Ok(true)
}

#[test]
fn copies_of_bodies_are_the_same(rt: HostRuntime) -> Result<(), Fail> {
    for text in PROGRAMS {
        let program = program_of(rt.alloc(), text.as_bytes())?;
        assert!(rt; is_copied(rt.alloc(), &program)?, "at {text}");
    }
    Ok(())
}

fn check_same(alloc: Global, rt: &impl Abort, first: &Program, text: &str) -> Result<bool, Fail> {
    let second = program_of(alloc, text.as_bytes())?;
    assert_eq!(rt; first.same(&second), second.same(first));
    Ok(first.same(&second))
}

#[test]
fn other_texts_have_other_trees(rt: HostRuntime) -> Result<(), Fail> {
    for (i, text) in PROGRAMS.iter().enumerate() {
        let first = program_of(rt.alloc(), text.as_bytes())?;
        for (k, other) in PROGRAMS.iter().enumerate() {
            assert_eq!(rt;
                check_same(rt.alloc(), &rt, &first, other)?,
                i == k,
                "{i} and {k}"
            );
        }
    }
    Ok(())
}

fn point(alloc: Global, kind: PointKind) -> Result<Point, Fail> {
    let name = Name::new(alloc, b"f")?;
    let span = Span {
        line: 2,
        col: 5,
        end: 9,
    };
    Ok(Point { kind, name, span })
}

#[test]
fn copies_of_points_are_the_same(rt: HostRuntime) -> Result<(), Fail> {
    let call = point(rt.alloc(), PointKind::Call)?;
    assert!(rt; call.copy(rt.alloc())?.same(&call));
    assert!(rt; !call.same(&point(rt.alloc(), PointKind::Def)?));
    Ok(())
}

/// How many places the first node of a program has.
fn places_of(program: &Program) -> u64 {
    for item in &program.items {
        if let Item::NodeItem(node) = item {
            return places(node);
        }
    }
    0
}

#[test]
fn declarations_expressions_and_automata_have_places(rt: HostRuntime) -> Result<(), Fail> {
    let counts: [u64; 3] = [9, 15, 19];
    for (i, text) in PROGRAMS.iter().enumerate() {
        let program = program_of(rt.alloc(), text.as_bytes())?;
        assert_eq!(rt; places_of(&program), counts[i], "at {text}");
    }
    Ok(())
}
