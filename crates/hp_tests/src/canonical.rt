//! Canonical texts of programs.
use crate::program_of;
use hp_print::print;
use std::alloc::Global;
use std::fmt::Write;
use std::test::Fail;

/// An expression, and its canonical text: parentheses stand where an operand is looser than its place wants.
const EXPRESSIONS: [(&str, &str); 24] = [
    ("((x))", "x"),
    ("x fby y fby z", "x fby y fby z"),
    ("(x fby y) fby z", "( x fby y ) fby z"),
    ("x fby (y fby z)", "x fby y fby z"),
    ("(x -> y) -> z", "( x -> y ) -> z"),
    ("x -> (y -> z)", "x -> y -> z"),
    ("x -> (if x then y else z)", "x -> if x then y else z"),
    ("(if x then y else z) or x", "( if x then y else z ) or x"),
    ("not (if x then y else z)", "not ( if x then y else z )"),
    ("(x fby y) when c", "x fby y when true ( c )"),
    ("x fby (y when C(c))", "x fby ( y when C ( c ) )"),
    ("(x -> y) whenot c", "( x -> y ) when false ( c )"),
    ("x when c when d", "x when true ( c ) when true ( d )"),
    ("not (x & y) && not x", "not ( x & y ) & not x"),
    ("- (1 + 2) - (-3)", "- ( 1 + 2 ) - - 3"),
    ("a - (b - c) - d", "a - ( b - c ) - d"),
    ("a * (b + c) / d", "a * ( b + c ) / d"),
    ("(a * b) + c % 2", "a * b + c % 2"),
    ("(a < b) = (c >= d)", "( a < b ) = ( c >= d )"),
    ("a + 1 <> b or c || d xor x", "a + 1 <> b or c or d xor x"),
    ("a => (b => c)", "a => b => c"),
    ("(a => b) => c", "( a => b ) => c"),
    ("pre (pre x) + last x", "pre pre x + last x"),
    (
        "merge c (A -> (x)) (B -> inlined f((x), y -> z))",
        "merge c ( A -> x ) ( B -> inlined f ( x , y -> z ) )",
    ),
];

/// Programs with their canonical texts.
const PROGRAMS: [(&str, &str); 7] = [
    (
        "node f(x : bool) returns (y : bool)\nlet y = false fby x tel",
        "node f ( x : bool ) returns ( y : bool ) let y = false fby x ;\ntel\n",
    ),
    ("type t = A|B type u = C", "type t = A | B type u = C "),
    (
        "node f(a, b : int; c : t) returns (last o : int = -5; p : bool) let () = f(); (p) = a; (a, b) = g() tel",
        "node f ( a : int ;\nb : int ;\nc : t ) returns ( last o : int = - 5 ;\np : bool ) let ( ) = f ( ) ;\np = a ;\n( a , b ) = g ( ) ;\ntel\n",
    ),
    (
        "node f() returns () var a, b : int on true(x) on C(y); last z : t = C let reset a = 1; every c; tel",
        "node f ( ) returns ( ) var a : int on true ( x ) on C ( y ) ;\nb : int on true ( x ) on C ( y ) ;\nlast z : t = C ;\nlet reset a = 1 ;\nevery c ;\ntel\n",
    ),
    (
        "node f() returns () let if c then var a : int in a = 1 else end; reset var a : int in b = 1 every c tel",
        "node f ( ) returns ( ) let switch c | true var a : int ;\ndo a = 1 ;\n| false do end ;\nreset var a : int ;\nin b = 1 ;\nevery c ;\ntel\n",
    ),
    (
        "node f() returns () let automaton state A do unless | a then B | b continue A until c then A state B var d : bool do until a then A end tel",
        "node f ( ) returns ( ) let automaton state A do until c then A unless a then B | b continue A state B var d : bool ;\ndo until a then A end ;\ntel\n",
    ),
    (
        "node f() returns () contract let tel with (a, b : bool) let tel node g() returns () contract var a : bool let tel assume x enforce y let tel node h() returns () contract let a = b tel enforce y let tel",
        "node f ( ) returns ( ) contract with ( a : bool ;\nb : bool ) let tel\nnode g ( ) returns ( ) contract var a : bool ;\nlet tel\nassume x enforce y let tel\nnode h ( ) returns ( ) contract let a = b ;\ntel\nenforce y let tel\n",
    ),
];

const DELAYABLE: &str = "node delayable(r, c, e : bool) returns (a, s : bool)
let
  automaton
    state Idle do a = false; s = r & c
      until r & c then Active | r & not c then Wait
    state Wait do a = false; s = c
      until c then Active
    state Active do a = true; s = false
      until e then Idle
  end
tel
";

/// Programs that are printed, read and printed again.
const TEXTS: [(&str, &str); 23] = [
    ("", "node f() returns (y : bool)\nlet y = true tel"),
    (
        "",
        "node updown() returns (last o : int = 0)
let
  automaton
    state Up do o = last o + 1 until o >= 2 then Down
    state Down do o = last o - 1 until o <= 0 then Up
  end
tel",
    ),
    (
        "",
        "node f(c : bool) returns (x : int)
let
  automaton
    state A do x = 0 -> pre x + 1 until c continue B
    state B do x = 10 -> pre x + 1 until c continue A
  end
tel",
    ),
    (
        "",
        "node f(a, b : bool) returns (x : int)
let
  automaton
    state P do x = 0 -> pre x + 1
      until a then Q | b continue Q
    state Q do x = 10 -> pre x + 1
      unless b continue P
      until a continue P
  end
tel",
    ),
    (
        "",
        "node g(o, i : bool) returns (x : int)
let
  automaton
    state S do
      automaton
        state A do x = 0 until i continue B
        state B do x = 10 -> pre x + 1 until i continue A
      end
      until o then T
    state T do x = -1
      until o then S
  end
tel",
    ),
    (
        "",
        "node f(a, b : int) returns (s, q, m : int)
let s = a + b; q = a / b; m = a % b tel",
    ),
    (
        "",
        "node f(c : bool) returns (x, y : bool)
let x = y; y = x; tel",
    ),
    (
        "",
        "node f(c : bool) returns (x, y : bool)
let
  switch c
  | true do x = y; y = true
  | false do y = x; x = false
  end
tel",
    ),
    (
        "",
        "node f(x : int) returns (y : int)
let y = pre x tel",
    ),
    (
        "",
        "node f(x : int; c : bool) returns (z : int)
var y : int
let
  y = x when c;
  z = merge c (true -> y) (false -> 0)
tel",
    ),
    (
        DELAYABLE,
        "node tasks(r1, e1, r2, e2 : bool) returns (a1, a2, s1, s2 : bool)
contract enforce not (a1 & a2) with (c1, c2 : bool)
let
  (a1, s1) = inlined delayable(r1, c1, e1);
  (a2, s2) = inlined delayable(r2, c2, e2)
tel",
    ),
    (
        "node echo(x : bool) returns (y : bool)
let y = x tel
",
        "node top(i : bool) returns (y, z : bool)
contract enforce y = z with (c : bool)
let y = echo(c); z = c tel",
    ),
    (
        "node echo(x : bool) returns (y : bool)
contract enforce y = x
let y = x tel
",
        "node top(i : bool) returns (y, z : bool)
contract enforce y = z with (c : bool)
let y = echo(c); z = c tel",
    ),
    (
        "",
        "node f(i : bool) returns (a, s : bool)
contract assume s enforce true with (c1 : bool)
let a = i; s = c1 tel",
    ),
    (
        "",
        "node g(r, e : bool) returns (a : bool)
contract assume not (r & e) enforce not (a & e) with (c : bool)
let a = r & c tel",
    ),
    (
        "",
        "node f(x : int) returns (y : bool)
contract enforce y = (x > 3)
let y = x > 3 tel",
    ),
    (
        "",
        "node f(x : int) returns (y, b : bool)
contract enforce y = b
let b = x > 3; y = b tel",
    ),
    (
        "",
        "node r(c : bool) returns (n : int)
let reset n = 0 fby n + 1 every c tel",
    ),
    (
        "",
        "node h(x : bool) returns (y : bool)
contract enforce y
let y = true fby x tel",
    ),
    (
        DELAYABLE,
        "node tasks(r1, e1, r2, e2 : bool) returns (a1, a2, s1, s2 : bool)
contract enforce not (a1 & a2)
let
  (a1, s1) = inlined delayable(r1, true, e1);
  (a2, s2) = inlined delayable(r2, true, e2)
tel",
    ),
    (
        "type mode = Fast | Slow | Off
",
        "node heat(hot : bool) returns (m : mode)
contract enforce not (hot & m = Fast) with (c : mode)
let m = c tel",
    ),
    (
        "type lamp = Red | Green
",
        "node cross(a : bool) returns (l : lamp)
contract assume a enforce l = Green with (c : lamp)
let l = c tel",
    ),
    (
        "",
        "node gate(r, e : bool) returns (a : bool)
contract enforce a => once(r) with (c : bool)
let a = e & c tel",
    ),
];

/// The canonical text of the program of a text.
fn canonical(alloc: Global, text: &[u8]) -> Result<Vec<u8>, Fail> {
    let program = program_of(alloc, text)?;
    Ok(print(alloc, &program)?)
}

fn is_canonical_text_of(alloc: Global, text: &[u8], wanted: &[u8]) -> Result<bool, Fail> {
    Ok(canonical(alloc, text)?.as_slice() == wanted)
}

/// Whether an expression, on the right of an equation, has this canonical text.
fn is_written_as(alloc: Global, source: &str, expected: &str) -> Result<bool, Fail> {
    let text = format!(in alloc; "node f() returns () let y = {source} tel")?;
    let wanted = format!(in alloc; "node f ( ) returns ( ) let y = {expected} ;\ntel\n")?;
    is_canonical_text_of(alloc, text.as_bytes(), wanted.as_bytes())
}

#[test]
fn expressions_have_the_parentheses_that_they_need(rt: HostRuntime) -> Result<(), Fail> {
    for (source, expected) in EXPRESSIONS {
        assert!(rt; is_written_as(rt.alloc(), source, expected)?, "at {source}");
    }
    Ok(())
}

#[test]
fn programs_have_their_canonical_text(rt: HostRuntime) -> Result<(), Fail> {
    for (source, wanted) in PROGRAMS {
        let is_canonical = is_canonical_text_of(rt.alloc(), source.as_bytes(), wanted.as_bytes())?;
        assert!(rt; is_canonical, "at {source}");
    }
    Ok(())
}

/// Whether the canonical text of a program is its own canonical text.
fn is_stable(alloc: Global, text: &[u8]) -> Result<bool, Fail> {
    let first = canonical(alloc, text)?;
    is_canonical_text_of(alloc, first.as_slice(), first.as_slice())
}

fn is_stable_of(alloc: Global, begin: &str, end: &str) -> Result<bool, Fail> {
    let text = format!(in alloc; "{begin}{end}")?;
    is_stable(alloc, text.as_bytes())
}

#[test]
fn a_canonical_text_is_its_own(rt: HostRuntime) -> Result<(), Fail> {
    for (begin, end) in TEXTS {
        assert!(rt; is_stable_of(rt.alloc(), begin, end)?, "at {begin}{end}");
    }
    Ok(())
}

/// Twenty-one nodes, each of which calls the one before it twice.
fn doubling(alloc: Global) -> Result<String, Fail> {
    let mut text = String::new(alloc);
    text.push_str("node f0(x : bool) returns (y : bool)\nlet y = not x tel\n")?;
    for before in 0..20 {
        let k = before + 1;
        write!(
            text,
            "node f{k}(x : bool) returns (y : bool)\nlet y = f{before}(x) & f{before}(x) tel\n"
        )?;
    }
    Ok(text)
}

#[test]
fn a_long_canonical_text_is_its_own(rt: HostRuntime) -> Result<(), Fail> {
    let text = doubling(rt.alloc())?;
    assert!(rt; is_stable(rt.alloc(), text.as_bytes())?);
    Ok(())
}
