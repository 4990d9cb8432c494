//! Two functions of which one is to be true, for some values or for all values of marked variables, in one pass.
ghost use Rattle.std.specs.Prelude.{◌≡◌, ◌<◌, ◌≤◌, IsTrue, IfOk, if◌then◌else◌};
ghost use Rattle.hp_diagram.specs.Diagrams.{Has, level, function, Means, Keeps};
ghost use Rattle.hp_quant.specs.Turns.{marked, way_of, by_way, Answers, AreBehind, at_sides, AllAnswered, Settles};

use crate::pair::{Found, Pair};
use hp_diagram::{Ref, Table, one, zero};
use std::alloc::AllocError;

/// What is asked of the values of a variable.
#[derive(Clone, Copy, Debug)]
pub(crate) enum Way {
    /// Nothing: it stays.
    Stays,
    /// That one of them makes the function true.
    Either,
    /// That each of them makes the function true.
    Both,
}

/// What is asked: whether all values of the marked variables are to make one of two functions true, or some values, and the variable from
/// which on none is marked.
#[derive(Clone, Copy, Debug)]
pub(crate) struct Plan {
    pub all: bool,
    pub end: usize,
}

/// Whether the variable is marked.
fn is_marked(of: &[bool], var: u16) -> bool
    ensures { result ≡ marked of.now var }
{
    match of.get(usize::from(var)) {
        Some(is) => *is,
        None => false,
    }
}

impl Plan {
    /// What is asked of a variable.
    fn way(self, of: &[bool], var: u16) -> Way
        ensures { result ≡ way_of self.all of.now var }
    {
        if !is_marked(of, var) {
            Way::Stays
        } else if self.all {
            Way::Both
        } else {
            Way::Either
        }
    }
}

impl Way {
    /// Whether the answer for one value of the variable is that for both.
    fn is_settled(self, low: Ref) -> bool
        ensures { IsTrue result → Settles self low }
    {
        match self {
            Way::Stays => false,
            Way::Either => low == one(),
            Way::Both => low == zero(),
        }
    }

    /// The answer at a variable, from the answers for its two values.
    fn join(self, t: &mut Table, var: u16, low: Ref, high: Ref) -> Result<Ref, AllocError>
        requires low { Has t.old low }
        requires high { Has t.old high }
        requires low_later { var < level t.old low }
        requires high_later { var < level t.old high }
        ensures ok { IfOk result (Means t.new (λ v. by_way self (if v var then function t.old high v else function t.old low v)
            (function t.old low v) (function t.old high v))) }
        ensures keeps { Keeps t.old t.new }
    {
        match self {
            Way::Stays => t.node(var, low, high),
            Way::Either => t.choose(low, one(), high),
            Way::Both => t.choose(low, high, zero()),
        }
    }
}

/// The answer for two functions.
#[cycle(seek)]
pub(crate) fn seek(
    t: &mut Table,
    p: Pair,
    plan: Plan,
    of: &[bool],
    found: &mut Found,
) -> Result<Ref, AllocError>
    requires f { Has t.old p.f }
    requires g { Has t.old p.g }
    requires within { plan.end ≤ t.old.vars }
    requires right { AllAnswered t.old plan of.now found.old }
    ensures ok { IfOk result (Answers t.new plan of.now p) }
    ensures keeps { Keeps t.old t.new }
    ensures right { AllAnswered t.new plan of.now found.new }
{
    let _vars = t.vars();
    if let Some(s) = p.settled() {
        return Ok(s);
    }
    let var = t.level(p.f).min(t.level(p.g));
    if usize::from(var) >= plan.end {
        return p.join(t);
    }
    let key = p.ordered();
    if let Some(s) = found.get(key) {
        return Ok(s);
    }
    let (f_low, f_high) = t.children(p.f, var);
    let (g_low, g_high) = t.children(p.g, var);
    let low = Pair { f: f_low, g: g_low };
    let high = Pair {
        f: f_high,
        g: g_high,
    };
    let s = seek_sides(t, var, low, high, plan, of, found)?;
    found.put(key, s)?;
    Ok(s)
}

/// The answer at a variable, for what two functions are where it is false and where it is true.
#[cycle(seek)]
fn seek_sides(
    t: &mut Table,
    var: u16,
    low: Pair,
    high: Pair,
    plan: Plan,
    of: &[bool],
    found: &mut Found,
) -> Result<Ref, AllocError>
    requires low { AreBehind t.old var low }
    requires high { AreBehind t.old var high }
    requires in_range { var < plan.end }
    requires within { plan.end ≤ t.old.vars }
    requires right { AllAnswered t.old plan of.now found.old }
    ensures ok { IfOk result (Means t.new (at_sides t.old plan of.now var low high)) }
    ensures keeps { Keeps t.old t.new }
    ensures right { AllAnswered t.new plan of.now found.new }
{
    let _vars = t.vars();
    let way = plan.way(of, var);
    let below = seek(t, low, plan, of, found)?;
    if way.is_settled(below) {
        return Ok(below);
    }
    let above = seek(t, high, plan, of, found)?;
    way.join(t, var, below, above)
}
