ghost use Rattle.std.specs.Prelude.{◌≡◌, ◌≢◌, ◌<◌, ◌≤◌, ◌↔◌, ◌⊎◌, ◌&&◌, ◌||◌, not, ℕ, Bool, [], length, Contains, IsTrue, IfSome, IfNone, IfOk, OnErr, if◌then◌else◌};
ghost use Rattle.hp_diagram.specs.Diagrams.{zero_ref, one_ref, Has, branch_of, level, function, valuation, choice, Means, IsReduced, IsAnswer, IsKept, IsSplit, HasChildren, Stores, Keeps};

use crate::question::{Question, Split, plain_answer};
use crate::recent::{Answered, find, none_yet, places_for, put, without_answers};
use crate::reference::{Branch, Ref, one, zero};
use indexmap::IndexSet;
use lru::LruCache;
use std::alloc::{AllocError, Global};
use std::marker::Model;
use std::num::NonZeroUsize;

/// How many answers of calls a table keeps.
const MOST_ANSWERS: usize = 65_536;

/// Functions of Boolean variables, each under its reference.
///
/// A contract sees the table as its nodes and the answers that it keeps. Two references of a table differ exactly
/// where their functions do.
#[derive(Drop)]
pub struct Table {
    vars: u16,
    nodes: IndexSet<Branch>,
    answers: LruCache<Question, Ref>,
    /// The answers that were found last within calls.
    recent: Vec<Answered>,
}

impl Model for Table {
    ghost use Rattle.hp_diagram.specs.Diagrams.{Diagrams, IsSound, AreAnswers};

    ghost Value = { Diagrams };

    ghost view = { λ t. record { vars = t.vars; nodes = t.nodes.keys; answers = t.answers.entries } };

    ghost invariant = { λ t. IsSound (record { vars = t.vars; nodes = t.nodes.keys; answers = t.answers.entries })
        × AreAnswers (record { vars = t.vars; nodes = t.nodes.keys; answers = t.answers.entries }) t.recent.items };
}

/// The place of a node in the set, where it is put if it is not there.
fn place_of(nodes: &mut IndexSet<Branch>, node: Branch) -> Result<usize, AllocError>
    ensures ok { IfOk result (Stores nodes.old.keys nodes.new.keys node) }
    ensures err { OnErr result (nodes.new.keys ≡ nodes.old.keys) }
{
    let _count = nodes.len();
    let (place, _) = nodes.insert_full(node)?;
    Ok(place)
}

impl Table {
    /// A table of so many variables, which has `zero` and `one` alone.
    pub fn new(alloc: Global, vars: u16) -> Result<Table, AllocError>
        ensures { IfOk result (λ t. t ≡ record { vars = vars; nodes = []; answers = [] }) }
    {
        let most = NonZeroUsize::new(MOST_ANSWERS).unwrap();
        let recent = none_yet(alloc)?;
        Ok(Table {
            vars,
            nodes: IndexSet::new(alloc),
            answers: LruCache::sparse(alloc, most)?,
            recent,
        })
    }

    /// The number of variables. It takes no memory.
    pub fn vars(&self) -> u16
        ensures vars { result ≡ self.now.vars }
        ensures reduced { IsReduced self.now }
    {
        self.vars
    }

    /// How many nodes there are. It takes no memory.
    pub fn len(&self) -> usize
        ensures { result ≡ length self.now.nodes }
    {
        self.nodes.len()
    }

    /// Whether the table has `zero` and `one` alone. It takes no memory.
    pub fn is_empty(&self) -> bool
        ensures { IsTrue result ↔ (self.now.nodes ≡ []) }
    {
        self.nodes.is_empty()
    }

    /// Whether the reference is one of the table.
    pub fn has(&self, r: Ref) -> bool
        ensures { IsTrue result ↔ Has self.now r }
    {
        r.index < self.nodes.len() + 2
    }

    /// The node of the reference, and `None` exactly at `zero` and `one`. It takes no memory.
    pub fn branch(&self, r: Ref) -> Option<Branch>
        requires { Has self.now r }
        ensures node { result ≡ branch_of self.now r }
        ensures reduced { IsReduced self.now }
    {
        let nodes = &self.nodes;
        let place = r.index.checked_sub(2)?;
        nodes.get_index(place).copied()
    }

    /// The function that is `high` where the variable is true and `low` elsewhere, of which both have later variables.
    /// It needs no memory where the table has that node.
    pub fn node(&mut self, var: u16, low: Ref, high: Ref) -> Result<Ref, AllocError>
        requires low { Has self.old low }
        requires high { Has self.old high }
        requires low_later { var < level self.old low }
        requires high_later { var < level self.old high }
        ensures ok { IfOk result
            (Means self.new (λ v. if v var then function self.old high v else function self.old low v)) }
        ensures stands { IfOk result
            (λ r. low ≢ high → branch_of self.new r ≡ Some (record { var = var; low = low; high = high })) }
        ensures only { IfOk result (λ r. (s : Ref) → Has self.new s → Has self.old s ⊎ (s ≡ r)) }
        ensures keeps { Keeps self.old self.new }
        ensures answers { self.new.answers ≡ self.old.answers }
    {
        if low == high {
            // The proof of `keeps` opens the table.
            let _vars = self.vars;
            return Ok(low);
        }
        let place = place_of(&mut self.nodes, Branch { var, low, high })?;
        Ok(Ref { index: place + 2 })
    }

    /// The function that is true where the variable is.
    pub fn var(&mut self, v: u16) -> Result<Ref, AllocError>
        requires { v < self.old.vars }
        ensures ok { IfOk result (Means self.new (λ values. values v)) }
        ensures keeps { Keeps self.old self.new }
    {
        self.node(v, zero(), one())
    }

    /// Whether the functions are the same, which is whether the references are. It takes no memory.
    pub fn same(&self, a: Ref, b: Ref) -> bool
        requires a { Has self.now a }
        requires b { Has self.now b }
        ensures index { IsTrue result ↔ (a.index ≡ b.index) }
        ensures functions { IsTrue result
            ↔ ((v : ℕ → Bool) → function self.now a v ≡ function self.now b v) }
    {
        let _vars = self.vars;
        a == b
    }

    /// The value of the function where the variables have these values. It takes no memory.
    pub fn value(&self, r: Ref, vars: &[bool]) -> bool
        requires has { Has self.now r }
        requires values { self.now.vars ≤ length vars.now }
        ensures { result ≡ function self.now r (valuation vars.now) }
    {
        let mut at = r;
        while let Some(node) = self.branch(at) {
            at = node.child(vars);
        }
        at == one()
    }

    /// The function that is g where f is true, and h elsewhere. Where its answer is kept, it takes no memory.
    pub fn ite(&mut self, f: Ref, g: Ref, h: Ref) -> Result<Ref, AllocError>
        requires f { Has self.old f }
        requires g { Has self.old g }
        requires h { Has self.old h }
        ensures ok { IfOk result (Means self.new (choice self.old f g h)) }
        ensures keeps { Keeps self.old self.new }
        ensures kept { (r : Ref) → IsKept self.old f g h r
            → (result ≡ Ok r) × (self.new.nodes ≡ self.old.nodes) }
    {
        // The proof of `kept` opens the table, whose functions have one reference each.
        let _vars = self.vars;
        if let Some(r) = plain_answer(f, g, h) {
            return Ok(r);
        }
        let question = Question::ordered(f, g, h);
        if let Some(r) = self.recall(question) {
            return Ok(r);
        }
        let r = self.choose(f, g, h)?;
        self.keep(question, r);
        Ok(r)
    }

    /// The same function as `ite` gives, for passes over diagrams that keep their own answers: this one is not kept for later calls.
    pub fn choose(&mut self, f: Ref, g: Ref, h: Ref) -> Result<Ref, AllocError>
        requires f { Has self.old f }
        requires g { Has self.old g }
        requires h { Has self.old h }
        ensures ok { IfOk result (Means self.new (choice self.old f g h)) }
        ensures keeps { Keeps self.old self.new }
    {
        // The proof of `keeps` opens the table.
        let _vars = self.vars();
        if let Some(r) = plain_answer(f, g, h) {
            return Ok(r);
        }
        let question = Question::ordered(f, g, h);
        if let Some(r) = self.known(question) {
            return Ok(r);
        }
        let Split { var, low, high } = self.split(question);
        let low = self.choose(low.f, low.g, low.h)?;
        let high = self.choose(high.f, high.g, high.h)?;
        let r = self.node(var, low, high)?;
        self.remember(question, r);
        Ok(r)
    }

    /// The answer that was found within this call or an earlier one, if it still stands at its place. It takes no memory.
    fn known(&self, q: Question) -> Option<Ref>
        ensures { IfSome result (IsAnswer self.now q) }
    {
        find(&self.recent, q)
    }

    /// Puts an answer at its place.
    fn remember(&mut self, q: Question, r: Ref)
        requires { IsAnswer self.old q r }
        ensures { self.new ≡ self.old }
    {
        put(&mut self.recent, q, r);
        let places = places_for(self.recent.len(), self.nodes.len());
        if places != self.recent.len() {
            self.make_places(places);
        }
    }

    /// So many places, without answers, if there is memory for them.
    fn make_places(&mut self, places: usize)
        ensures { self.new ≡ self.old }
    {
        let alloc = *self.recent.allocator();
        if let Ok(recent) = without_answers(alloc, places) {
            self.recent = recent;
        }
    }

    /// The function that is true where f is false.
    pub fn not(&mut self, f: Ref) -> Result<Ref, AllocError>
        requires { Has self.old f }
        ensures ok { IfOk result (Means self.new (λ v. not (function self.old f v))) }
        ensures keeps { Keeps self.old self.new }
        ensures kept { (r : Ref) → IsKept self.old f zero_ref one_ref r
            → (result ≡ Ok r) × (self.new.nodes ≡ self.old.nodes) }
    {
        self.ite(f, zero(), one())
    }

    /// The function that is true where f and g are.
    pub fn and(&mut self, f: Ref, g: Ref) -> Result<Ref, AllocError>
        requires f { Has self.old f }
        requires g { Has self.old g }
        ensures ok { IfOk result (Means self.new (λ v. function self.old f v && function self.old g v)) }
        ensures keeps { Keeps self.old self.new }
        ensures kept { (r : Ref) → IsKept self.old f g zero_ref r
            → (result ≡ Ok r) × (self.new.nodes ≡ self.old.nodes) }
    {
        self.ite(f, g, zero())
    }

    /// The function that is true where f is, or g.
    pub fn or(&mut self, f: Ref, g: Ref) -> Result<Ref, AllocError>
        requires f { Has self.old f }
        requires g { Has self.old g }
        ensures ok { IfOk result (Means self.new (λ v. function self.old f v || function self.old g v)) }
        ensures keeps { Keeps self.old self.new }
        ensures kept { (r : Ref) → IsKept self.old f one_ref g r
            → (result ≡ Ok r) × (self.new.nodes ≡ self.old.nodes) }
    {
        self.ite(f, one(), g)
    }

    /// The answer that is kept for `ite(f, g, h)`, if there is one. It takes no memory and leaves the cache as it is.
    pub fn cached(&self, f: Ref, g: Ref, h: Ref) -> Option<Ref>
        requires f { Has self.now f }
        requires g { Has self.now g }
        requires h { Has self.now h }
        ensures kept { (r : Ref) → (result ≡ Some r) ↔ IsKept self.now f g h r }
        ensures answer { IfSome result (Means self.now (choice self.now f g h)) }
    {
        self.answers.peek(&Question::ordered(f, g, h)).copied()
    }

    /// The answer that is kept for the question, which becomes the one used last.
    fn recall(&mut self, q: Question) -> Option<Ref>
        ensures found { IfSome result (λ r. Contains self.old.answers (q, r)) }
        ensures missing { IfNone result ((r : Ref) → ¬ Contains self.old.answers (q, r)) }
        ensures nodes { self.new.nodes ≡ self.old.nodes }
        ensures keeps { Keeps self.old self.new }
    {
        self.answers.get(&q).copied()
    }

    /// Keeps an answer, if there is memory for it.
    fn keep(&mut self, q: Question, r: Ref)
        requires { IsAnswer self.old q r }
        ensures nodes { self.new.nodes ≡ self.old.nodes }
        ensures keeps { Keeps self.old self.new }
    {
        let _ = self.answers.put(q, r);
    }

    /// The variable of the reference's node, and the number of variables at `zero` and `one`. It takes no memory.
    pub fn level(&self, r: Ref) -> u16
        requires { Has self.now r }
        ensures level { result ≡ level self.now r }
        ensures node { 2 ≤ r.index → result < self.now.vars }
    {
        match self.branch(r) {
            Some(node) => node.var,
            None => self.vars,
        }
    }

    /// The function where the variable is false, and where it is true. It takes no memory.
    pub fn children(&self, r: Ref, var: u16) -> (Ref, Ref)
        requires has { Has self.now r }
        requires first { var ≤ level self.now r }
        requires var { var < self.now.vars }
        ensures { HasChildren self.now r var result.0 result.1 }
    {
        match self.branch(r) {
            Some(node) if node.var == var => (node.low, node.high),
            _ => (r, r),
        }
    }

    /// The question by its first variable.
    fn split(&self, q: Question) -> Split
        requires f { Has self.now q.f }
        requires g { Has self.now q.g }
        requires h { Has self.now q.h }
        requires node { (2 ≤ q.f.index) ⊎ (2 ≤ q.g.index) ⊎ (2 ≤ q.h.index) }
        ensures { IsSplit self.now q result }
    {
        let var = self.level(q.f).min(self.level(q.g)).min(self.level(q.h));
        let (f_low, f_high) = self.children(q.f, var);
        let (g_low, g_high) = self.children(q.g, var);
        let (h_low, h_high) = self.children(q.h, var);
        Split {
            var,
            low: Question {
                f: f_low,
                g: g_low,
                h: h_low,
            },
            high: Question {
                f: f_high,
                g: g_high,
                h: h_high,
            },
        }
    }
}
