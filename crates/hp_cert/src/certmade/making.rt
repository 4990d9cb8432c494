//! Certificates of a verdict.
ghost use Rattle.std.specs.Prelude.{◌≡◌, ◌≤◌, ◌∷◌, [], All, length, option_map, IfOk, IfErr};
ghost use Rattle.hp_cert.specs.Certmade.Lines.{AreMade, references};
ghost use Rattle.hp_cert.specs.Certmade.Made.{HaveFunctions, IsHeaded, IsLose, IsOf, IsWin};
ghost use Rattle.hp_cert.specs.Certmade.Placed.{RefersBack};
ghost use Rattle.hp_cert.specs.Certmade.Walks.{WalksAll};
ghost use Rattle.hp_cert.specs.Certtext.CertView.{claim_seen};
ghost use Rattle.hp_cert.specs.declared.certtext.error.CertErr.TheVariants as error;
ghost use Rattle.hp_diagram.specs.Diagrams.{Has, IsReduced};

use crate::certmade::lines::{lines_of, numbers_of};
use crate::certmade::walk::walk;
use crate::certtext::{Cert, CertErr, CertKind};
use hp_base::Name;
use hp_boolx::Counts;
use hp_diagram::{Ref, Table};
use hp_quant::Line;
use indexmap::IndexSet;
use std::alloc::{AllocError, Global};

/// Lines, and the numbers of some references among them: 0 is false, 1 is true, and 2 is the first line.
#[derive(Drop)]
pub struct Page {
    pub lines: Vec<Line>,
    pub numbers: Vec<usize>,
}

/// The lines of nodes that were visited, and the numbers of the references from which they were.
fn page_of(
    alloc: Global,
    t: &Table,
    nodes: &IndexSet<usize>,
    roots: &[Ref],
) -> Result<Page, AllocError>
    requires reduced { IsReduced t.now }
    requires has { All (Has t.now) roots.now }
    requires walk { WalksAll t.now [] roots.now nodes.now.keys }
    ensures made { IfOk result (λ page. AreMade t.now roots.now page.lines.items page.numbers.items) }
    ensures functions { IfOk result (λ page. HaveFunctions t.now roots.now page.lines.items page.numbers.items) }
    ensures back { IfOk result (λ page. RefersBack page.lines.items) }
{
    let lines = lines_of(alloc, t, nodes)?;
    let numbers = numbers_of(alloc, nodes, roots)?;
    Ok(Page { lines, numbers })
}

/// The lines of some references, which are the nodes that these reach, each once and behind its children, low before high; and their numbers.
pub fn make_page(alloc: Global, t: &Table, roots: &[Ref]) -> Result<Page, AllocError>
    requires { All (Has t.now) roots.now }
    ensures made { IfOk result (λ page. AreMade t.now roots.now page.lines.items page.numbers.items) }
    ensures functions { IfOk result (λ page. HaveFunctions t.now roots.now page.lines.items page.numbers.items) }
    ensures back { IfOk result (λ page. RefersBack page.lines.items) }
{
    // The proof of `functions` wants the table's rules.
    let _vars = t.vars();
    let nodes = walk(alloc, t, roots)?;
    page_of(alloc, t, &nodes, roots)
}

fn copy_widths(alloc: Global, widths: Option<&[u16]>) -> Result<Option<Vec<u16>>, AllocError>
    ensures { IfOk result (λ copy. option_map (λ ns. ns.items) copy ≡ option_map (λ ns. ns.now) widths.entry) }
{
    match widths {
        None => Ok(None),
        Some(widths) => {
            let copy = Vec::from_slice(alloc, widths)?;
            Ok(Some(copy))
        }
    }
}

/// The set first, and behind it the functions.
fn roots_of(alloc: Global, inv: Ref, funs: &[Ref]) -> Result<Vec<Ref>, AllocError>
    ensures { IfOk result (λ roots. roots.items ≡ inv ∷ funs.now) }
{
    let mut roots = Vec::with_capacity(alloc, funs.len())?;
    roots.push(inv)?;
    roots.extend_from_slice(funs)?;
    Ok(roots)
}

/// What a set, and the functions behind it, prove.
fn won(numbers: Vec<usize>) -> CertKind
    requires { 1 ≤ length numbers.items }
    ensures win { IsWin (claim_seen result) }
    ensures references { references (claim_seen result) ≡ numbers.items }
{
    let mut funs = numbers;
    let inv = funs.remove(0);
    CertKind::Win { inv, funs }
}

/// A certificate that nothing is forced: a set of states, and a function for each control bit. Its lines are the nodes that these reach, each once and
/// behind its children, low before high.
pub fn win_cert(
    alloc: Global,
    t: &Table,
    node: &Name,
    counts: Counts,
    widths: Option<&[u16]>,
    inv: Ref,
    funs: &[Ref],
) -> Result<Cert, CertErr>
    requires inv { Has t.now inv }
    requires funs { All (Has t.now) funs.now }
    ensures heading { IfOk result (IsHeaded node.now counts (option_map (λ ns. ns.now) widths.entry)) }
    ensures claim { IfOk result (λ c. IsWin c.claim) }
    ensures roots { IfOk result (IsOf t.now (inv ∷ funs.now)) }
    ensures err { IfErr result (λ e. e ≡ error.OutOfMemory) }
{
    let roots = roots_of(alloc, inv, funs)?;
    let node = node.copy(alloc)?;
    let widths = copy_widths(alloc, widths)?;
    let Page { lines, numbers } = make_page(alloc, t, &roots)?;
    let kind = won(numbers);
    Ok(Cert {
        node,
        counts,
        widths,
        lines,
        kind,
    })
}

/// A certificate that a violation is forced: the states from which it is in one instant, in two, and so on. Its lines stand as those of `win_cert`.
pub fn lose_cert(
    alloc: Global,
    t: &Table,
    node: &Name,
    counts: Counts,
    widths: Option<&[u16]>,
    ranks: &[Ref],
) -> Result<Cert, CertErr>
    requires { All (Has t.now) ranks.now }
    ensures heading { IfOk result (IsHeaded node.now counts (option_map (λ ns. ns.now) widths.entry)) }
    ensures claim { IfOk result (λ c. IsLose c.claim) }
    ensures roots { IfOk result (IsOf t.now ranks.now) }
    ensures err { IfErr result (λ e. e ≡ error.OutOfMemory) }
{
    let node = node.copy(alloc)?;
    let widths = copy_widths(alloc, widths)?;
    let Page { lines, numbers } = make_page(alloc, t, ranks)?;
    Ok(Cert {
        node,
        counts,
        widths,
        lines,
        kind: CertKind::Lose { ranks: numbers },
    })
}
