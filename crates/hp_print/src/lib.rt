//! The canonical text of a program. Invariant: what is printed parses to the same tree but for places. Used by `hp_driver` (`check --print`); its specs by the laws.
#![tactic(auto)]

ghost use Rattle.std.specs.Prelude.{◌≡◌, ◌≤◌, length, IfOk};
ghost use Rattle.hp_base.specs.Limits.{most};
ghost use Rattle.hp_base.specs.declared.limit.What.TheVariants.{Size};
ghost use Rattle.hp_print.specs.ProgramTokens.{canonical_text};
ghost use Rattle.hp_print.specs.ReadBack.{IsOfText, IsReadBack};

mod block;
mod declaration;
mod expression;
mod laws;
mod level;
mod printer;
mod program;

use hp_tree::Program;
pub use laws::parsed_programs_are_read_back;
use printer::Printer;
use std::alloc::{AllocError, Global};

/// The canonical text of a program: its tokens in the order of the grammar, with a newline behind each `;` and each `tel`, and
/// a space behind each other token. Parentheses stand only where the grammar needs them.
#[tactic(auto, using(crate::proofs::PrintRules::printed))]
pub fn print(alloc: Global, p: &Program) -> Result<Vec<u8>, AllocError>
    ensures text { IfOk result (λ text. text.items ≡ canonical_text p.now) }
    // A program of a text is read back, but for places, where the canonical text is no longer than a text may be.
    ensures read_back { IsOfText p.now
        → IfOk result (λ text. length text.items ≤ most Size → IsReadBack p.now text.items) }
{
    let mut printer = Printer::new(alloc);
    printer.items(&p.items)?;
    Ok(printer.into_text())
}
