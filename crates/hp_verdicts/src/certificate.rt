//! The certificate of what is found of a machine, and its text.
ghost use Rattle.std.specs.Prelude.{◌≡◌, ◌⊎◌, ◌<◌, ◌≤◌, length, option_map, IfOk, IfErr, MatchOption};
ghost use Rattle.hp_base.specs.Limits.{most};
ghost use Rattle.hp_base.specs.declared.limit.What.TheVariants as what;
ghost use Rattle.hp_boolx.specs.Machine.{game, variables};
ghost use Rattle.hp_cert.specs.declared.checking.Proved.TheVariants as proved;
ghost use Rattle.hp_cert.specs.Certtext.Texts.{cert_text};
ghost use Rattle.hp_cert.specs.declared.certtext.error.CertErr.TheVariants as cert_error;
ghost use Rattle.hp_synth.specs.Verdicts.{IsSolved, IsWon};
ghost use Rattle.hp_verdicts.specs.Found.{AreRanks, IsFound, IsOf, IsSafeSet};
ghost use Rattle.hp_verdicts.specs.TheCertificate.{said_widths};
ghost use Rattle.hp_verdicts.specs.declared.error.ContractErr.TheVariants as error;

use crate::error::ContractErr;
use hp_boolx::BoolMachine;
use hp_cert::certmade::{lose_cert, win_cert};
use hp_cert::certtext::{Cert, CertErr, write_cert};
use hp_control::functions;
use hp_diagram::{Ref, Table};
use hp_synth::{Solved, Verdict};
use std::alloc::{AllocError, Global};

fn widths(m: &BoolMachine, wide: bool) -> Option<&[u16]>
    ensures { option_map (λ ns. ns.now) result ≡ said_widths wide m.now }
{
    if wide { Some(&m.widths) } else { None }
}

/// The certificate that a violation is forced, by the states from which it is.
pub fn lost_cert(
    alloc: Global,
    m: &BoolMachine,
    wide: bool,
    t: &Table,
    ranks: &[Ref],
) -> Result<Cert, CertErr>
    requires vars { t.now.vars ≡ variables m.now }
    requires ranks { AreRanks m.now t.now ranks.now }
    ensures is_of { IfOk result (IsOf m.now wide (proved.Lose (length ranks.now))) }
    ensures err { IfErr result (λ e. e ≡ cert_error.OutOfMemory) }
{
    // The proof wants the table's rules.
    let _vars = t.vars();
    lose_cert(alloc, t, &m.name, m.counts, widths(m, wide), ranks)
}

/// The certificate that nothing is forced, by the safe states.
fn won_cert(
    alloc: Global,
    m: &BoolMachine,
    wide: bool,
    solved: &mut Solved,
    inv: Ref,
) -> Result<Cert, CertErr>
    requires fits { variables m.now ≡ solved.old.table.vars }
    requires won { IsWon (game m.now) solved.old.table solved.old.verdict }
    requires inv { IsSafeSet m.now solved.old.table inv }
    ensures is_of { IfOk result (IsOf m.now wide proved.Win) }
    ensures err { IfErr result (λ e. e ≡ cert_error.OutOfMemory) }
{
    let funs = functions(alloc, solved, m)?;
    win_cert(
        alloc,
        &solved.table,
        &m.name,
        m.counts,
        widths(m, wide),
        inv,
        &funs,
    )
}

/// The certificate of what is found of a machine.
pub fn certificate(
    alloc: Global,
    m: &BoolMachine,
    wide: bool,
    solved: &mut Solved,
) -> Result<Cert, CertErr>
    requires fits { variables m.now ≡ solved.old.table.vars }
    requires solved { IsSolved (game m.now) solved.old.table solved.old.verdict }
    ensures found { IfOk result (IsFound m.now wide) }
    ensures err { IfErr result (λ e. e ≡ cert_error.OutOfMemory) }
{
    match &solved.verdict {
        Verdict::Win { inv } => {
            let inv = *inv;
            won_cert(alloc, m, wide, solved, inv)
        }
        Verdict::Lose { ranks } => lost_cert(alloc, m, wide, &solved.table, ranks),
    }
}

/// The text of a certificate, if it is not too long.
pub fn short_text(alloc: Global, cert: &Cert) -> Result<Option<Vec<u8>>, AllocError>
    ensures { IfOk result (λ text. MatchOption text (most what.Text < length (cert_text cert.now)) (λ t. (t.items ≡ cert_text cert.now) × (length t.items ≤ most what.Text))) }
{
    match write_cert(alloc, cert) {
        Ok(text) => Ok(Some(text)),
        Err(CertErr::OutOfMemory) => Err(AllocError),
        Err(_) => Ok(None),
    }
}

/// The text of a certificate, which must not be too long.
pub fn text_of(alloc: Global, cert: &Cert) -> Result<Vec<u8>, ContractErr>
    ensures text { IfOk result (λ text. text.items ≡ cert_text cert.now) }
    ensures within { IfOk result (λ text. length text.items ≤ most what.Text) }
    ensures refused { IfErr result (λ e. (e ≡ error.OutOfMemory) ⊎ ((e ≡ error.TooLong) × (most what.Text < length (cert_text cert.now)))) }
{
    match short_text(alloc, cert)? {
        Some(text) => Ok(text),
        None => Err(ContractErr::TooLong),
    }
}
