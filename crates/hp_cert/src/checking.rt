//! Certificates, checked.
ghost use Rattle.std.specs.Prelude.{◌≡◌, ◌+◌, ◌⊎◌, ℕ, length, IfOk, IfErr};
ghost use Rattle.hp_boolx.specs.Game.{Safe, Forced};
ghost use Rattle.hp_boolx.specs.Machine.{game};
ghost use Rattle.hp_cert.specs.Checked.{Proves, Refuses};
ghost use Rattle.hp_cert.specs.Proving.{Fits, HoldsAtFirst};
ghost use Rattle.hp_cert.specs.Certtext.Certificates.{AreLines, IsClaim};
ghost use Rattle.hp_cert.specs.declared.certtext.error.CertErr as refusal;

use crate::certtext::{Cert, CertErr, CertKind, Cond};
use crate::conditions::{first_failing, holds_at_first, keeps};
use crate::fits::fits;
use hp_boolx::BoolMachine;
use std::alloc::Global;

/// What a certificate proves.
#[derive(Clone, Copy, Debug, PartialEq, Eq)]
pub enum Proved {
    /// Nothing is forced.
    Win,
    /// A violation is forced within so many instants.
    Lose { instants: u64 },
}

/// What is proved by a certificate that fits, and holds at first.
fn shown(alloc: Global, m: &BoolMachine, c: &Cert) -> Result<Proved, CertErr>
    requires lines { AreLines 2 c.now.lines }
    requires claim { IsClaim (length c.now.lines + 2) c.now.claim }
    requires fits { Fits m.now c.now }
    requires first { HoldsAtFirst m.now c.now c.now.claim }
    ensures proved { IfOk result (Proves m.now c.now) }
    ensures refused { IfErr result (Refuses m.now c.now) }
{
    match &c.kind {
        CertKind::Win { inv, funs } => {
            if keeps(alloc, m, &c.lines, *inv, funs)? {
                Ok(Proved::Win)
            } else {
                Err(CertErr::Fails(Cond::Step))
            }
        }
        CertKind::Lose { ranks } => match first_failing(alloc, m, &c.lines, ranks)? {
            None => Ok(Proved::Lose {
                instants: ranks.len() as u64,
            }),
            Some(k) => Err(CertErr::Fails(Cond::Rank(k as u64 + 1))),
        },
    }
}

/// What a certificate proves of a machine, or why it is refused: first what does not fit, then the first condition that fails. Lines need not be reduced nor in the order
/// of variables, and those that are not reached are looked at for their variables alone.
pub fn check(alloc: Global, m: &BoolMachine, c: &Cert) -> Result<Proved, CertErr>
    requires lines { AreLines 2 c.now.lines }
    requires claim { IsClaim (length c.now.lines + 2) c.now.claim }
    ensures proved { IfOk result (Proves m.now c.now) }
    ensures refused { IfErr result (Refuses m.now c.now) }
    ensures win { result ≡ Ok Proved.Win → Safe (game m.now) m.now.init }
    ensures lose { (n : ℕ) → result ≡ Ok (Proved.Lose n) → Forced (game m.now) n m.now.init }
    ensures accepted { (p : Proved) → Proves m.now c.now p → (result ≡ Ok p) ⊎ (result ≡ Err CertErr.OutOfMemory) }
    ensures exact { (e : refusal.CertErr) → Refuses m.now c.now e → (result ≡ Err e) ⊎ (result ≡ Err CertErr.OutOfMemory) ⊎ (e ≡ CertErr.OutOfMemory) }
{
    let _vars = m.vars();
    fits(alloc, m, c)?;
    if !holds_at_first(m, c) {
        return Err(CertErr::Fails(Cond::Init));
    }
    shown(alloc, m, c)
}
