//! Certificates of contracts, checked.
ghost use Rattle.std.specs.Prelude.{◌≡◌, ◌⊎◌, IfOk, IfErr};
ghost use Rattle.hp_cert.specs.declared.checking.Proved as proof;
ghost use Rattle.hp_cert.specs.declared.certtext.error.CertErr as refusal;
ghost use Rattle.hp_verdicts.specs.Verified.{IsChecked, RefusesBy};

use hp_boolx::BoolMachine;
use hp_cert::certtext::{CertErr, read_cert};
use hp_cert::{Proved, check};
use std::alloc::Global;

/// What the text of a certificate proves of a contract's machine, whoever wrote it; or the first test that the text fails.
pub fn verify(alloc: Global, m: &BoolMachine, text: &[u8]) -> Result<Proved, CertErr>
    ensures checked { IfOk result (IsChecked m.now text.now) }
    ensures refused { IfErr result (RefusesBy m.now text.now) }
    ensures accepted { (p : proof.Proved) → IsChecked m.now text.now p → (result ≡ Ok p) ⊎ (result ≡ Err CertErr.OutOfMemory) }
    ensures exact { (e : refusal.CertErr) → RefusesBy m.now text.now e → (result ≡ Err e) ⊎ (result ≡ Err CertErr.OutOfMemory) ⊎ (e ≡ CertErr.OutOfMemory) }
{
    match read_cert(alloc, text) {
        Ok(cert) => check(alloc, m, &cert),
        Err(e) => Err(e),
    }
}
