//! Certificates that are read.
ghost use Rattle.std.specs.Prelude.{◌≡◌, ◌≤◌, ◌<◌, ◌+◌, ◌⊎◌, length, IfOk, IfErr};
ghost use Rattle.hp_base.specs.Limits.{most};
ghost use Rattle.hp_base.specs.declared.limit.What.TheVariants as what;
ghost use Rattle.hp_base.specs.declared.span.Span as place;
ghost use Rattle.hp_cert.specs.Certtext.Certificates as plain;
ghost use Rattle.hp_cert.specs.Certtext.Refusals.{IsRefused, Refuses};
ghost use Rattle.hp_cert.specs.Certtext.Texts.{IsCertText};

use crate::certtext::cert::Cert;
use crate::certtext::error::CertErr;
use crate::certtext::place::place_at;
use crate::certtext::reader::Reader;
use hp_base::{Limit, What};
use hp_lines::Stop;
use std::alloc::Global;

/// The certificate of a text within the limit.
fn parsed(alloc: Global, text: &[u8]) -> Result<Cert, CertErr>
    requires { length text.now ≤ most what.Text }
    ensures cert { IfOk result (IsCertText text.now) }
    ensures refused { IfErr result (Refuses text.now) }
    ensures read { (c : plain.Certificate) → IsCertText text.now c → (result ≡ Ok c) ⊎ (result ≡ Err CertErr.OutOfMemory) }
    ensures syntax { (span : place.Span) → IsRefused text.now span → (result ≡ Err (CertErr.Syntax span)) ⊎ (result ≡ Err CertErr.OutOfMemory) }
{
    let mut reader = Reader::new(alloc, text);
    match reader.cert() {
        Ok(cert) => Ok(cert),
        Err(Stop::Memory) => Err(CertErr::OutOfMemory),
        Err(Stop::Refused) => {
            let at = text.len() - reader.bytes();
            Err(CertErr::Syntax {
                span: place_at(text, at),
            })
        }
    }
}

/// The certificate of a text of at most 67,108,864 bytes. The time grows with the length of the text, and the memory with the number of its lines.
pub fn read_cert(alloc: Global, text: &[u8]) -> Result<Cert, CertErr>
    ensures cert { IfOk result (IsCertText text.now) }
    ensures within { IfOk result (λ c. length text.now ≤ most what.Text) }
    ensures refused { IfErr result (Refuses text.now) }
    ensures read { (c : plain.Certificate) → length text.now ≤ most what.Text → IsCertText text.now c → (result ≡ Ok c) ⊎ (result ≡ Err CertErr.OutOfMemory) }
    ensures syntax { (span : place.Span) → IsRefused text.now span → (result ≡ Err (CertErr.Syntax span)) ⊎ (result ≡ Err CertErr.OutOfMemory) }
    ensures too_long { most what.Text < length text.now → result ≡ Err (CertErr.Limit (record { what = what.Text; found = most what.Text + 1 })) }
{
    let limit = What::Text.most();
    if text.len() as u64 > limit {
        return Err(CertErr::Limit(Limit {
            what: What::Text,
            found: limit + 1,
        }));
    }
    parsed(alloc, text)
}
