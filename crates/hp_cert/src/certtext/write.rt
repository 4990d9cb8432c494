//! Certificates that are written.
ghost use Rattle.std.specs.Prelude.{◌≡◌, ◌<◌, ◌≤◌, ◌+◌, ◌∷◌, [], length, codes, option_map, OnOk, IfOk, IfErr};
ghost use Rattle.std.specs.Fmt.{decimal};
ghost use Rattle.hp_base.specs.Limits.{most};
ghost use Rattle.hp_base.specs.declared.limit.What.TheVariants as what;
ghost use Rattle.hp_cert.specs.Certtext.CertView.{claim_seen};
ghost use Rattle.hp_cert.specs.Certtext.Texts as text;
ghost use Rattle.hp_cert.specs.Certtext.Texts.{cert_text};
ghost use Rattle.hp_cert.specs.Certtext.Written.{written, DoesNotFit};

use crate::certtext::cert::{Cert, CertKind};
use crate::certtext::error::CertErr;
use crate::certtext::page::Page;
use hp_base::{Limit, What};
use hp_boolx::Counts;
use hp_quant::Line;
use std::alloc::{AllocError, Global};

#[tactic(auto, using(crate::proofs::CerttextLemmas::WrittenLaws::writing))]
impl Page {
    /// `vars REGISTERS EARLY CONTROL LATE`
    fn counts(&mut self, counts: Counts) -> Result<(), AllocError>
        ensures { OnOk result (self.new ≡ written self.old (text.line (codes "vars") (text.decimals (counts.registers ∷ counts.early ∷ counts.control ∷ counts.late ∷ [])))) }
    {
        self.piece(b"vars")?;
        self.number(usize::from(counts.registers))?;
        self.number(usize::from(counts.early))?;
        self.number(usize::from(counts.control))?;
        self.number(usize::from(counts.late))?;
        self.piece(b"\n")?;
        Ok(())
    }

    fn numbers(&mut self, numbers: &[u16]) -> Result<(), AllocError>
        ensures { OnOk result (self.new ≡ written self.old (text.spaced (text.decimals numbers.now))) }
    {
        for number in numbers {
            self.number(usize::from(*number))?;
        }
        Ok(())
    }

    /// `controls WIDTH ..`, where widths are said
    fn controls(&mut self, widths: Option<&Vec<u16>>) -> Result<(), AllocError>
        ensures { OnOk result (self.new ≡ written self.old (text.controls (option_map (λ ns. ns.now.items) widths.entry))) }
    {
        let Some(widths) = widths else {
            return Ok(());
        };
        self.piece(b"controls")?;
        self.numbers(widths)?;
        self.piece(b"\n")?;
        Ok(())
    }

    /// `d N VAR LOW HIGH`
    fn line(&mut self, number: usize, line: Line) -> Result<(), AllocError>
        ensures { OnOk result (self.new ≡ written self.old (text.line (codes "d") (text.decimals (number ∷ line.var ∷ line.low ∷ line.high ∷ [])))) }
    {
        self.piece(b"d")?;
        self.number(number)?;
        self.number(usize::from(line.var))?;
        self.number(line.low)?;
        self.number(line.high)?;
        self.piece(b"\n")?;
        Ok(())
    }

    fn lines(&mut self, lines: &[Line]) -> Result<(), AllocError>
        ensures { OnOk result (self.new ≡ written self.old (text.lines 2 lines.now)) }
    {
        for i in 0..lines.len() {
            self.line(i + 2, lines[i])?;
        }
        Ok(())
    }

    /// `fun REF` for each function
    fn funs(&mut self, funs: &[usize]) -> Result<(), AllocError>
        ensures { OnOk result (self.new ≡ written self.old (text.funs funs.now)) }
    {
        for r in funs {
            self.counted(b"fun", *r)?;
        }
        Ok(())
    }

    /// `rank K REF`
    fn rank(&mut self, number: usize, r: usize) -> Result<(), AllocError>
        ensures { OnOk result (self.new ≡ written self.old (text.line (codes "rank") (text.decimals (number ∷ r ∷ [])))) }
    {
        self.piece(b"rank")?;
        self.number(number)?;
        self.number(r)?;
        self.piece(b"\n")?;
        Ok(())
    }

    fn ranks(&mut self, ranks: &[usize]) -> Result<(), AllocError>
        ensures { OnOk result (self.new ≡ written self.old (text.ranks 1 ranks.now)) }
    {
        for i in 0..ranks.len() {
            self.rank(i + 1, ranks[i])?;
        }
        Ok(())
    }

    /// A line of a word and a number.
    fn counted(&mut self, word: &[u8], number: usize) -> Result<(), AllocError>
        ensures { OnOk result (self.new ≡ written self.old (text.line word.now (text.decimals (number ∷ [])))) }
    {
        self.piece(word)?;
        self.number(number)?;
        self.piece(b"\n")?;
        Ok(())
    }

    /// What is proved.
    fn claim(&mut self, kind: &CertKind) -> Result<(), AllocError>
        ensures { OnOk result (self.new ≡ written self.old (text.claim (claim_seen kind.now))) }
    {
        match kind {
            CertKind::Win { inv, funs } => {
                self.counted(b"inv", *inv)?;
                self.funs(funs)
            }
            CertKind::Lose { ranks } => {
                self.counted(b"least", ranks.len())?;
                self.ranks(ranks)
            }
        }
    }

    fn version(&mut self, widths: Option<&Vec<u16>>) -> Result<(), AllocError>
        ensures { OnOk result (self.new ≡ written self.old (text.line (codes "hept-cert") (text.version (option_map (λ ns. ns.now.items) widths.entry) ∷ []))) }
    {
        match widths {
            None => self.words(b"hept-cert", b"1"),
            Some(_) => self.words(b"hept-cert", b"2"),
        }
    }

    fn kind(&mut self, kind: &CertKind) -> Result<(), AllocError>
        ensures { OnOk result (self.new ≡ written self.old (text.line (codes "kind") (text.kind (claim_seen kind.now) ∷ []))) }
    {
        match kind {
            CertKind::Win { .. } => self.words(b"kind", b"win"),
            CertKind::Lose { .. } => self.words(b"kind", b"lose"),
        }
    }

    #[tactic(auto, unfolding(crate::specs::Certtext::Texts::cert_pieces), using(crate::proofs::CerttextLemmas::WrittenLaws::writing))]
    fn cert(&mut self, c: &Cert) -> Result<(), AllocError>
        ensures { OnOk result (self.new ≡ written self.old (text.cert_pieces c.now)) }
    {
        let widths = c.widths.as_ref();
        self.version(widths)?;
        self.words(b"node", c.node.bytes())?;
        self.kind(&c.kind)?;
        self.counts(c.counts)?;
        self.controls(widths)?;
        self.lines(&c.lines)?;
        self.claim(&c.kind)?;
        self.piece(b"end")?;
        self.piece(b"\n")?;
        Ok(())
    }
}

/// The text of a certificate, or the limit, where it has more than 67,108,864 bytes.
pub fn write_cert(alloc: Global, c: &Cert) -> Result<Vec<u8>, CertErr>
    ensures text { IfOk result (λ text. text.items ≡ cert_text c.now) }
    ensures within { IfOk result (λ text. length text.items ≤ most what.Text) }
    ensures refused { IfErr result (DoesNotFit (cert_text c.now)) }
{
    let mut page = Page::new(alloc);
    page.cert(c)?;
    let text = page.text();
    let limit = What::Text.most();
    if text.len() as u64 > limit {
        return Err(CertErr::Limit(Limit {
            what: What::Text,
            found: limit + 1,
        }));
    }
    Ok(text)
}
