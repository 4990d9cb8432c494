//! Certificates, read piece by piece.
ghost use Rattle.std.specs.Prelude.{◌≡◌, ◌<◌, ◌≤◌, ◌^◌, [], length, codes, option_map, IfOk};
ghost use Rattle.hp_cert.specs.Certtext.CertView.{claim_seen};
ghost use Rattle.hp_cert.specs.Certtext.Outcomes.{Gives};
ghost use Rattle.hp_cert.specs.Certtext.Reading as reading;
ghost use Rattle.hp_cert.specs.Certtext.Texts.{space, newline};

use crate::certtext::cert::{Cert, CertKind};
use crate::certtext::reader::Reader;
use hp_base::Name;
use hp_boolx::Counts;
use hp_lines::Stop;
use hp_quant::Line;

impl<'t> Reader<'t> {
    /// ` N`
    fn field(&mut self, end: usize) -> Result<usize, Stop>
        ensures read { Gives (λ n. n) result self.new (reading.field end self.old) }
        ensures below { IfOk result (λ n. n < end) }
    {
        self.fixed(b" ")?;
        self.number(0, end.min(4_294_967_296))
    }

    /// ` N`, where the number has 16 bits
    fn short(&mut self) -> Result<u16, Stop>
        ensures { Gives (λ n. n) result self.new (reading.field 65536 self.old) }
    {
        let n = self.field(65_536)?;
        Ok(n as u16)
    }

    /// `hept-cert 2`, where widths are said, or else `hept-cert 1`
    fn heading(&mut self) -> Result<bool, Stop>
        ensures { Gives (λ b. b) result self.new (reading.heading self.old) }
    {
        self.fixed(b"hept-cert")?;
        self.fixed(b" ")?;
        let said = self.either(b"2", b"1")?;
        self.fixed(b"\n")?;
        Ok(said)
    }

    /// `node NAME`
    fn node(&mut self) -> Result<&'t [u8], Stop>
        ensures read { Gives (λ w. w.now) result self.new (reading.node self.old) }
        ensures short { IfOk result (λ w. length w.now ≤ 270) }
    {
        self.fixed(b"node")?;
        self.fixed(b" ")?;
        let name = self.name()?;
        self.fixed(b"\n")?;
        Ok(name)
    }

    /// `kind win`, or else `kind lose`
    fn is_win(&mut self) -> Result<bool, Stop>
        ensures { Gives (λ b. b) result self.new (reading.is_win self.old) }
    {
        self.fixed(b"kind")?;
        self.fixed(b" ")?;
        let wins = self.either(b"win", b"lose")?;
        self.fixed(b"\n")?;
        Ok(wins)
    }

    /// `vars REGISTERS EARLY CONTROL LATE`
    fn counts(&mut self) -> Result<Counts, Stop>
        ensures { Gives (λ c. c) result self.new (reading.counts self.old) }
    {
        self.fixed(b"vars")?;
        let registers = self.short()?;
        let early = self.short()?;
        let control = self.short()?;
        let late = self.short()?;
        self.fixed(b"\n")?;
        Ok(Counts {
            registers,
            early,
            control,
            late,
        })
    }

    fn width(&mut self) -> Result<u16, Stop>
        ensures { Gives (λ n. n) result self.new (reading.number 0 65536 self.old) }
    {
        let n = self.number(0, 65_536)?;
        Ok(n as u16)
    }

    /// `controls WIDTH ..`
    fn widths(&mut self) -> Result<Vec<u16>, Stop>
        ensures { Gives (λ ns. ns.items) result self.new (reading.widths self.old) }
    {
        self.fixed(b"controls")?;
        let mut widths = Vec::new(self.alloc);
        while self.either(b" ", b"\n")? {
            widths.push(self.width()?)?;
        }
        Ok(widths)
    }

    fn said_widths(&mut self, said: bool) -> Result<Option<Vec<u16>>, Stop>
        ensures { Gives (λ o. option_map (λ ns. ns.items) o) result self.new (reading.said_widths said self.old) }
    {
        if said {
            Ok(Some(self.widths()?))
        } else {
            Ok(None)
        }
    }

    /// ` N VAR LOW HIGH`, behind so many lines
    fn line(&mut self, before: usize) -> Result<Line, Stop>
        requires { before < 2 ^ 63 }
        ensures { Gives (λ l. l) result self.new (reading.line before self.old) }
    {
        self.fixed(b" ")?;
        self.decimal(before + 2)?;
        let var = self.short()?;
        let low = self.field(before + 2)?;
        let high = self.field(before + 2)?;
        self.fixed(b"\n")?;
        Ok(Line { var, low, high })
    }

    /// Lines that begin with `d`, up to one that begins with another word.
    fn lines(&mut self, stop: &[u8]) -> Result<Vec<Line>, Stop>
        ensures { Gives (λ ls. ls.items) result self.new (reading.lines stop.now self.old) }
    {
        let mut lines = Vec::new(self.alloc);
        while self.either(b"d", stop)? {
            lines.push(self.line(lines.len())?)?;
        }
        Ok(lines)
    }

    /// ` REF`, behind the word of a line
    fn ref_line(&mut self, end: usize) -> Result<usize, Stop>
        ensures { Gives (λ n. n) result self.new (reading.ref_line end self.old) }
    {
        let r = self.field(end)?;
        self.fixed(b"\n")?;
        Ok(r)
    }

    /// Lines that begin with `fun`, up to the word `end`.
    fn funs(&mut self, end: usize) -> Result<Vec<usize>, Stop>
        ensures { Gives (λ rs. rs.items) result self.new (reading.until (codes "fun") (codes "end") (reading.fun end) [] self.old) }
    {
        let mut funs = Vec::new(self.alloc);
        while self.either(b"fun", b"end")? {
            funs.push(self.ref_line(end)?)?;
        }
        Ok(funs)
    }

    /// `rank K REF`, behind so many ranks
    fn rank(&mut self, end: usize, before: usize) -> Result<usize, Stop>
        requires { before < 2 ^ 63 }
        ensures { Gives (λ n. n) result self.new (reading.rank end before self.old) }
    {
        self.fixed(b"rank")?;
        self.fixed(b" ")?;
        self.decimal(before + 1)?;
        self.ref_line(end)
    }

    fn ranks(&mut self, end: usize, count: usize) -> Result<Vec<usize>, Stop>
        ensures { Gives (λ rs. rs.items) result self.new (reading.times (reading.rank end) count [] self.old) }
    {
        let mut ranks = Vec::new(self.alloc);
        for _i in 0..count {
            ranks.push(self.rank(end, ranks.len())?)?;
        }
        Ok(ranks)
    }

    /// The lines of a win, up to the word `end`.
    fn won(&mut self) -> Result<(Vec<Line>, CertKind), Stop>
        ensures { Gives (λ p. (p.0.items, claim_seen p.1)) result self.new (reading.won self.old) }
    {
        let lines = self.lines(b"inv")?;
        let end = lines.len() + 2;
        let inv = self.ref_line(end)?;
        let funs = self.funs(end)?;
        Ok((lines, CertKind::Win { inv, funs }))
    }

    /// `least COUNT`, behind its word
    fn least(&mut self) -> Result<usize, Stop>
        ensures { Gives (λ n. n) result self.new (reading.least self.old) }
    {
        self.fixed(b" ")?;
        let count = self.number(1, 4_294_967_296)?;
        self.fixed(b"\n")?;
        Ok(count)
    }

    /// The lines of a lose, up to the word `end`.
    fn lost(&mut self) -> Result<(Vec<Line>, CertKind), Stop>
        ensures { Gives (λ p. (p.0.items, claim_seen p.1)) result self.new (reading.lost self.old) }
    {
        let lines = self.lines(b"least")?;
        let end = lines.len() + 2;
        let count = self.least()?;
        let ranks = self.ranks(end, count)?;
        self.fixed(b"end")?;
        Ok((lines, CertKind::Lose { ranks }))
    }

    fn proved(&mut self, wins: bool) -> Result<(Vec<Line>, CertKind), Stop>
        ensures { Gives (λ p. (p.0.items, claim_seen p.1)) result self.new (reading.proved wins self.old) }
    {
        if wins { self.won() } else { self.lost() }
    }

    /// All lines of a certificate.
    fn body(&mut self) -> Result<Cert, Stop>
        ensures { Gives (λ c. c) result self.new (reading.body self.old) }
    {
        let said = self.heading()?;
        let node = self.node()?;
        let wins = self.is_win()?;
        let counts = self.counts()?;
        let widths = self.said_widths(said)?;
        let (lines, kind) = self.proved(wins)?;
        self.fixed(b"\n")?;
        Ok(Cert {
            node: Name::new(self.alloc, node)?,
            counts,
            widths,
            lines,
            kind,
        })
    }

    /// A certificate, behind which nothing stands.
    pub fn cert(&mut self) -> Result<Cert, Stop>
        ensures { Gives (λ c. c) result self.new (reading.cert self.old) }
    {
        let cert = self.body()?;
        if self.is_empty() {
            Ok(cert)
        } else {
            Err(Stop::Refused)
        }
    }
}
