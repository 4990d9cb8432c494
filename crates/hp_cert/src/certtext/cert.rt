use hp_base::Name;
use hp_boolx::Counts;
use hp_quant::Line;
use std::marker::Model;

/// What is proved of a machine. A reference is 0 for false, 1 for true, and from 2 on the number of a line.
#[derive(Debug, Drop)]
pub enum CertKind {
    /// Nothing is forced: a set of states, and a function for each control bit.
    Win { inv: usize, funs: Vec<usize> },
    /// A violation is forced: the states from which it is in one instant, in two, and so on.
    Lose { ranks: Vec<usize> },
}

/// A certificate: the machine that it speaks of, its lines, and what they prove of it.
#[derive(Debug, Drop)]
pub struct Cert {
    pub node: Name,
    pub counts: Counts,
    /// How many control bits each controllable variable has, if that is said.
    pub widths: Option<Vec<u16>>,
    pub lines: Vec<Line>,
    pub kind: CertKind,
}

impl Model for Cert {
    ghost use Rattle.hp_cert.specs.Certtext.Certificates.{Certificate};
    ghost use Rattle.hp_cert.specs.Certtext.CertView.{cert_seen};

    ghost Value = { Certificate };

    ghost view = { cert_seen };
}
