//! Laws of certificates: the functions here do nothing, and their contracts say what is so.
ghost use Rattle.hp_verdicts.specs.Laws.{CertificateLaw, LinesLaw, LongLaw, NodeLongLaw, NodeLossLaw, NodeShownLaw, NodeTextLaw, NodeWrittenLaw, TextLaw};

/// A machine has no two certificates. So it has no two texts of them, and no text where that of its certificate is too long; and so it is of a node, whose machines have one game. What shows something of one of them is refused by none.
pub fn certificates_are_one()
    ensures lines { LinesLaw }
    ensures certificate { CertificateLaw }
    ensures text { TextLaw }
    ensures long { LongLaw }
    ensures node_text { NodeTextLaw }
    ensures node_long { NodeLongLaw }
    ensures node_loss { NodeLossLaw }
    ensures node_shown { NodeShownLaw }
    ensures node_written { NodeWrittenLaw }
{}
