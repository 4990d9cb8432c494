//! The laws of the game.
ghost use Rattle.hp_boolx.specs.Laws.{FormLaw, ForcedLaw, StopLaw, WinLaw, LoseLaw, PermittedLaw, PermissiveLaw, ChoiceLaw, OneChoiceLaw, WinProofLaw, LoseProofLaw, WinCertificateLaw, LoseCertificateLaw};

/// The solver's sets are those of the game.
pub fn forced_is_decided()
    ensures form { FormLaw }
    ensures forced { ForcedLaw }
    ensures stop { StopLaw }
{}

/// What the rounds give when they end.
pub fn rounds_solve()
    ensures win { WinLaw }
    ensures lose { LoseLaw }
{}

/// Where nothing is forced something is permitted, and the preferred choice is found bit by bit.
pub fn choice_is_found()
    ensures some { PermittedLaw }
    ensures permissive { PermissiveLaw }
    ensures found { ChoiceLaw }
    ensures one { OneChoiceLaw }
{}

/// A certificate is a proof, and what is solved has one.
pub fn certificates_prove()
    ensures win { WinProofLaw }
    ensures lose { LoseProofLaw }
    ensures of_win { WinCertificateLaw }
    ensures of_lose { LoseCertificateLaw }
{}
