ghost use Rattle.hp_compile.specs.Refusals.{of_lexing, of_parsing, of_names, of_types, of_expanding, of_clocks, of_init, of_cause};
ghost use Rattle.std.specs.Prelude.{◌≡◌};

use hp_base::{Limit, Span, What};
use hp_cause::CauseErr;
use hp_clocks::ClockErr;
use hp_expand::ExpandErr;
use hp_init::InitErr;
use hp_lexer::LexErr;
use hp_names::NameErr;
use hp_parser::ParseErr;
use hp_typing::TypeErr;
use thiserror::Error;

/// Where a limit is passed.
#[derive(Clone, Copy, Debug)]
pub enum Place {
    /// In the text as a whole.
    Whole,
    /// At a place in it.
    At(Span),
}

/// Why a text is refused.
#[derive(Debug, Drop, Error)]
pub enum Refusal {
    #[error("a limit is passed")]
    Limit { place: Place, limit: Limit },
    /// No token begins at the place, a comment there does not end, or a number there is too large.
    #[error("no token")]
    Lex { span: Span },
    /// The tokens up to the one at the place begin no program; or the text ends there and is none.
    #[error("no program")]
    Parse { span: Span },
    /// The first breach of the rules on names. It is no want of memory.
    #[error("{0}")]
    Name(NameErr),
    /// The first wrong type, or where there is none the first wrong definition. It is no want of memory.
    #[error("{0}")]
    Types(TypeErr),
    /// The first breach of the shapes of contracts, or where there is none the first limit that a node passes. It is no want of memory.
    #[error("{0}")]
    Expand(ExpandErr),
    /// The first unit such that the units up to it allow no clocks, or where there is none the first clock that is too long. It is no want
    /// of memory.
    #[error("{0}")]
    Clocks(ClockErr),
    /// The first unit that wants a value from the first instant on which is not there. It is no want of memory.
    #[error("{0}")]
    Init(InitErr),
    /// Points that read each other in a circle at one instant. It is no want of memory.
    #[error("{0}")]
    Cause(CauseErr),
    #[error("out of memory")]
    OutOfMemory,
}

impl From<LexErr> for Refusal {
    ghost use Rattle.std.specs.Prelude.{◌≡◌};
    ghost use Rattle.hp_compile.specs.Refusals.{of_lexing};

    ghost from_gives = { λ e refusal. refusal ≡ of_lexing e };

    fn from(e: LexErr) -> Refusal {
        match e {
            LexErr::Bad { span } => Refusal::Lex { span },
            LexErr::Limit { span, limit } => Refusal::Limit {
                place: if limit.what == What::Size {
                    Place::Whole
                } else {
                    Place::At(span)
                },
                limit,
            },
            LexErr::OutOfMemory => Refusal::OutOfMemory,
        }
    }
}

impl From<ParseErr> for Refusal {
    ghost use Rattle.std.specs.Prelude.{◌≡◌};
    ghost use Rattle.hp_compile.specs.Refusals.{of_parsing};

    ghost from_gives = { λ e refusal. refusal ≡ of_parsing e };

    fn from(e: ParseErr) -> Refusal {
        match e {
            ParseErr::Bad { span } => Refusal::Parse { span },
            ParseErr::Limit { span, limit } => Refusal::Limit {
                place: Place::At(span),
                limit,
            },
            ParseErr::OutOfMemory => Refusal::OutOfMemory,
        }
    }
}

impl From<NameErr> for Refusal {
    ghost use Rattle.std.specs.Prelude.{◌≡◌};
    ghost use Rattle.hp_compile.specs.Refusals.{of_names};

    ghost from_gives = { λ e refusal. refusal ≡ of_names e };

    fn from(e: NameErr) -> Refusal {
        match e {
            NameErr::OutOfMemory => Refusal::OutOfMemory,
            e => Refusal::Name(e),
        }
    }
}

impl From<TypeErr> for Refusal {
    ghost use Rattle.std.specs.Prelude.{◌≡◌};
    ghost use Rattle.hp_compile.specs.Refusals.{of_types};

    ghost from_gives = { λ e refusal. refusal ≡ of_types e };

    fn from(e: TypeErr) -> Refusal {
        match e {
            TypeErr::OutOfMemory => Refusal::OutOfMemory,
            e => Refusal::Types(e),
        }
    }
}

impl From<ExpandErr> for Refusal {
    ghost use Rattle.std.specs.Prelude.{◌≡◌};
    ghost use Rattle.hp_compile.specs.Refusals.{of_expanding};

    ghost from_gives = { λ e refusal. refusal ≡ of_expanding e };

    fn from(e: ExpandErr) -> Refusal {
        match e {
            ExpandErr::OutOfMemory => Refusal::OutOfMemory,
            e => Refusal::Expand(e),
        }
    }
}

impl From<ClockErr> for Refusal {
    ghost use Rattle.std.specs.Prelude.{◌≡◌};
    ghost use Rattle.hp_compile.specs.Refusals.{of_clocks};

    ghost from_gives = { λ e refusal. refusal ≡ of_clocks e };

    fn from(e: ClockErr) -> Refusal {
        match e {
            ClockErr::OutOfMemory => Refusal::OutOfMemory,
            e => Refusal::Clocks(e),
        }
    }
}

impl From<InitErr> for Refusal {
    ghost use Rattle.std.specs.Prelude.{◌≡◌};
    ghost use Rattle.hp_compile.specs.Refusals.{of_init};

    ghost from_gives = { λ e refusal. refusal ≡ of_init e };

    fn from(e: InitErr) -> Refusal {
        match e {
            InitErr::OutOfMemory => Refusal::OutOfMemory,
            e => Refusal::Init(e),
        }
    }
}

impl From<CauseErr> for Refusal {
    ghost use Rattle.std.specs.Prelude.{◌≡◌};
    ghost use Rattle.hp_compile.specs.Refusals.{of_cause};

    ghost from_gives = { λ e refusal. refusal ≡ of_cause e };

    fn from(e: CauseErr) -> Refusal {
        match e {
            CauseErr::OutOfMemory => Refusal::OutOfMemory,
            e => Refusal::Cause(e),
        }
    }
}
