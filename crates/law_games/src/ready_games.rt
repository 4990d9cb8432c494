//! Laws: the game of a contract in a ready program is the game on a Boolean machine that mirrors its node.
//!
//! The functions here do nothing: each is a law, which its contract states.
#![tactic(auto)]

ghost use Rattle.law_games.specs.ReadyGames.Laws.{ReadyContractsLaw, ReadyFilledGameLaw, ReadyFilledSafeLaw, ReadyFittingGameLaw, ReadyFittingSafeLaw, ReadyHistoryLaw, ReadyNilLaw, ReadySettledLaw, ReadyShapeLaw, StandsLaw, TextConditionsLaw, TextOrderLaw};

/// No contract of a ready program holds a call, where strong conditions are plain, as in the program of every text.
pub fn contracts_call_nothing()
    ensures text { TextConditionsLaw }
    ensures ready { ReadyContractsLaw }
{}

/// The program of a text that is judged, arranged and ordered is a ready one with ranks, and each node of a program stands behind others.
pub fn programs_of_texts_are_in_order()
    ensures order { TextOrderLaw }
    ensures stands { StandsLaw }
{}

/// Each node of a ready program has what the game on its memories asks: it is settled, and what its registers hold at first is in shape.
pub fn ready_nodes_are_settled()
    ensures settled { ReadySettledLaw }
    ensures shape { ReadyShapeLaw }
{}

/// Where a machine mirrors such a node, what is forced at first on histories without Nil is forced on the machine, and so for what is safe.
pub fn filled_games_are_kept()
    ensures forced { ReadyFilledGameLaw }
    ensures safe { ReadyFilledSafeLaw }
{}

/// And so for the game on the node's abstraction, Nil and all, where each given value is of its type: Nil does not bear.
pub fn fitting_games_are_kept()
    ensures nil { ReadyNilLaw }
    ensures forced { ReadyFittingGameLaw }
    ensures safe { ReadyFittingSafeLaw }
    ensures later { ReadyHistoryLaw }
{}
