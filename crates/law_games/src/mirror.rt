//! The Boolean machine of a node's contract: what it mirrors, and that the game on it is the game of the contract.
//!
//! The functions here do nothing: each is a law, which its contract states.
#![tactic(auto)]

ghost use Rattle.law_games.specs.Mirror.Choices.{SameMemoryChoiceLaw, SameMemoryPermittedLaw, SomeMemoryChoiceLaw};
ghost use Rattle.law_games.specs.Mirror.FilledHistories.{SameFilledGameLaw, SameFilledSafeLaw};
ghost use Rattle.law_games.specs.Mirror.Histories.{SameAtFirstLaw, SameChoiceLaw, SameGameLaw, SamePermittedLaw, SameSafeLaw};
ghost use Rattle.law_games.specs.Mirror.Memories.{SameMemoryAtFirstLaw, SameMemoryGameLaw, SameMemorySafeLaw};

/// A machine that mirrors a node has the game on the node's memories: what is forced from a memory in shape is forced from its bits, and so for what is safe.
pub fn memories_are_kept()
    ensures forced { SameMemoryGameLaw }
    ensures safe { SameMemorySafeLaw }
    ensures at_first { SameMemoryAtFirstLaw }
{}

/// What may be chosen at a memory is what the machine may choose at its bits, and where these are preferred as values are, the machine's choice is the greatest permitted one. Some choice is permitted wherever nothing is ever forced.
pub fn choices_are_kept()
    ensures permitted { SameMemoryPermittedLaw }
    ensures chosen { SameMemoryChoiceLaw }
    ensures some { SomeMemoryChoiceLaw }
{}

/// So it has the game on the node's histories without Nil: what is forced after one is forced from the bits that it leaves, and nothing is ever forced at first exactly where the machine is safe.
pub fn filled_histories_are_kept()
    ensures forced { SameFilledGameLaw }
    ensures safe { SameFilledSafeLaw }
{}

/// A machine that follows the histories of a node has the game of the node's contract: what is forced after a history is forced from the registers that it leaves, and so for what is safe and what is permitted.
pub fn game_is_kept()
    ensures forced { SameGameLaw }
    ensures safe { SameSafeLaw }
    ensures at_first { SameAtFirstLaw }
    ensures permitted { SamePermittedLaw }
{}

/// Where the machine prefers what is preferred of choices, its choice is the greatest permitted one.
pub fn choice_is_kept()
    ensures { SameChoiceLaw }
{}
