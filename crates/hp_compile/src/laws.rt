//! What holds of every text. The functions here do nothing: each is a law, which its contract states.
ghost use Rattle.hp_compile.specs.OneCause.{NoCauseLaw, OneCauseLaw};
ghost use Rattle.hp_compile.specs.OneWalk.{BreachLaw, FormedLaw};

/// A text is refused for one cause at most, and for none where it has an accepted program.
pub fn one_cause()
    ensures one { OneCauseLaw }
    ensures none { NoCauseLaw }
{}

/// Counts and shapes that are said of a program in one walk over its tree are those of the program with its inlined calls replaced.
pub fn one_walk()
    ensures formed { FormedLaw }
    ensures breach { BreachLaw }
{}
