//! Laws on calls. The functions here do nothing: each is a law, which its contract states.
ghost use Rattle.hp_driver.specs.GoodCalls.{PlainLaw, ProvedLaw};
ghost use Rattle.hp_driver.specs.Joined.{ContinuedLaw, JoinedLaw, JoinedRunLaw, LeftLaw, OneMemoryLaw, ResumedLaw, TakenAgainLaw, TakenLaw};
ghost use Rattle.hp_driver.specs.Mirrored.{MirrorLaw};
ghost use Rattle.hp_driver.specs.Written.{WrittenLaw};

use hp_meaning::clocking::one_shortest_assignment;
use law_controlled::programs_that_choose_have_one_list_of_machines;
use law_decided::machines_mirror_contracts;
use law_wellmade::lettered::names_are_spelled;

/// `exec` says of the text that `compile` writes what `run` says of its program, also where machines of contracts stand in it.
pub fn written_machines_agree_with_nodes()
    ensures { WrittenLaw }
{}

/// Of the contracts of a program without contracts nothing is asked, that a call over it be one of which nothing is wrong.
pub fn plain_programs_are_good()
    ensures { PlainLaw }
{}

/// What `prove` writes of a contract that can be decided is a text of which nothing is wrong for `verify`.
pub fn written_certificates_are_good()
    ensures { ProvedLaw }
{
    names_are_spelled();
}

/// The machine of a contract, of which rows on certificates speak, mirrors the node.
pub fn machines_of_contracts_mirror_nodes()
    ensures { MirrorLaw }
{
    machines_mirror_contracts();
}

/// A run that is stopped and resumed is one run. What is said to some lines, and from the memory behind them to more lines, is what is said to all of them, where none has a fault and they are few enough for one trace; and the memory behind them is the same. So it is of a call of `save` and one of `resume` over one text, and of any number of `resume` behind it; and what each leaves the next one takes.
pub fn stopped_runs_are_joined()
    ensures lines { JoinedLaw }
    ensures runs { JoinedRunLaw }
    ensures resumed { ResumedLaw }
    ensures continued { ContinuedLaw }
    ensures taken { TakenAgainLaw }
    ensures left { LeftLaw }
{
    one_shortest_assignment();
    programs_that_choose_have_one_list_of_machines();
}

/// A machine that is run takes the checkpoint of each of its memories, and no text is the checkpoint of two.
pub fn checkpoints_are_memories()
    ensures taken { TakenLaw }
    ensures one { OneMemoryLaw }
{}
