//! The call of the tool in which natives answer for `min` and `max`.
ghost use Rattle.std.specs.Prelude.{◌≡◌, ◌∷◌, [], map};
ghost use Rattle.std.specs.String.{string_bytes};
ghost use Rattle.hp_base.specs.Kinds.{Ints, AreOfKinds};
ghost use Rattle.hp_native.specs.Natively.{outputs_of};
ghost use Rattle.hp_native.specs.Order.{min_machine, max_machine};
ghost use Rattle.hp_driver.specs.Calls.{IsCall, moment};

use crate::resources::Extras;
use crate::status::Status;
use crate::tool::run_tool;
use hp_base::Value;
use hp_io::{Console, Folder, Sink};
use hp_native::{Native, give_greater, give_lesser, max_machine, min_machine};
use std::alloc::Global;

/// Does what the words say, as `run_tool`, with natives for `min` and `max`. Where there is no memory for these the status is 6, and nothing is done.
pub fn run_tool_with_order<F: Folder, C: Console, E: Sink>(
    alloc: Global,
    words: &[String],
    files: &mut F,
    console: &mut C,
    diag: &mut E,
) -> u8
    ensures { IsCall (map string_bytes words.now)
        (moment (F.files files.old) (F.reads files.old) (F.write_faults files.old) (C.events console.old) (C.left console.old)
        (C.take_faults console.old) (C.put_faults console.old) (E.took diag.old) (E.faults diag.old))
        (moment (F.files files.new) (F.reads files.new) (F.write_faults files.new) (C.events console.new) (C.left console.new)
        (C.take_faults console.new) (C.put_faults console.new) (E.took diag.new) (E.faults diag.new))
        result }
{
    let (Ok(least), Ok(greatest)) = (min_machine(alloc), max_machine(alloc)) else {
        return Status::NoMemory.code();
    };
    let Ok(lesser) = Box::new(
        alloc,
        |args: &[Value], outs: &mut [Value]|
            requires ins { AreOfKinds (Ints ∷ Ints ∷ []) args.now }
            requires outs { AreOfKinds (Ints ∷ []) outs.old }
            ensures { outs.new ≡ outputs_of [] min_machine args.now }
        { give_lesser(args, outs) },
    ) else {
        return Status::NoMemory.code();
    };
    let Ok(greater) = Box::new(
        alloc,
        |args: &[Value], outs: &mut [Value]|
            requires ins { AreOfKinds (Ints ∷ Ints ∷ []) args.now }
            requires outs { AreOfKinds (Ints ∷ []) outs.old }
            ensures { outs.new ≡ outputs_of [] max_machine args.now }
        { give_greater(args, outs) },
    ) else {
        return Status::NoMemory.code();
    };
    let order = [Native::new(least, lesser), Native::new(greatest, greater)];
    let Ok(natives) = Vec::from_array(alloc, order) else {
        return Status::NoMemory.code();
    };
    let extras = Extras { alloc, natives };
    run_tool(&extras, words, files, console, diag)
}
