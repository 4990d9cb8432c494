//! Natives: that a function is asked in place of its machine, which no clause can tell since both answer alike.
ghost use Rattle.std.specs.Prelude.{◌≡◌, ◌∷◌, []};
ghost use Rattle.hp_base.specs.Kinds.{Ints, AreOfKinds};
ghost use Rattle.hp_native.specs.Natively.{outputs_of};
ghost use Rattle.hp_native.specs.Order.{min_machine};

use crate::executors::{input_count, output_count};
use hp_base::Value;
use hp_exec::Exec;
use hp_native::{Answer, Linked, Native, give_lesser, link, min_machine};
use hp_obctext::read_obc;
use std::cell::Cell;
use std::rc::Rc;
use std::test::Fail;

/// A machine that gives its input, but 10 at most, by a call of `min`.
const LIMITER: &[u8] =
    b"obc 1 machine min in ( a : int , b : int ) out ( m : int ) var ( t : bool ) mem ( ) inst ( ) step set t @lt a b set m @mux t a b end \
    machine lim in ( x : int ) out ( y : int ) var ( ) mem ( ) inst ( i : min ) step call i ( y ) ( x 10 ) end";

/// The same, where `min` has another name for its first input.
const OTHER: &[u8] =
    b"obc 1 machine min in ( c : int , b : int ) out ( m : int ) var ( t : bool ) mem ( ) inst ( ) step set t @lt c b set m @mux t c b end \
    machine lim in ( x : int ) out ( y : int ) var ( ) mem ( ) inst ( i : min ) step call i ( y ) ( x 10 ) end";

/// What a step of a machine with one input and one output gives, in which natives answer.
fn stepped(exec: &mut Exec, linked: &Linked<'_, Native>, input: i32) -> Value {
    let mut outputs = [Value::Absent];
    if input_count(exec) == 1 && output_count(exec) == 1 {
        exec.step_with(0, &[Value::I(input)], &mut outputs, linked);
    }
    outputs[0]
}

/// Whether the native of `min` was asked in a step of `lim` on an input, and what the step gave.
fn asked_in(rt: &impl AllocGlobal, text: &[u8], input: i32) -> Result<(bool, Value), Fail> {
    let flag = Rc::new(rt.alloc(), Cell::new(false))?;
    let asked = flag.clone()?;
    let answer: Answer = Box::new(
        rt.alloc(),
        move |args: &[Value], outs: &mut [Value]|
            requires ins { AreOfKinds (Ints ∷ Ints ∷ []) args.now }
            requires outs { AreOfKinds (Ints ∷ []) outs.old }
            ensures { outs.new ≡ outputs_of [] min_machine args.now }
        {
            asked.set(true);
            give_lesser(args, outs);
        },
    )?;
    let natives = [Native::new(min_machine(rt.alloc())?, answer)];
    let file = read_obc(rt.alloc(), text)?;
    let mut exec = Exec::new(rt.alloc(), &file, "lim")?;
    let linked = link(rt.alloc(), &file, &natives)?;
    let given = stepped(&mut exec, &linked, input);
    Ok((flag.get(), given))
}

#[test]
fn a_native_answers_in_place_of_its_machine(rt: HostRuntime) -> Result<(), Fail> {
    assert_eq!(rt; asked_in(&rt, LIMITER, 4)?, (true, Value::I(4)));
    assert_eq!(rt; asked_in(&rt, LIMITER, 12)?, (true, Value::I(10)));
    Ok(())
}

#[test]
fn a_machine_with_another_name_is_left_to_itself(rt: HostRuntime) -> Result<(), Fail> {
    assert_eq!(rt; asked_in(&rt, OTHER, 4)?, (false, Value::I(4)));
    assert_eq!(rt; asked_in(&rt, OTHER, 12)?, (false, Value::I(10)));
    Ok(())
}
