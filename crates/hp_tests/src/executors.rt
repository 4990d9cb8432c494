//! Executors: memory, reset and hooks.
ghost use Rattle.std.specs.Prelude.{◌≡◌, length};

use hp_base::Value;
use hp_exec::{Exec, ExecErr, Hook, Way};
use hp_obctext::read_obc;
use std::alloc::Global;
use std::process::Abort;
use std::test::Fail;

pub(crate) const DELAY: &[u8] =
    b"obc 1 machine f in ( x : bool ) out ( y : bool ) var ( ) mem ( m : bool = false ) inst ( ) step set y m set m x end";

/// A machine that calls a negation.
const CALLER: &[u8] =
    b"obc 1 machine d in ( x : bool ) out ( y : bool ) var ( ) mem ( ) inst ( ) step set y @not x end \
    machine f in ( x : bool ) out ( y : bool ) var ( ) mem ( ) inst ( i : d ) step call i ( y ) ( x ) end";

fn machine(alloc: Global, text: &[u8], name: &str) -> Result<Exec, Fail> {
    let obc = read_obc(alloc, text)?;
    Ok(Exec::new(alloc, &obc, name)?)
}

pub(crate) fn input_count(exec: &Exec) -> usize
    ensures { result ≡ length exec.now.signature.inputs }
{
    let signature = exec.signature();
    signature.inputs.len()
}

pub(crate) fn output_count(exec: &Exec) -> usize
    ensures { result ≡ length exec.now.signature.outputs }
{
    let signature = exec.signature();
    signature.outputs.len()
}

/// What a step of a machine with one input and one output gives.
pub(crate) fn stepped(exec: &mut Exec, input: bool) -> Value {
    let mut outputs = [Value::Absent];
    if input_count(exec) == 1 && output_count(exec) == 1 {
        exec.step(&[Value::B(input)], &mut outputs);
    }
    outputs[0]
}

fn check_delay(rt: &impl Abort, exec: &mut Exec) {
    assert_eq!(rt; exec.memory(), [Value::B(false)].as_slice());
    for (input, wanted) in [(true, false), (false, true), (true, false)] {
        assert_eq!(rt; stepped(exec, input), Value::B(wanted));
    }
    assert_eq!(rt; exec.memory(), [Value::B(true)].as_slice());
    exec.reset();
    assert_eq!(rt; exec.memory(), [Value::B(false)].as_slice());
}

#[test]
fn a_delay_gives_what_it_took(rt: HostRuntime) -> Result<(), Fail> {
    let mut exec = machine(rt.alloc(), DELAY, "f")?;
    check_delay(&rt, &mut exec);
    Ok(())
}

#[test]
fn no_machine_has_another_name(rt: HostRuntime) -> Result<(), Fail> {
    let obc = read_obc(rt.alloc(), DELAY)?;
    assert_eq!(rt;
        Exec::new(rt.alloc(), &obc, "g").err(),
        Some(ExecErr::NoNode)
    );
    Ok(())
}

/// A hook of the first machine of a file: from the instant 1 on it gives the arguments as outputs, where they are as many.
#[derive(Clone, Copy)]
struct Late(Way);

impl Hook for Late {
    ghost use Rattle.std.specs.Prelude.{◌&&◌, ◌==◌, nat_lt, length, if◌then◌else◌};
    ghost use Rattle.hp_exec.specs.declared.hook.Way.TheVariants.{Own};

    ghost means = { λ h. record {
      way = λ n. if n == 0 then h.0 else Own;
      answer = λ n t inputs outputs. if nat_lt 0 t && length inputs == length outputs then inputs else outputs;
    } };

    fn way(&self, machine: usize) -> Way {
        if machine == 0 { self.0 } else { Way::Own }
    }

    fn call(&self, _machine: usize, instant: u64, args: &[Value], outs: &mut [Value]) {
        if instant > 0 && args.len() == outs.len() {
            outs.copy_from_slice(args);
        }
    }
}

/// What steps under a hook give: on `false` at the instants 0 and 1, and then on `true`.
fn hooked(exec: &mut Exec, way: Way) -> [Value; 4] {
    let mut given = [Value::Absent; 4];
    for i in 0..4 {
        if input_count(exec) == 1 && output_count(exec) == 1 {
            let input = [Value::B(i >= 2)];
            exec.step_with(i as u64 % 2, &input, &mut given[i..i + 1], &Late(way));
        }
    }
    given
}

#[test]
fn a_hook_takes_part_in_calls(rt: HostRuntime) -> Result<(), Fail> {
    let mut exec = machine(rt.alloc(), CALLER, "f")?;
    for (way, wanted) in [
        (Way::Own, [true, true, false, false]),
        (Way::Instead, [false, false, false, true]),
        (Way::After, [true, false, false, true]),
    ] {
        assert_eq!(rt; hooked(&mut exec, way), wanted.map(Value::B));
    }
    Ok(())
}
