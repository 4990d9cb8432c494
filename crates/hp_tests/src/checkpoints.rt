//! Checkpoints of a machine that keeps one truth value.
ghost use Rattle.std.specs.Prelude.{◌≤◌, IsSome, codes, length};
ghost use Rattle.hp_obc.specs.Form.{machine_named};

use crate::executors::{DELAY, stepped};
use hp_base::Value;
use hp_exec::Exec;
use hp_obc::Obc;
use hp_obctext::{MemErr, memory_room, read_memory, read_obc, write_memory};
use std::alloc::{AllocError, Global};
use std::process::Abort;
use std::test::Fail;

/// The value that the machine keeps, if it is one truth value.
fn kept(exec: &Exec) -> Option<bool> {
    match exec.memory() {
        [Value::B(kept)] => Some(*kept),
        _ => None,
    }
}

fn written(alloc: Global, machines: &Obc, kept: bool) -> Result<Vec<u8>, AllocError>
    requires { IsSome (machine_named machines.now.machines (codes "f")) }
{
    let values = [Value::B(kept)];
    let room = memory_room(machines, "f", &values);
    let mut text = Vec::with_capacity(alloc, room as usize)?;
    write_memory(machines, "f", &values, &mut text);
    Ok(text)
}

/// What a machine that keeps `true` is given by a text, or why that is refused.
fn read(machines: &Obc, text: &[u8]) -> Result<Value, MemErr>
    requires machine { IsSome (machine_named machines.now.machines (codes "f")) }
    requires short { length text.now ≤ 67108864 }
{
    let mut into = [Value::B(false)];
    match read_memory(text, machines, "f", &[Value::B(true)], &mut into) {
        Ok(()) => Ok(into[0]),
        Err(error) => Err(error),
    }
}

fn check_written(
    rt: &impl Abort,
    alloc: Global,
    machines: &Obc,
    exec: &Exec,
) -> Result<(), AllocError>
    requires { IsSome (machine_named machines.now.machines (codes "f")) }
{
    if let Some(kept) = kept(exec) {
        let text = written(alloc, machines, kept)?;
        assert_eq!(rt;
            text.as_slice(),
            b"hept-mem 1\nnode f\ntrue\nend\n".as_slice()
        );
    }
    Ok(())
}

fn check_read(rt: &impl Abort, machines: &Obc)
    requires { IsSome (machine_named machines.now.machines (codes "f")) }
{
    assert_eq!(rt;
        read(machines, b"hept-mem 1\nnode f\ntrue\nend\n"),
        Ok(Value::B(true))
    );
    assert_eq!(rt;
        read(machines, b"hept-mem 1\nnode f\n7\nend\n"),
        Err(MemErr::Word { number: 1 })
    );
    assert_eq!(rt;
        read(machines, b"hept-mem 1\nnode f\nend\n"),
        Err(MemErr::Count { found: 0 })
    );
    assert_eq!(rt;
        read(machines, b"hept-mem 1\nnode g\ntrue\nend\n"),
        Err(MemErr::Node)
    );
}

#[test]
fn a_checkpoint_is_written_and_read(rt: HostRuntime) -> Result<(), Fail> {
    let machines = read_obc(rt.alloc(), DELAY)?;
    let mut exec = Exec::new(rt.alloc(), &machines, "f")?;
    assert_eq!(rt; stepped(&mut exec, true), Value::B(false));
    assert_eq!(rt; kept(&exec), Some(true));
    check_written(&rt, rt.alloc(), &machines, &exec)?;
    check_read(&rt, &machines);
    Ok(())
}
