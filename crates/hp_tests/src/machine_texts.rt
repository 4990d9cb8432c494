//! Texts of machines that are read and printed.
use hp_obctext::{ObcErr, print_obc, read_obc};
use std::alloc::Global;
use std::test::Fail;

const DELAY: &[u8] =
    b"obc 1\nmachine f\nin ( x : bool )\nout ( y : bool )\nvar ( )\nmem ( m : bool = false )\ninst ( )\nstep\nset y m\nset m x\nend\n";

const RICH: &[u8] =
    b"obc 1\ntype t = A\n| B\nmachine g\nin ( x : int , c : t )\nout ( y : int , z : bool )\nvar ( set : int )\nmem ( )\ninst ( )\nstep\nset set @neg x\ncase c\n| A\nset y @add x -5\n| B\nset y @mux true set 2147483647\nend\nset z @eq c B\nend\nmachine h\nin ( )\nout ( o : int )\nvar ( b : bool )\nmem ( k : t = B )\ninst ( i : g )\nstep\nreset i\ncall i ( o b ) ( -2147483648 k )\ncase b\n| false\n| true\nset k A\nend\nend\n";

/// A text with needless zeros and blanks, and what is printed for it.
const LOOSE: &[u8] =
    b"obc 1 type t=A machine f in()out(y:int)var()mem(m:int=-0)inst()step set y 007 end";

const TIGHT: &[u8] =
    b"obc 1\ntype t = A\nmachine f\nin ( )\nout ( y : int )\nvar ( )\nmem ( m : int = 0 )\ninst ( )\nstep\nset y 7\nend\n";

/// Whether the machines of a text are printed so.
fn is_printed(alloc: Global, text: &[u8], printed: &[u8]) -> Result<bool, ObcErr> {
    let machines = read_obc(alloc, text)?;
    let again = print_obc(alloc, &machines)?;
    Ok(again.as_slice() == printed)
}

#[test]
fn machines_are_read_and_printed(rt: HostRuntime) -> Result<(), Fail> {
    for (text, printed) in [
        (b"obc 1".as_slice(), b"obc 1\n".as_slice()),
        (DELAY, DELAY),
        (RICH, RICH),
        (LOOSE, TIGHT),
    ] {
        assert!(rt; is_printed(rt.alloc(), text, printed)?);
    }
    Ok(())
}

#[test]
fn a_file_may_have_no_machines(rt: HostRuntime) -> Result<(), Fail> {
    let obc = read_obc(rt.alloc(), b"obc 1")?;
    assert!(rt; obc.types().is_empty());
    assert!(rt; obc.machines().is_empty());
    Ok(())
}

#[test]
fn refusals_are_told(rt: HostRuntime) -> Result<(), Fail> {
    let Err(error) = read_obc(rt.alloc(), b"obc 2") else {
        return Err(Fail::from("taken"));
    };
    assert_eq!(rt;
        format!(in rt.alloc(); "{error}")?.as_str(),
        "line 1, column 5: no machines"
    );
    Ok(())
}
