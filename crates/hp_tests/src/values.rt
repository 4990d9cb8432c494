//! Names and the arithmetic of 32 bits.
use hp_base::{Name, Op, int_op};
use std::test::Fail;

/// An operator, its operands and what it gives: sums wrap, and quotients are rounded towards zero.
const ARITHMETIC: [(Op, i32, i32, i32); 12] = [
    (Op::Add, 2_147_483_647, 1, -2_147_483_648),
    (Op::Div, 2_147_483_647, 1, 2_147_483_647),
    (Op::Rem, 2_147_483_647, 1, 0),
    (Op::Add, -2_147_483_648, -1, 2_147_483_647),
    (Op::Div, -2_147_483_648, -1, -2_147_483_648),
    (Op::Rem, -2_147_483_648, -1, 0),
    (Op::Add, 7, 0, 7),
    (Op::Div, 7, 0, 0),
    (Op::Rem, 7, 0, 7),
    (Op::Add, -7, 2, -5),
    (Op::Div, -7, 2, -3),
    (Op::Rem, -7, 2, -1),
];

#[test]
fn integers_wrap_and_divide_towards_zero(rt: HostRuntime) {
    for (op, a, b, wanted) in ARITHMETIC {
        assert_eq!(rt; int_op(op, a, b), wanted);
    }
}

#[test]
fn names_are_their_bytes(rt: HostRuntime) -> Result<(), Fail> {
    let name = Name::new(rt.alloc(), b"updown")?;
    assert_eq!(rt; name.bytes(), b"updown".as_slice());
    let copy = name.copy(rt.alloc())?;
    assert!(rt; copy.same(&name));
    assert!(rt; !copy.same(&Name::new(rt.alloc(), b"up")?));
    Ok(())
}
