ghost use Rattle.std.specs.Prelude.{◌≡◌};
ghost use Rattle.hp_base.specs.Arithmetic.{arithmetic};

/// An operator on two integers.
#[derive(Clone, Copy, Debug, PartialEq, Eq)]
pub enum Op {
    Add,
    Sub,
    Mul,
    Div,
    Rem,
}

/// Integers wrap at 32 bits, and a quotient is truncated towards zero. A quotient by 0 is 0, a remainder by 0 the dividend.
pub fn int_op(op: Op, a: i32, b: i32) -> i32
    ensures { result ≡ arithmetic op a b }
{
    match op {
        Op::Add => a.wrapping_add(b),
        Op::Sub => a.wrapping_sub(b),
        Op::Mul => a.wrapping_mul(b),
        Op::Div => quotient(a, b),
        Op::Rem => remainder(a, b),
    }
}

fn quotient(a: i32, b: i32) -> i32
    ensures { result ≡ arithmetic Op.Div a b }
{
    if b == 0 { 0 } else { a.wrapping_div(b) }
}

fn remainder(a: i32, b: i32) -> i32
    ensures { result ≡ arithmetic Op.Rem a b }
{
    if b == 0 { a } else { a.wrapping_rem(b) }
}
