//! The kinds of values, and what operators do with them.
ghost use Rattle.std.specs.Prelude.{◌≡◌, List};
ghost use Rattle.std.specs.Bool.{Decides};
ghost use Rattle.hp_obc.specs.Machines.{ObcType};
ghost use Rattle.hp_obc.specs.Form.{same_kind, for_bools, for_ints, for_same, unary_kind, binary_kind, ternary_kind, BothAre};
ghost use Rattle.hp_form.specs.Kinds.{kind_at, maybe_at};

use hp_obc::ObcOp;

/// What values are of.
#[derive(Clone, Copy, Debug)]
pub enum Kind {
    Bool,
    Int,
    /// The type with this number.
    Enum(usize),
}

fn is_same(first: Kind, second: Kind) -> bool
    ensures { (types : List ObcType) → result ≡ same_kind (kind_at types first) (kind_at types second) }
{
    match (first, second) {
        (Kind::Bool, Kind::Bool) => true,
        (Kind::Int, Kind::Int) => true,
        (Kind::Enum(m), Kind::Enum(n)) => m == n,
        _ => false,
    }
}

/// Whether there are both, and they are the same.
pub fn both_are(first: Option<Kind>, second: Option<Kind>) -> bool
    ensures { (types : List ObcType) → Decides result (BothAre (maybe_at types first) (maybe_at types second)) }
{
    match (first, second) {
        (Some(first), Some(second)) => is_same(first, second),
        _ => false,
    }
}

fn for_bools(first: Kind, second: Kind) -> Option<Kind>
    ensures { (types : List ObcType) → maybe_at types result ≡ for_bools (kind_at types first) (kind_at types second) }
{
    match (first, second) {
        (Kind::Bool, Kind::Bool) => Some(Kind::Bool),
        _ => None,
    }
}

fn for_ints(given: Kind, first: Kind, second: Kind) -> Option<Kind>
    ensures { (types : List ObcType) → maybe_at types result ≡ for_ints (kind_at types given) (kind_at types first) (kind_at types second) }
{
    match (first, second) {
        (Kind::Int, Kind::Int) => Some(given),
        _ => None,
    }
}

fn for_same(given: Kind, first: Kind, second: Kind) -> Option<Kind>
    ensures { (types : List ObcType) → maybe_at types result ≡ for_same (kind_at types given) (kind_at types first) (kind_at types second) }
{
    if is_same(first, second) {
        Some(given)
    } else {
        None
    }
}

/// The kind of what an operator gives on one argument.
pub fn unary(op: ObcOp, kind: Kind) -> Option<Kind>
    ensures { (types : List ObcType) → maybe_at types result ≡ unary_kind op (kind_at types kind) }
{
    match (op, kind) {
        (ObcOp::Copy, kind) => Some(kind),
        (ObcOp::Not, Kind::Bool) => Some(Kind::Bool),
        (ObcOp::Neg, Kind::Int) => Some(Kind::Int),
        _ => None,
    }
}

/// The kind of what an operator gives on two arguments.
pub fn binary(op: ObcOp, first: Kind, second: Kind) -> Option<Kind>
    ensures { (types : List ObcType) → maybe_at types result ≡ binary_kind op (kind_at types first) (kind_at types second) }
{
    match op {
        ObcOp::And | ObcOp::Or | ObcOp::Xor | ObcOp::Imp => for_bools(first, second),
        ObcOp::Eq | ObcOp::Ne => for_same(Kind::Bool, first, second),
        ObcOp::Lt | ObcOp::Le | ObcOp::Gt | ObcOp::Ge => for_ints(Kind::Bool, first, second),
        ObcOp::Add | ObcOp::Sub | ObcOp::Mul | ObcOp::Div | ObcOp::Rem => {
            for_ints(Kind::Int, first, second)
        }
        ObcOp::Copy | ObcOp::Not | ObcOp::Neg | ObcOp::Mux => None,
    }
}

/// The kind of what an operator gives on three arguments.
pub fn ternary(op: ObcOp, first: Kind, second: Kind, third: Kind) -> Option<Kind>
    ensures { (types : List ObcType) → maybe_at types result ≡ ternary_kind op (kind_at types first) (kind_at types second) (kind_at types third) }
{
    match (op, first) {
        (ObcOp::Mux, Kind::Bool) => for_same(second, second, third),
        _ => None,
    }
}
