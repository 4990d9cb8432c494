ghost use Rattle.std.specs.Prelude.{◌≡◌, length, drop};
ghost use Rattle.hp_obctext.specs.Found.{labels_seen};
ghost use Rattle.hp_obctext.specs.Rules.{is_next, same_const, same_bool};
ghost use Rattle.hp_base.specs.declared.ty.Const.{Const};

use hp_base::{Const, Name};

/// The values for the arms of a case.
#[derive(Clone, Copy, Debug)]
pub(crate) enum Labels<'a> {
    /// `false` and `true`.
    Bools,
    /// The constructors of a type.
    Named(&'a [Name]),
    Nothing,
}

impl Labels<'_> {
    pub fn len(&self) -> usize
        ensures { result ≡ length (labels_seen self.now) }
    {
        match self {
            Labels::Bools => 2,
            Labels::Named(names) => names.len(),
            Labels::Nothing => 0,
        }
    }

    /// Whether the value for an arm is this one.
    #[tactic(auto, using(crate::proofs::CheckLaws::labels))]
    pub fn is(&self, i: usize, value: &Const) -> bool
        ensures { result ≡ is_next value.now (drop i (labels_seen self.now)) }
    {
        match self {
            Labels::Bools => match i {
                0 => is_truth(value, false),
                1 => is_truth(value, true),
                _ => false,
            },
            Labels::Named(names) => {
                if i < names.len() {
                    is_constructor(value, &names[i])
                } else {
                    false
                }
            }
            Labels::Nothing => false,
        }
    }
}

fn is_truth(value: &Const, truth: bool) -> bool
    ensures { result ≡ same_const (Const.B truth) value.now }
{
    match value {
        Const::B(b) => same_truth(truth, *b),
        _ => false,
    }
}

fn same_truth(a: bool, b: bool) -> bool
    ensures { result ≡ same_bool a b }
{
    if a { b } else { !b }
}

fn is_constructor(value: &Const, name: &Name) -> bool
    ensures { result ≡ same_const (Const.E name.now) value.now }
{
    match value {
        Const::E(x) => name.bytes() == x.bytes(),
        _ => false,
    }
}
