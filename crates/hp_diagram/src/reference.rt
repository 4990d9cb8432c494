ghost use Rattle.std.specs.Prelude.{◌≡◌, ◌<◌, length};
ghost use Rattle.hp_diagram.specs.Diagrams.{child, valuation, zero_ref, one_ref};

/// A reference to a function of a table: an index into it.
#[derive(Clone, Copy, Debug, PartialEq, Eq, Hash)]
pub struct Ref {
    pub index: usize,
}

/// A node: its variable, and the functions of the later variables where that one is false and where it is true.
#[derive(Clone, Copy, Debug, PartialEq, Eq, Hash)]
pub struct Branch {
    pub var: u16,
    pub low: Ref,
    pub high: Ref,
}

impl Branch {
    /// The child on which the path goes on where the variables have these values.
    pub(crate) fn child(self, vars: &[bool]) -> Ref
        requires { self.var < length vars.now }
        ensures { result ≡ child self (valuation vars.now) }
    {
        if vars[usize::from(self.var)] {
            self.high
        } else {
            self.low
        }
    }
}

/// The function that is false everywhere, which every table has.
pub fn zero() -> Ref
    ensures { result ≡ zero_ref }
{
    Ref { index: 0 }
}

/// The function that is true everywhere, which every table has.
pub fn one() -> Ref
    ensures { result ≡ one_ref }
{
    Ref { index: 1 }
}
