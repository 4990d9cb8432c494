//! The value of a reference.
ghost use Rattle.std.specs.Prelude.{◌≡◌, ◌+◌, ◌<◌, false, length, slice_index_or};
ghost use Rattle.hp_cert.specs.Certtext.Certificates.{AreLines};
ghost use Rattle.hp_cert.specs.Proving.{set_of};

use hp_quant::Line;

/// A value by its number; false where there is none.
fn value_at(values: &[bool], var: u16) -> bool
    ensures { result ≡ slice_index_or values.now var false }
{
    values.get(usize::from(var)).copied().unwrap_or(false)
}

/// Whether the function of a reference is true where the variables from 0 on have these values, and all others are false.
pub fn value(lines: &[Line], r: usize, values: &[bool]) -> bool
    requires lines { AreLines 2 lines.now }
    requires r { r < length lines.now + 2 }
    ensures { result ≡ set_of lines.now r values.now }
{
    let mut at = r;
    while at >= 2 {
        let line = lines[at - 2];
        at = if value_at(values, line.var) {
            line.high
        } else {
            line.low
        };
    }
    at == 1
}
