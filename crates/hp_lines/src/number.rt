ghost use Rattle.std.specs.Prelude.{◌≡◌, ◌≤◌, min, option_map, pos, neg_ℤ};
ghost use Rattle.hp_base.specs.Bytes.{is_digit};
ghost use Rattle.hp_lines.specs.Numbers.{natural_of, in_range, number_of};

/// More than a number of 32 bits can be, with either sign.
const TOO_GREAT: u64 = 2_147_483_649;

/// The magnitude of the least number of 32 bits.
const MAGNITUDE: u64 = 2_147_483_648;

/// The number that digits spell, or `TOO_GREAT` where it is greater.
fn magnitude(digits: &[u8]) -> Option<u64>
    ensures { result ≡ option_map (λ n. min TOO_GREAT n) (natural_of digits.now) }
{
    if digits.is_empty() {
        return None;
    }
    let mut number: u64 = 0;
    for digit in digits {
        if *digit < b'0' || b'9' < *digit {
            return None;
        }
        number = (10 * number + u64::from(*digit - b'0')).min(TOO_GREAT);
    }
    Some(number)
}

fn positive(magnitude: u64) -> Option<i32>
    requires { magnitude ≤ TOO_GREAT }
    ensures { result ≡ in_range (pos magnitude) }
{
    if magnitude < MAGNITUDE {
        Some(magnitude as i32)
    } else {
        None
    }
}

fn negative(magnitude: u64) -> Option<i32>
    requires { magnitude ≤ TOO_GREAT }
    ensures { result ≡ in_range (neg_ℤ (pos magnitude)) }
{
    if magnitude <= MAGNITUDE {
        Some((-(magnitude as i64)) as i32)
    } else {
        None
    }
}

/// The number of 32 bits that a word spells: digits, maybe with needless zeros, and a minus in front of them or none.
pub fn read_int(word: &[u8]) -> Option<i32>
    ensures { result ≡ number_of word.now }
{
    match word {
        [] => None,
        [b'-', digits @ ..] => negative(magnitude(digits)?),
        _ => positive(magnitude(word)?),
    }
}
