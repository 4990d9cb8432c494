//! Numbers.
ghost use Rattle.std.specs.Prelude.{◌≡◌, ◌<◌, ◌≤◌, true, IfSome, IfNone};
ghost use Rattle.std.specs.List.{list_all};
ghost use Rattle.hp_base.specs.Bytes.{is_digit};
ghost use Rattle.hp_lexer.specs.Spelling.{greatest_number, value_of};

/// The greatest number of a source text.
pub const MAX_NUMBER: u32 = 2_147_483_647;

/// The number that some digits spell, where it is at most `MAX_NUMBER`. There may be zeros in front.
pub fn number(digits: &[u8]) -> Option<u32>
    requires { list_all is_digit digits.now ≡ true }
    ensures value { IfSome result (λ n. n ≡ value_of digits.now) }
    ensures within { IfSome result (λ n. n ≤ greatest_number) }
    ensures too_large { IfNone result (greatest_number < value_of digits.now) }
{
    let too_large = u64::from(MAX_NUMBER) + 1;
    let mut value: u64 = 0;
    for digit in digits {
        value = (10 * value + u64::from(*digit - b'0')).min(too_large);
    }
    if value < too_large {
        Some(value as u32)
    } else {
        None
    }
}
