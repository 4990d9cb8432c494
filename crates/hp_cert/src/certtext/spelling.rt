//! What a single word stands for.
ghost use Rattle.std.specs.Prelude.{◌≡◌, ◌≤◌, length, min, option_map};
ghost use Rattle.hp_lines.specs.Numbers.{natural_of};
ghost use Rattle.hp_cert.specs.Certtext.Reading.{is_plain, number_of};

/// The number that digits spell, or the greatest `usize` where it is greater.
fn natural(digits: &[u8]) -> Option<usize>
    ensures { result ≡ option_map (λ n. min usize.MAX n) (natural_of digits.now) }
{
    if digits.is_empty() {
        return None;
    }
    let mut number: usize = 0;
    for digit in digits {
        if *digit < b'0' || b'9' < *digit {
            return None;
        }
        number = number
            .saturating_mul(10)
            .saturating_add(usize::from(*digit - b'0'));
    }
    Some(number)
}

/// Whether there is no needless zero in front of digits.
fn is_plain(digits: &[u8]) -> bool
    ensures { result ≡ is_plain digits.now }
{
    match digits {
        [] => false,
        [first, others @ ..] => *first != b'0' || others.is_empty(),
    }
}

/// The number from one up to, not including, another that a word spells.
pub(crate) fn number_of(from: usize, end: usize, word: &[u8]) -> Option<usize>
    ensures { result ≡ number_of from end word.now }
{
    if !is_plain(word) {
        return None;
    }
    let number = natural(word)?;
    if from <= number && number < end {
        Some(number)
    } else {
        None
    }
}
