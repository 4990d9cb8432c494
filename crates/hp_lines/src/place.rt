//! Lines of a text, for the places in it.
ghost use Rattle.std.specs.Prelude.{◌≡◌, ◌≤◌, not, ◌==◌, length, count_by};
ghost use Rattle.std.specs.List.{suffix_len};

/// How many newlines a text has.
pub fn newlines(text: &[u8]) -> usize
    ensures count { result ≡ count_by (λ b. b == 10) text.now }
    ensures within { result ≤ length text.now }
{
    text.iter().filter(|byte| **byte == b'\n').count()
}

/// How many bytes stand behind the last newline of a text.
pub fn last_line(text: &[u8]) -> usize
    ensures length { result ≡ suffix_len (λ b. not (b == 10)) text.now }
    ensures within { result ≤ length text.now }
{
    text.iter().rev().take_while(|byte| **byte != b'\n').count()
}
