//! The pieces of a text.
ghost use Rattle.std.specs.Prelude.{◌≡◌, ◌+◌, ◌≤◌, ◌∷◌, ◌++◌, [], length, take_while, not, IfNone, IfSome};
ghost use Rattle.hp_cert.specs.Certtext.Pieces.{is_gap, pieces};

fn is_gap_byte(byte: u8) -> bool
    ensures { result ≡ is_gap byte }
{
    byte == b' ' || byte == b'\n'
}

/// How many bytes in front belong to a word.
fn word_length(text: &[u8]) -> usize
    ensures { result ≡ length (take_while (λ b. not (is_gap b)) text.now) }
{
    text.iter().take_while(|byte| !is_gap_byte(**byte)).count()
}

/// The first piece of a text, and what stands behind it.
pub(crate) fn first_piece(text: &[u8]) -> Option<(&[u8], &[u8])>
    ensures none { IfNone result (text.now ≡ []) }
    ensures pieces { IfSome result (λ found. pieces text.now ≡ found.0.now ∷ pieces found.1.now) }
    ensures bytes { IfSome result (λ found. text.now ≡ found.0.now ++ found.1.now) }
    ensures some { IfSome result (λ found. 1 ≤ length found.0.now) }
{
    if text.is_empty() {
        return None;
    }
    let length = word_length(text).max(1);
    Some(text.split_at(length))
}
