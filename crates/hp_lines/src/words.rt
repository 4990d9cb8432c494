ghost use Rattle.std.specs.Prelude.{◌≡◌, ◌+◌, ◌≤◌, List, [], ◌∷◌, ℕ, length, MatchOption, take_while, not};
ghost use Rattle.hp_lines.specs.Words.{words, is_blank, BeginsWord};

/// A space, a tab or a carriage return.
fn is_blank_byte(byte: u8) -> bool
    ensures { result ≡ is_blank byte }
{
    byte == b' ' || byte == b'\t' || byte == b'\r'
}

fn skip_blanks(line: &[u8]) -> &[u8]
    ensures words { words result.now ≡ words line.now }
    ensures begins { BeginsWord result.now }
    ensures shorter { length result.now ≤ length line.now }
{
    let mut rest = line;
    while let [first, tail @ ..] = rest {
        if !is_blank_byte(*first) {
            break;
        }
        rest = tail;
    }
    rest
}

/// How many bytes in front are no blanks.
fn word_length(line: &[u8]) -> usize
    ensures { result ≡ length (take_while (λ b. not (is_blank b)) line.now) }
{
    line.iter()
        .take_while(|byte| !is_blank_byte(**byte))
        .count()
}

/// The first word of a line, and what stands behind it.
pub(crate) fn first_word(line: &[u8]) -> Option<(&[u8], &[u8])>
    ensures words { MatchOption result (words line.now ≡ []) (λ found. words line.now ≡ found.0.now ∷ words found.1.now) }
    ensures shorter { MatchOption result (words line.now ≡ []) (λ found. length found.1.now + 1 ≤ length line.now) }
{
    let line = skip_blanks(line);
    if line.is_empty() {
        return None;
    }
    Some(line.split_at(word_length(line)))
}

/// How many words a line has.
pub(crate) fn count_words(line: &[u8]) -> u64
    ensures count { result ≡ length (words line.now) }
    ensures few { result ≤ length line.now }
{
    let mut rest = line;
    let mut count = 0;
    while let Some((_, behind)) = first_word(rest) {
        count += 1;
        rest = behind;
    }
    count
}
