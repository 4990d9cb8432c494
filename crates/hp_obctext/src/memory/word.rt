//! The words of a text.
ghost use Rattle.std.specs.Prelude.{◌≡◌, ◌≤◌, ◌++◌, ◌||◌, ◌==◌, not, length, take_while, IfOk, IfErr, Ok, Err, codes};
ghost use Rattle.std.specs.List.{starts_with};
ghost use Rattle.hp_obctext.specs.MemoryTexts.{is_gap, is_number, is_value};
ghost use Rattle.hp_obctext.specs.MemoryReading.{first_word, behind, next, taken};
ghost use Rattle.hp_obctext.specs.MemoryRefusals.{size_at};

use hp_lines::read_int;
use hp_obc::spelling::spells_constructor;
use itoa::Buffer;

fn is_gap_byte(byte: u8) -> bool
    ensures { result ≡ is_gap byte }
{
    byte == b' ' || byte == b'\n'
}

/// How many bytes in front belong to a word.
fn word_length(text: &[u8]) -> usize
    ensures { result ≡ length (take_while (λ b. not (is_gap b)) text.now) }
{
    text.iter().take_while(|byte| !is_gap_byte(**byte)).count()
}

/// The first word, which may have no byte, and what stands behind it.
pub(crate) fn first_word(text: &[u8]) -> (&[u8], &[u8])
    ensures word { result.0.now ≡ first_word text.now }
    ensures behind { result.1.now ≡ behind text.now }
    ensures within { length result.0.now ≤ length text.now }
{
    text.split_at(word_length(text))
}

/// What stands behind the first word and the byte that ends it.
pub(crate) fn behind_line(text: &[u8]) -> &[u8]
    ensures { result.now ≡ next text.now }
{
    let (_, behind) = first_word(text);
    match behind {
        [] => behind,
        [_, rest @ ..] => rest,
    }
}

/// How many bytes the word, space or newline in front has.
pub(crate) fn size_at(text: &[u8]) -> usize
    ensures size { result ≡ size_at text.now }
    ensures within { result ≤ length text.now }
{
    match text {
        [] => 0,
        [first, ..] => if is_gap_byte(*first) {
            1
        } else {
            word_length(text)
        },
    }
}

/// Whether a word is a number of 32 bits as it is printed.
fn is_number(word: &[u8]) -> bool
    ensures { result ≡ is_number word.now }
{
    match read_int(word) {
        None => false,
        Some(number) => {
            let mut buffer = Buffer::new();
            word == buffer.format(number).as_bytes()
        }
    }
}

/// Whether a word spells a value.
pub(crate) fn is_value(word: &[u8]) -> bool
    ensures { result ≡ is_value word.now }
{
    word == b"true".as_slice()
        || word == b"false".as_slice()
        || spells_constructor(word)
        || is_number(word)
}

/// What stands behind the first word and the byte that ends it, or from where the text is refused. `fits` says whether the word may
/// stand there, and `goes_on` whether a longer one may.
pub(crate) fn behind_word(text: &[u8], fits: bool, goes_on: bool, gap: u8) -> Result<&[u8], &[u8]>
    ensures read { IfOk result (λ rest. taken fits goes_on gap text.now ≡ Ok rest.now) }
    ensures refused { IfErr result (λ rest. taken fits goes_on gap text.now ≡ Err rest.now) }
{
    let (_, behind) = first_word(text);
    match behind {
        [] => Err(if fits || goes_on { behind } else { text }),
        [first, rest @ ..] => {
            if !fits {
                Err(text)
            } else if *first == gap {
                Ok(rest)
            } else {
                Err(behind)
            }
        }
    }
}
