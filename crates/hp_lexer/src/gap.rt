//! Blanks and comments.
ghost use Rattle.std.specs.Prelude.{◌≡◌, ◌≤◌, false, length, IfSome, IfOk, IfErr, option_map};
ghost use Rattle.hp_lexer.specs.Bytes.{begins_blank, begins_comment};
ghost use Rattle.hp_lexer.specs.Reading.{HasRoom, mark_of, comment_end, Leads, IsGap, Unended};

use crate::place::{Place, Rest};
use hp_base::is_blank_byte;

/// What two bytes inside a comment say.
#[derive(Clone, Copy, Debug)]
pub(crate) enum Mark {
    /// `(*`
    Opens,
    /// `*)`
    Closes,
    Plain,
}

fn marked(first: u8, second: u8) -> Mark
    ensures { result ≡ mark_of first second }
{
    if first == b'(' && second == b'*' {
        Mark::Opens
    } else if first == b'*' && second == b')' {
        Mark::Closes
    } else {
        Mark::Plain
    }
}

/// What stands behind the blanks in front.
fn skip_blanks(rest: Rest<'_>) -> Rest<'_>
    requires { HasRoom rest.place (length rest.bytes.now) }
    ensures leads { Leads rest.entry.bytes.now rest.entry.place result.bytes.now result.place }
    ensures room { HasRoom result.place (length result.bytes.now) }
    ensures shorter { length result.bytes.now ≤ length rest.entry.bytes.now }
    ensures behind { begins_blank result.bytes.now ≡ false }
{
    let mut rest = rest;
    while let [first, tail @ ..] = rest.bytes {
        if !is_blank_byte(*first) {
            break;
        }
        rest = Rest {
            bytes: tail,
            place: rest.place.behind(*first),
        };
    }
    rest
}

/// What stands behind the end of a comment whose `(*` stands in front of `rest`.
fn skip_comment(rest: Rest<'_>) -> Option<Rest<'_>>
    requires { HasRoom rest.place (length rest.bytes.now) }
    ensures end { option_map (λ found. (found.bytes.now, found.place)) result
        ≡ comment_end 1 rest.entry.bytes.now rest.entry.place }
    ensures room { IfSome result (λ found. HasRoom found.place (length found.bytes.now)) }
    ensures shorter { IfSome result (λ found. length found.bytes.now ≤ length rest.entry.bytes.now) }
{
    let mut open: usize = 1;
    let mut bytes = rest.bytes;
    let mut place = rest.place;
    while let [first, second, behind @ ..] = bytes {
        match marked(*first, *second) {
            Mark::Opens => {
                open += 1;
                bytes = behind;
                place = place.along(2);
            }
            Mark::Closes => {
                open -= 1;
                bytes = behind;
                place = place.along(2);
            }
            Mark::Plain => {
                bytes = &bytes[1..];
                place = place.behind(*first);
            }
        }
        if open == 0 {
            return Some(Rest { bytes, place });
        }
    }
    None
}

fn opens_comment(text: &[u8]) -> bool
    ensures { result ≡ begins_comment text.now }
{
    match text {
        [first, second, ..] => *first == b'(' && *second == b'*',
        _ => false,
    }
}

/// What stands behind the blanks and comments in front. The error is the place of a comment that does not end.
pub(crate) fn skip_gap(rest: Rest<'_>) -> Result<Rest<'_>, Place>
    requires { HasRoom rest.place (length rest.bytes.now) }
    ensures gap { IfOk result
        (λ found. IsGap rest.entry.bytes.now rest.entry.place found.bytes.now found.place) }
    ensures unended { IfErr result (λ at. Unended rest.entry.bytes.now rest.entry.place at) }
{
    let mut rest = rest;
    loop {
        let found = skip_blanks(rest);
        if !opens_comment(found.bytes) {
            return Ok(found);
        }
        let inside = Rest {
            bytes: &found.bytes[2..],
            place: found.place.along(2),
        };
        let Some(behind) = skip_comment(inside) else {
            return Err(found.place);
        };
        rest = behind;
    }
}
