ghost use Rattle.std.specs.Prelude.{◌≡◌, ◌+◌, []};
ghost use Rattle.hp_lexer.specs.Reading.{HasRoom, place_behind, next_place, along, span_at};

use hp_base::Span;

/// Where the rest of a text begins. Lines and columns count bytes from 1.
#[derive(Clone, Copy, Debug)]
pub(crate) struct Place {
    pub line: u32,
    pub col: u32,
    pub offset: u32,
}

impl Place {
    /// The begin of a text.
    pub(crate) fn start() -> Place
        ensures { result ≡ place_behind [] }
    {
        Place {
            line: 1,
            col: 1,
            offset: 0,
        }
    }

    /// The place behind one byte.
    pub(crate) fn behind(self, byte: u8) -> Place
        requires { HasRoom self 1 }
        ensures { result ≡ next_place self byte }
    {
        let offset = self.offset + 1;
        if byte == b'\n' {
            Place {
                line: self.line + 1,
                col: 1,
                offset,
            }
        } else {
            Place {
                line: self.line,
                col: self.col + 1,
                offset,
            }
        }
    }

    /// The place behind some bytes, none of them a newline.
    pub(crate) fn along(self, bytes: usize) -> Place
        requires { HasRoom self bytes }
        ensures { result ≡ along self bytes }
    {
        Place {
            line: self.line,
            col: self.col + bytes as u32,
            offset: self.offset + bytes as u32,
        }
    }

    /// Some bytes that begin here.
    pub(crate) fn span(self, bytes: usize) -> Span
        requires { HasRoom self bytes }
        ensures { result ≡ span_at self bytes }
    {
        Span {
            line: self.line,
            col: self.col,
            end: self.offset + bytes as u32,
        }
    }
}

/// What is left of a text, and where it begins.
#[derive(Clone, Copy, Debug)]
pub(crate) struct Rest<'a> {
    pub bytes: &'a [u8],
    pub place: Place,
}
