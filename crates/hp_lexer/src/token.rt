ghost use Rattle.std.specs.Prelude.{◌≡◌};
ghost use Rattle.hp_lexer.specs.Spelling.{keyword_text, sign_text};

use hp_base::Span;

/// A word of the grammar, which is no name.
#[derive(Clone, Copy, Debug, PartialEq, Eq)]
pub enum Keyword {
    Assume,
    Automaton,
    Bool,
    Continue,
    Contract,
    Do,
    Else,
    End,
    Enforce,
    Every,
    False,
    Fby,
    If,
    In,
    Inlined,
    Int,
    Last,
    Let,
    Merge,
    Node,
    Not,
    On,
    Or,
    Pre,
    Reset,
    Returns,
    State,
    Switch,
    Tel,
    Then,
    True,
    Type,
    Unless,
    Until,
    Var,
    When,
    Whenot,
    With,
    Xor,
}

impl Keyword {
    /// The letters of the keyword.
    pub fn text(self) -> &'static str
        ensures { result.now ≡ keyword_text self }
    {
        match self {
            Keyword::Assume => "assume",
            Keyword::Automaton => "automaton",
            Keyword::Bool => "bool",
            Keyword::Continue => "continue",
            Keyword::Contract => "contract",
            Keyword::Do => "do",
            Keyword::Else => "else",
            Keyword::End => "end",
            Keyword::Enforce => "enforce",
            Keyword::Every => "every",
            Keyword::False => "false",
            Keyword::Fby => "fby",
            Keyword::If => "if",
            Keyword::In => "in",
            Keyword::Inlined => "inlined",
            Keyword::Int => "int",
            Keyword::Last => "last",
            Keyword::Let => "let",
            Keyword::Merge => "merge",
            Keyword::Node => "node",
            Keyword::Not => "not",
            Keyword::On => "on",
            Keyword::Or => "or",
            Keyword::Pre => "pre",
            Keyword::Reset => "reset",
            Keyword::Returns => "returns",
            Keyword::State => "state",
            Keyword::Switch => "switch",
            Keyword::Tel => "tel",
            Keyword::Then => "then",
            Keyword::True => "true",
            Keyword::Type => "type",
            Keyword::Unless => "unless",
            Keyword::Until => "until",
            Keyword::Var => "var",
            Keyword::When => "when",
            Keyword::Whenot => "whenot",
            Keyword::With => "with",
            Keyword::Xor => "xor",
        }
    }
}

/// A sign of the grammar.
#[derive(Clone, Copy, Debug, PartialEq, Eq)]
pub enum Sign {
    /// `(`
    Open,
    /// `)`
    Close,
    /// `,`
    Comma,
    /// `;`
    Semicolon,
    /// `:`
    Colon,
    /// `=`
    Equal,
    /// `<>`
    Unequal,
    /// `<`
    Less,
    /// `<=`
    AtMost,
    /// `>`
    Greater,
    /// `>=`
    AtLeast,
    /// `+`
    Plus,
    /// `-`
    Minus,
    /// `*`
    Star,
    /// `/`
    Slash,
    /// `%`
    Percent,
    /// `&`
    And,
    /// `&&`
    AndAnd,
    /// `|`
    Bar,
    /// `||`
    BarBar,
    /// `->`
    Arrow,
    /// `=>`
    Implies,
}

impl Sign {
    /// The bytes of the sign.
    pub fn text(self) -> &'static str
        ensures { result.now ≡ sign_text self }
    {
        match self {
            Sign::Open => "(",
            Sign::Close => ")",
            Sign::Comma => ",",
            Sign::Semicolon => ";",
            Sign::Colon => ":",
            Sign::Equal => "=",
            Sign::Unequal => "<>",
            Sign::Less => "<",
            Sign::AtMost => "<=",
            Sign::Greater => ">",
            Sign::AtLeast => ">=",
            Sign::Plus => "+",
            Sign::Minus => "-",
            Sign::Star => "*",
            Sign::Slash => "/",
            Sign::Percent => "%",
            Sign::And => "&",
            Sign::AndAnd => "&&",
            Sign::Bar => "|",
            Sign::BarBar => "||",
            Sign::Arrow => "->",
            Sign::Implies => "=>",
        }
    }
}

#[derive(Clone, Copy, Debug, PartialEq, Eq)]
pub enum TokenKind {
    /// A name that begins with a small letter.
    Small,
    /// A name that begins with a capital letter.
    Capital,
    /// A number of at most 2,147,483,647.
    Number,
    Keyword(Keyword),
    Sign(Sign),
}

/// A token of a text: the bytes from `start` up to, not including, `span.end`.
#[derive(Clone, Copy, Debug, PartialEq, Eq)]
pub struct Token {
    pub kind: TokenKind,
    pub span: Span,
    pub start: u32,
}

impl Token {
    ghost use Rattle.std.specs.Prelude.{◌≤◌, length, true};
    ghost use Rattle.std.specs.List.{list_all};
    ghost use Rattle.hp_base.specs.Limits.{most};
    ghost use Rattle.hp_base.specs.declared.limit.What.TheVariants.{Name};
    ghost use Rattle.hp_base.specs.Bytes.{is_digit};
    ghost use Rattle.hp_lexer.specs.Lexing.{IsTokenIn, token_text};
    ghost use Rattle.hp_lexer.specs.Spelling.{Spells, IsWithin, IsNameKind};

    /// The bytes of the token, in its text.
    pub fn text(self, text: &[u8]) -> &[u8]
        requires { IsTokenIn text.now self }
        ensures bytes { result.now ≡ token_text text.now self }
        ensures spelled { Spells self.kind result.now }
        ensures limited { IsWithin self.kind result.now }
        ensures name { IsNameKind self.kind → length result.now ≤ most Name }
        ensures digits { self.kind ≡ TokenKind.Number → list_all is_digit result.now ≡ true }
    {
        &text[self.start as usize..self.span.end as usize]
    }
}
