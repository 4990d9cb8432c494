//! Tokens, their places, and the refusals of the lexer.
use hp_base::What;
use hp_lexer::{LexErr, MAX_NUMBER, TokenKind, lex, number};
use std::fmt::Write;
use std::test::Fail;

/// A text and what it gives: a word for each of its tokens, or the refusal with its place.
const TABLE: [(&str, &str); 24] = [
    ("", ""),
    (" \t\r\n", ""),
    ("node f() returns () let # tel", "bad 1:25 25"),
    ("whenot when node nodes not nota Node", "k k k s k s C"),
    ("f_1 x2Y Z_ 0 007 2147483647", "s s C n n n"),
    ("12ab -1", "n s - n"),
    ("x _", "bad 1:3 3"),
    ("x\n  2147483648 #", "bad 2:3 5"),
    ("00000000002147483647", "n"),
    ("99999999999999999999999999", "bad 1:1 1"),
    ("<=>", "<= >"),
    ("<>=>->-", "<> => -> -"),
    ("&&&|||", "&& & || |"),
    (">==", ">= ="),
    ("( ) , ; : = < > + * / %", "( ) , ; : = < > + * / %"),
    ("(*)", "bad 1:1 1"),
    ("(*)*)x", "s"),
    ("(**)x(***)y", "s s"),
    ("(* (* # *) \u{e9} *) x", "s"),
    ("a\r\n\t(* (* *)", "bad 2:2 5"),
    ("a (* (* *) b", "bad 1:3 3"),
    ("( *)", "( * )"),
    ("x\ny z\n\n  w?", "bad 4:4 11"),
    ("$", "bad 1:1 1"),
];

fn add_word(out: &mut String, word: &str) -> Result<(), Fail> {
    if !out.is_empty() {
        out.push_str(" ")?;
    }
    out.push_str(word)?;
    Ok(())
}

/// A word for the kind of a token: its text, where it is a sign.
fn kind_word(kind: TokenKind) -> &'static str {
    match kind {
        TokenKind::Small => "s",
        TokenKind::Capital => "C",
        TokenKind::Number => "n",
        TokenKind::Keyword(_) => "k",
        TokenKind::Sign(sign) => sign.text(),
    }
}

/// What a text gives, as the table writes it.
fn outcome(rt: &HostRuntime, text: &[u8], out: &mut String) -> Result<(), Fail> {
    match lex(rt.alloc(), text) {
        Ok(tokens) => {
            for token in &tokens {
                add_word(out, kind_word(token.kind))?;
            }
        }
        Err(LexErr::Bad { span }) => {
            write!(out, "bad {}:{} {}", span.line, span.col, span.end)?;
        }
        Err(LexErr::Limit { span, limit }) => {
            write!(
                out,
                "{} {}:{} {} {}",
                limit.what.word(),
                span.line,
                span.col,
                span.end,
                limit.found
            )?;
        }
        Err(LexErr::OutOfMemory) => out.push_str("memory")?,
    }
    Ok(())
}

#[test]
fn texts_give_their_tokens(rt: HostRuntime) -> Result<(), Fail> {
    for (text, want) in TABLE {
        let mut found = String::new(rt.alloc());
        outcome(&rt, text.as_bytes(), &mut found)?;
        assert_eq!(rt; found.as_str(), want, "at {text}");
    }
    Ok(())
}

#[test]
fn names_and_texts_have_limits(rt: HostRuntime) -> Result<(), Fail> {
    let table: [(&str, u8, usize, &str); 7] = [
        ("node ", b'a', 255, "k s"),
        ("node ", b'a', 256, "name 1:6 261 256"),
        ("\nA", b'_', 255, "name 2:1 257 256"),
        ("2147483648 ", b'a', 256, "bad 1:1 1"),
        ("", b' ', 1_048_576, ""),
        ("", b' ', 1_048_577, "size 1:1048577 1048577 1048577"),
        ("#", b'\n', 1_048_577, "size 1048576:1 1048577 1048577"),
    ];
    for (front, byte, count, want) in table {
        let mut text = front.as_bytes().to_vec(rt.alloc())?;
        for _ in 0..count {
            text.push(byte)?;
        }
        let mut found = String::new(rt.alloc());
        outcome(&rt, &text, &mut found)?;
        assert_eq!(rt; found.as_str(), want, "at {front}");
    }
    Ok(())
}

#[test]
fn tokens_have_their_places(rt: HostRuntime) -> Result<(), Fail> {
    let text: &[u8] = b"let (* a\n *) x <=\n12";
    let mut found = String::new(rt.alloc());
    let Ok(tokens) = lex(rt.alloc(), text) else {
        return Err(Fail::from("refused"));
    };
    for token in &tokens {
        let span = token.span;
        let size = token.text(text).len();
        write!(
            found,
            "{}:{} {}-{} {size}, ",
            span.line, span.col, token.start, span.end
        )?;
    }
    let want = "1:1 0-3 3, 2:5 13-14 1, 2:7 15-17 2, 3:1 18-20 2, ";
    assert_eq!(rt; found.as_str(), want);
    Ok(())
}

#[test]
fn digits_spell_numbers(rt: HostRuntime) {
    assert_eq!(rt; number(b"0012"), Some(12));
    assert_eq!(rt; number(b"2147483647"), Some(MAX_NUMBER));
    assert_eq!(rt; number(b"2147483648"), None);
}

#[test]
fn words_of_a_refusal(rt: HostRuntime) -> Result<(), Fail> {
    let Err(error) = lex(rt.alloc(), b"x ?") else {
        return Err(Fail::from("taken"));
    };
    assert_eq!(rt;
        format!(in rt.alloc(); "{error}")?.as_str(),
        "no token at line 1, column 3"
    );
    assert_eq!(rt; What::Name.most(), 255);
    Ok(())
}
