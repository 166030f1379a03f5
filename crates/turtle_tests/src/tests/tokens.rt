//! Which tokens a text has, with their kinds and places.

ghost use Rattle.std.specs.Prelude.{◌<◌, ◌^◌, length};

use rdf_terms::OutOfMemory;
use std::alloc::Global;
use std::fmt::Write;
use std::test::Fail;
use turtle_tokens::{Token, TokenFault, cut_statement, skip_filling, token_fault, utf8_front};

/// Each token as `KIND@PLACE TEXT`, and behind `|` what is left of the text.
fn written(alloc: Global, tokens: &[Token], rest: &str) -> Result<String, Fail> {
    let mut out = String::new(alloc);
    for token in tokens {
        write!(out, "{:?}@{} {} ", token.kind, token.at, token.text)?;
    }
    write!(out, "| {rest}")?;
    Ok(out)
}

/// The tokens of the first statement of a document.
fn first_statement(alloc: Global, bytes: &[u8]) -> Result<String, Fail>
    requires { length bytes.now < 2 ^ 63 }
{
    let (text, at_end) = utf8_front(bytes);
    let rest = skip_filling(text, at_end);
    let at = (text.len() - rest.len()) as u64;
    let statement = cut_statement(alloc, rest, at, at_end)?;
    written(alloc, statement.tokens.as_slice(), statement.rest)
}

/// Documents, and the tokens of their first statements.
const STATEMENTS: [(&str, &str); 41] = [
    ("", "| "),
    (" # only\r\n\t# filling", "| "),
    ("1.", "Integer@0 1 Dot@1 . | "),
    ("1.5.", "Decimal@0 1.5 Dot@3 . | "),
    (
        "1.e5 .5 +.5e-3",
        "Double@0 1.e5 Decimal@5 .5 Double@8 +.5e-3 | ",
    ),
    (
        "-1 1e 1.e.",
        "Integer@0 -1 Integer@3 1 Word@4 e Integer@6 1 Dot@7 . | e.",
    ),
    ("+ 1", "| + 1"),
    ("ex:a..b. ", "PnameLn@0 ex:a..b Dot@7 . | "),
    ("ex:a...", "PnameLn@0 ex:a Dot@4 . | .."),
    ("a.b:c%41\\..", "PnameLn@0 a.b:c%41\\. Dot@10 . | "),
    ("a.b c", "Word@0 a Dot@1 . | b c"),
    ("ex:%4", "PnameNs@0 ex: | %4"),
    ("ex:\\u", "PnameNs@0 ex: | \\u"),
    (
        ":a:b-c :1 : _:a.b. ",
        "PnameLn@0 :a:b-c PnameLn@7 :1 PnameNs@10 : BlankNodeLabel@12 _:a.b Dot@17 . | ",
    ),
    ("_:.", "| _:."),
    ("é.é:é· .", "PnameLn@0 é.é:é· Dot@11 . | "),
    (
        "[] [ # c\n\t] [ # c ] a",
        "Anon@0 [] Anon@3 [ # c\n\t] OpenBracket@12 [ | ",
    ),
    ("[ # c ]a", "OpenBracket@0 [ | "),
    (
        "@prefix ex: <a> .",
        "LangTag@0 @prefix PnameNs@8 ex: IriRef@12 <a> Dot@16 . | ",
    ),
    (
        "\"a\"@en-GB-1 .",
        "String@0 \"a\" LangTag@3 @en-GB-1 Dot@12 . | ",
    ),
    ("@en- .", "LangTag@0 @en | - ."),
    (
        "PREFIX ex: <a> ex:a",
        "Word@0 PREFIX PnameNs@7 ex: IriRef@11 <a> | ex:a",
    ),
    ("pReFiX . ex:", "Word@0 pReFiX Dot@7 . | ex:"),
    ("base <a> <b>", "Word@0 base IriRef@5 <a> | <b>"),
    (
        "PREFIXES ex: <a> ex:a",
        "Word@0 PREFIXES PnameNs@9 ex: IriRef@13 <a> PnameLn@17 ex:a | ",
    ),
    (
        "true,false;",
        "Word@0 true Comma@4 , Word@5 false Semicolon@10 ; | ",
    ),
    (
        "(a)^^",
        "OpenParen@0 ( Word@1 a CloseParen@2 ) DoubleCaret@3 ^^ | ",
    ),
    ("^ a", "| ^ a"),
    ("]", "CloseBracket@0 ] | "),
    (
        "\"\"\"a\"\"b\"\"\" .",
        "String@0 \"\"\"a\"\"b\"\"\" Dot@11 . | ",
    ),
    ("'''it's''' .", "String@0 '''it's''' Dot@11 . | "),
    ("\"\"\"a\\\"\"\"\"\".", "String@0 \"\"\"a\\\"\"\"\" | \"."),
    ("\"\"\"a", "String@0 \"\" | \"a"),
    (
        "'' '\\'' \"\\u00e9\\U0001F600\"",
        "String@0 '' String@3 '\\'' String@8 \"\\u00e9\\U0001F600\" | ",
    ),
    ("\"\\u00e\"", "| \"\\u00e\""),
    ("\"a\nb\"", "| \"a\nb\""),
    ("<a b>", "| <a b>"),
    ("<\\u0020> <a\\t>", "IriRef@0 <\\u0020> | <a\\t>"),
    ("ex:a # c", "PnameLn@0 ex:a | "),
    ("ex:a ~", "PnameLn@0 ex:a | ~"),
    ("a#b\n.c", "Word@0 a Dot@4 . | c"),
];

#[test]
fn statements_are_cut(rt: HostRuntime) -> Result<(), Fail> {
    for (document, tokens) in STATEMENTS {
        let found = first_statement(rt.alloc(), document.as_bytes())?;
        assert_eq!(rt; found.as_str(), tokens, "in {document:?}");
    }
    Ok(())
}

#[test]
fn bytes_that_are_no_text_are_in_no_filling(rt: HostRuntime) -> Result<(), Fail> {
    let found = first_statement(rt.alloc(), b"ex:a # c\xff\n.")?;
    assert_eq!(rt; found.as_str(), "PnameLn@0 ex:a | # c");
    let found = first_statement(rt.alloc(), b"ex:a # c\n \xff.")?;
    assert_eq!(rt; found.as_str(), "PnameLn@0 ex:a | ");
    Ok(())
}

/// The fault of the first statement of a text that begins with a token.
fn first_fault(alloc: Global, text: &str) -> Result<Option<TokenFault>, OutOfMemory>
    requires { length text.now < 2 ^ 63 }
{
    let statement = cut_statement(alloc, text, 0, true)?;
    Ok(token_fault(statement.tokens.as_slice()))
}

#[test]
fn the_first_fault_counts(rt: HostRuntime) -> Result<(), Fail> {
    for (text, fault) in [
        ("[ _:a ]", None),
        ("_:x-anon- .", Some(TokenFault::ReservedLabel { at: 0 })),
        (
            "( _:x-anon _:x-anon-1",
            Some(TokenFault::ReservedLabel { at: 11 }),
        ),
        ("a . _:x-anon-", None),
    ] {
        assert_eq!(rt; first_fault(rt.alloc(), text)?, fault, "in {text:?}");
    }
    let mut nested = String::new(rt.alloc());
    for _ in 0..64 {
        nested.push_str("([")?;
    }
    assert_eq!(rt; first_fault(rt.alloc(), nested.as_str())?, None);
    let deeper = format!(in rt.alloc(); "{nested}(")?;
    assert_eq!(rt;
        first_fault(rt.alloc(), deeper.as_str())?,
        Some(TokenFault::TooDeep { at: 128 })
    );
    let closed = format!(in rt.alloc(); "{nested}])]]((((_:x-anon-[")?;
    assert_eq!(rt;
        first_fault(rt.alloc(), closed.as_str())?,
        Some(TokenFault::ReservedLabel { at: 136 })
    );
    Ok(())
}
