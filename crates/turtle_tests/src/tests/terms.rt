//! What a token means. Most tokens are those of the examples of RDF 1.1 Turtle.

use rdf_grammar::{ParseError, RecentTexts};
use rdf_terms::vocab::xsd;
use rdf_terms::{OutOfMemory, Term, Text};
use std::alloc::Global;
use std::test::Fail;
use turtle_terms::{
    Keyword, expand_name, keyword_of, parse_iri, parse_label, parse_string, parse_tag,
    parse_unquoted, split_name,
};
use turtle_tokens::TokenKind;

/// What was read, or `None` where the token means nothing.
fn meaning(read: Result<Text, ParseError>) -> Result<Option<Text>, ParseError> {
    match read {
        Ok(text) => Ok(Some(text)),
        Err(ParseError::NoMatch) => Ok(None),
        Err(error) => Err(error),
    }
}

/// Tokens, and their lexical forms (sections 2.5.1 and 6.4).
const STRINGS: [(&str, Option<&str>); 14] = [
    ("\"That Seventies Show\"", Some("That Seventies Show")),
    (
        "'Cette Série des Années Soixante-dix'",
        Some("Cette Série des Années Soixante-dix"),
    ),
    (
        "'''many quotes (\"\"\"\"\")\nand up to two sequential apostrophes ('').'''",
        Some("many quotes (\"\"\"\"\")\nand up to two sequential apostrophes ('')."),
    ),
    ("\"\"\"a\"\"\"", Some("a")),
    ("\"\"", Some("")),
    ("''", Some("")),
    ("\"\"\"\"\"\"", Some("")),
    (
        "\"\\t\\b\\n\\r\\f\\\"\\'\\\\\"",
        Some("\t\u{8}\n\r\u{c}\"'\\"),
    ),
    ("'\\u00E9\\U0001f600'", Some("é😀")),
    ("\"%41\"", Some("%41")),
    ("\"\\ud800\"", None),
    ("\"\\U00110000\"", None),
    ("\"a", None),
    ("a", None),
];

#[test]
fn strings_have_lexical_forms(rt: HostRuntime) -> Result<(), Fail> {
    let mut texts = RecentTexts::new(rt.alloc());
    for (token, lexical) in STRINGS {
        let found = meaning(parse_string(rt.alloc(), &mut texts, token))?;
        assert_eq!(rt; found.as_ref().map(|t| t.as_str()), lexical, "of {token:?}");
    }
    Ok(())
}

/// What an IRIREF stands for under a base, which is written as a token too.
fn iri_under(alloc: Global, base: Option<&str>, token: &str) -> Result<Text, ParseError> {
    let mut texts = RecentTexts::new(alloc);
    match base {
        Some(base) => {
            let base = parse_iri(alloc, &mut texts, None, base)?;
            parse_iri(alloc, &mut texts, Some(&base), token)
        }
        None => parse_iri(alloc, &mut texts, None, token),
    }
}

/// The base, if any, an IRIREF, and the IRI that it stands for (sections 2.4 and 6.3).
const IRIS: [(Option<&str>, &str, Option<&str>); 11] = [
    (
        None,
        "<http://one.example/subject1>",
        Some("http://one.example/subject1"),
    ),
    (
        Some("<http://one.example/>"),
        "<subject2>",
        Some("http://one.example/subject2"),
    ),
    (
        Some("<http://one.example/>"),
        "<path/>",
        Some("http://one.example/path/"),
    ),
    (
        Some("<http://one.example/a/b?c>"),
        "<../d#e>",
        Some("http://one.example/d#e"),
    ),
    (
        Some("<http://one.example/a#b>"),
        "<>",
        Some("http://one.example/a"),
    ),
    (Some("<http://one.example/>"), "<urn:a>", Some("urn:a")),
    (
        None,
        "<http://伝言.example/?user=أكرم&channel=R%26D>",
        Some("http://伝言.example/?user=أكرم&channel=R%26D"),
    ),
    (
        None,
        "<http://a.example/\\u00E9>",
        Some("http://a.example/é"),
    ),
    (None, "<subject2>", None),
    (None, "<http://a.example/\\u0020>", None),
    (None, "http://a.example/", None),
];

#[test]
fn references_stand_for_iris(rt: HostRuntime) -> Result<(), Fail> {
    for (base, token, iri) in IRIS {
        let found = meaning(iri_under(rt.alloc(), base, token))?;
        assert_eq!(rt;
            found.as_ref().map(|t| t.as_str()),
            iri,
            "of {token:?} under {base:?}"
        );
    }
    Ok(())
}

/// Names, and their prefixes and local parts (section 2.4).
const NAMES: [(&str, Option<(&str, &str)>); 7] = [
    ("foaf:name", Some(("foaf", "name"))),
    ("leg:3032571", Some(("leg", "3032571"))),
    ("og:video:height", Some(("og", "video:height"))),
    ("wgs:lat\\-long", Some(("wgs", "lat\\-long"))),
    ("foaf:", Some(("foaf", ""))),
    (":", Some(("", ""))),
    ("foaf", None),
];

#[test]
fn names_are_cut_at_their_first_colon(rt: HostRuntime) -> Result<(), Fail> {
    for (name, parts) in NAMES {
        assert_eq!(rt;
            split_name(name).map(|n| (n.prefix, n.local)),
            parts,
            "of {name:?}"
        );
    }
    Ok(())
}

/// The IRI of a local part whose prefix stands for a namespace.
fn expanded(alloc: Global, namespace: &str, local: &str) -> Result<String, OutOfMemory> {
    let namespace = Text::from_str(alloc, namespace)?;
    expand_name(alloc, &namespace, local)
}

#[test]
fn names_are_expanded(rt: HostRuntime) -> Result<(), Fail> {
    for (namespace, local, iri) in [
        (
            "http://www.perceive.net/schemas/relationship/",
            "enemyOf",
            "http://www.perceive.net/schemas/relationship/enemyOf",
        ),
        (
            "http://ogp.me/ns#",
            "video:height",
            "http://ogp.me/ns#video:height",
        ),
        (
            "http://a.example/",
            "lat\\-long",
            "http://a.example/lat-long",
        ),
        ("http://a.example/", "\\%4\\.", "http://a.example/%4."),
        ("http://a.example/", "é%41", "http://a.example/é%41"),
        ("http://a.example/", "", "http://a.example/"),
    ] {
        assert_eq!(rt;
            expanded(rt.alloc(), namespace, local)?.as_str(),
            iri,
            "of {local:?}"
        );
    }
    Ok(())
}

#[test]
fn labels_stand_behind_their_mark(rt: HostRuntime) -> Result<(), Fail> {
    let mut texts = RecentTexts::new(rt.alloc());
    for (token, label) in [
        ("_:alice", Some("alice")),
        ("_:a..b", Some("a..b")),
        ("_:1", Some("1")),
        ("_:a:b", None),
        ("_:a.", None),
        ("alice", None),
    ] {
        let found = meaning(parse_label(rt.alloc(), &mut texts, token))?;
        assert_eq!(rt; found.as_ref().map(|t| t.as_str()), label, "of {token:?}");
    }
    Ok(())
}

#[test]
fn tags_are_in_lower_case(rt: HostRuntime) -> Result<(), Fail> {
    let mut texts = RecentTexts::new(rt.alloc());
    for (token, tag) in [
        ("@en", Some("en")),
        ("@fr-be", Some("fr-be")),
        ("@EN-GB-1", Some("en-gb-1")),
        ("@en-", None),
        ("en", None),
    ] {
        let found = meaning(parse_tag(rt.alloc(), &mut texts, token))?;
        assert_eq!(rt; found.as_ref().map(|t| t.as_str()), tag, "of {token:?}");
    }
    Ok(())
}

/// A literal without a language tag.
fn literal(alloc: Global, lexical: &str, datatype: &str) -> Result<Term, OutOfMemory> {
    Ok(Term::Literal {
        lexical: Text::from_str(alloc, lexical)?,
        datatype: Text::from_str(alloc, datatype)?,
        tag: None,
    })
}

/// Section 2.5.2 and 2.5.3.
#[test]
fn unquoted_literals_have_datatypes(rt: HostRuntime) -> Result<(), Fail> {
    let mut texts = RecentTexts::new(rt.alloc());
    for (kind, token, datatype) in [
        (TokenKind::Integer, "2", xsd::INTEGER),
        (TokenKind::Integer, "+007", xsd::INTEGER),
        (TokenKind::Decimal, "4.002602", xsd::DECIMAL),
        (TokenKind::Double, "1.663E-4", xsd::DOUBLE),
        (TokenKind::Word, "false", xsd::BOOLEAN),
        (TokenKind::Word, "true", xsd::BOOLEAN),
    ] {
        let found = parse_unquoted(&mut texts, kind, token)?;
        assert_eq!(rt;
            found,
            literal(rt.alloc(), token, datatype)?,
            "of {token:?}"
        );
    }
    let found = parse_unquoted(&mut texts, TokenKind::Word, "True");
    assert_eq!(rt; found.err(), Some(ParseError::NoMatch));
    Ok(())
}

#[test]
fn keywords_are_known(rt: HostRuntime) -> Result<(), Fail> {
    for (kind, token, keyword) in [
        (TokenKind::Word, "a", Some(Keyword::A)),
        (TokenKind::Word, "true", Some(Keyword::True)),
        (TokenKind::Word, "false", Some(Keyword::False)),
        (TokenKind::LangTag, "@prefix", Some(Keyword::Prefix)),
        (TokenKind::LangTag, "@base", Some(Keyword::Base)),
        (TokenKind::Word, "pReFiX", Some(Keyword::SparqlPrefix)),
        (TokenKind::Word, "BASE", Some(Keyword::SparqlBase)),
        (TokenKind::Word, "A", None),
        (TokenKind::Word, "TRUE", None),
        (TokenKind::LangTag, "@PREFIX", None),
        (TokenKind::LangTag, "@en", None),
        (TokenKind::String, "a", None),
    ] {
        assert_eq!(rt; keyword_of(kind, token), keyword, "of {token:?}");
    }
    Ok(())
}
