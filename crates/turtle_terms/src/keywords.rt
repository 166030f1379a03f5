ghost use Rattle.std.specs.Prelude.{◌≡◌};
ghost use Rattle.turtle_terms.specs.Keywords.{keyword_of, tag_keyword, word_keyword};

use turtle_tokens::TokenKind;

/// A word with a meaning of its own (RDF 1.1 Turtle, section 6.5).
#[derive(Clone, Copy, Debug, PartialEq, Eq)]
pub enum Keyword {
    /// `a`, which stands for `rdf:type`.
    A,
    /// `true`
    True,
    /// `false`
    False,
    /// `@prefix`
    Prefix,
    /// `@base`
    Base,
    /// `PREFIX` in any case.
    SparqlPrefix,
    /// `BASE` in any case.
    SparqlBase,
}

/// The keyword that has the form of a language tag.
#[tactic(auto, unfolding(crate::specs::Keywords::tag_keyword))]
fn tag_keyword(text: &str) -> Option<Keyword>
    ensures { result ≡ tag_keyword text.now }
{
    if text == "@prefix" {
        return Some(Keyword::Prefix);
    }
    if text == "@base" {
        return Some(Keyword::Base);
    }
    None
}

#[tactic(auto, unfolding(crate::specs::Keywords::word_keyword))]
fn word_keyword(text: &str) -> Option<Keyword>
    ensures { result ≡ word_keyword text.now }
{
    if text == "a" {
        return Some(Keyword::A);
    }
    if text == "true" {
        return Some(Keyword::True);
    }
    if text == "false" {
        return Some(Keyword::False);
    }
    if text.eq_ignore_ascii_case("PREFIX") {
        return Some(Keyword::SparqlPrefix);
    }
    if text.eq_ignore_ascii_case("BASE") {
        return Some(Keyword::SparqlBase);
    }
    None
}

/// Which keyword a token is. `@prefix` and `@base` have the form of a LANGTAG, and are keywords at the beginning of a
/// statement alone.
pub fn keyword_of(kind: TokenKind, text: &str) -> Option<Keyword>
    ensures { result ≡ keyword_of kind text.now }
{
    match kind {
        TokenKind::LangTag => tag_keyword(text),
        TokenKind::Word => word_keyword(text),
        _ => None,
    }
}
