ghost use Rattle.std.specs.Prelude.{◌≡◌, ◌||◌, IfOk, IfSome};
ghost use Rattle.std.specs.Option.{option_copied};
ghost use Rattle.rdf_grammar.specs.Answers.{GivesAll};
ghost use Rattle.rdf_grammar.specs.Lawful.{IsLawful};
ghost use Rattle.turtle_terms.specs.Literals.{is_boolean, datatype_of, unquoted_literal, IsDatatype};

use rdf_grammar::{ParseError, RecentTexts};
use rdf_terms::Term;
use rdf_terms::vocab::xsd;
use turtle_tokens::TokenKind;

fn is_boolean(word: &str) -> bool
    ensures { result ≡ is_boolean word.now }
{
    word == "true" || word == "false"
}

/// The datatype of a literal that is written without quotation marks (RDF 1.1 Turtle, sections 2.5.2 and 2.5.3).
fn datatype_of(kind: TokenKind, text: &str) -> Option<&'static str>
    ensures gives { option_copied result ≡ datatype_of kind text.now }
    ensures lawful { IfSome result (λ d. IsDatatype d.now) }
{
    match kind {
        TokenKind::Integer => Some(xsd::INTEGER),
        TokenKind::Decimal => Some(xsd::DECIMAL),
        TokenKind::Double => Some(xsd::DOUBLE),
        TokenKind::Word if is_boolean(text) => Some(xsd::BOOLEAN),
        _ => None,
    }
}

/// The literal that a number, `true` or `false` means: its lexical form is the token as it is written, and its datatype
/// goes by the kind of the token. `NoMatch` where the token is none of them. That the text is of that kind is not
/// tried.
pub fn parse_unquoted(
    texts: &mut RecentTexts,
    kind: TokenKind,
    text: &str,
) -> Result<Term, ParseError>
    ensures gives { GivesAll (λ t. t) result (unquoted_literal kind text.now) }
    ensures lawful { IfOk result (λ t. IsLawful t) }
{
    match datatype_of(kind, text) {
        Some(datatype) => Ok(Term::Literal {
            lexical: texts.copy_of(text)?,
            datatype: texts.copy_of(datatype)?,
            tag: None,
        }),
        None => Err(ParseError::NoMatch),
    }
}
