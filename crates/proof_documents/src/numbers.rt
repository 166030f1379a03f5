ghost use Rattle.std.specs.Prelude.{◌≡◌, ℕ, List, Some, IfOk};
ghost use Rattle.rdf_grammar.specs.Answers.{GivesAll};
ghost use Rattle.proof_documents.specs.Document.{AreShort};
ghost use Rattle.proof_documents.specs.DocumentText.{numbers_text};
ghost use Rattle.proof_documents.specs.Spaces.{IsSpaced, IsFirstPart};

use numerals::parse_numeral;
use rdf_grammar::ParseError;
use rdf_terms::Numbers;
use std::alloc::Global;

/// The text before its first space, and the rest from that space on.
pub fn split_at_space(text: &str) -> (&str, &str)
    ensures { IsFirstPart text.now result.0.now result.1.now }
{
    match text.find(' ') {
        Some(space) => text.split_at(space),
        None => (text, ""),
    }
}

/// The numbers that a text spells in decimal digits, each behind one space. `NoMatch` where it
/// spells none so, or one of more than 64 bits.
pub fn parse_numbers(alloc: Global, text: &str) -> Result<Numbers, ParseError>
    requires { IsSpaced text.now }
    ensures found { IfOk result (λ ns. AreShort ns × (text.now ≡ numbers_text ns)) }
    ensures only { (ns : List ℕ) → AreShort ns → text.now ≡ numbers_text ns →
        GivesAll (λ n. n) result (Some ns) }
{
    let mut numbers = Numbers::new(alloc);
    let mut rest = text;
    'numbers: while let Some(behind) = rest.strip_prefix(' ') {
        let (digits, after) = split_at_space(behind);
        numbers.push(parse_numeral(digits).ok_or(ParseError::NoMatch)?)?;
        rest = after;
    }
    Ok(numbers)
}
