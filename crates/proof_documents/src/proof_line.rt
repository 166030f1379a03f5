ghost use Rattle.std.specs.Prelude.{◌≡◌, ◌≢◌, Some, IfOk, MatchOption, ◌++◌, codes};
ghost use Rattle.rdf_grammar.specs.Answers.{GivesAll};
ghost use Rattle.proof_lines.specs.declared.proof.ProofLine.{ProofLine as Line};
ghost use Rattle.proof_lines.specs.declared.rule.RuleName.{RuleName as Name};
ghost use Rattle.proof_documents.specs.Document.{ascends};
ghost use Rattle.proof_documents.specs.DocumentText.{rule_text};
ghost use Rattle.proof_documents.specs.Lines.{IsProofLine};
ghost use Rattle.proof_documents.specs.Spaces.{IsSpaced};

use crate::numbers::{parse_numbers, split_at_space};
use proof_lines::{ProofLine, Rule, RuleName};
use rdf_grammar::ParseError;
use std::alloc::Global;

/// The line of a proof that these bytes are, without their LF. `NoMatch` exactly where they are none.
pub fn parse_proof_line(alloc: Global, text: &[u8]) -> Result<ProofLine, ParseError>
    ensures found { IfOk result (λ line. IsProofLine text.now line) }
    // A line is read, unless memory runs out, and as no other.
    ensures only { (line : Line) → IsProofLine text.now line → GivesAll (λ l. l) result (Some line) }
{
    match str::from_utf8(text) {
        Ok(text) => parse_line(alloc, text),
        Err(_) => Err(ParseError::NoMatch),
    }
}

/// A line by its first part.
fn parse_line(alloc: Global, text: &str) -> Result<ProofLine, ParseError>
    ensures found { IfOk result (λ line. IsProofLine text.now line) }
    ensures only { (line : Line) → IsProofLine text.now line → GivesAll (λ l. l) result (Some line) }
{
    let (part, rest) = split_at_space(text);
    match part {
        "chain" => parse_chain(alloc, rest),
        "rule" => parse_rule(alloc, rest),
        "step" => parse_step(alloc, rest),
        _ => Err(ParseError::NoMatch),
    }
}

/// The line that is `chain` and this text: places that ascend.
fn parse_chain(alloc: Global, text: &str) -> Result<ProofLine, ParseError>
    requires { IsSpaced text.now }
    ensures found { IfOk result (λ line. IsProofLine (codes "chain" ++ text.now) line) }
    ensures only { (line : Line) → IsProofLine (codes "chain" ++ text.now) line →
        GivesAll (λ l. l) result (Some line) }
{
    let places = parse_numbers(alloc, text)?;
    if ascends(places.as_slice()) {
        Ok(ProofLine::Chain(places))
    } else {
        Err(ParseError::NoMatch)
    }
}

/// Whether each number is below the next.
fn ascends(numbers: &[u64]) -> bool
    ensures { result ≡ ascends numbers.now }
{
    numbers.is_sorted_by(|number, next| number < next)
}

/// The line that is `rule` and this text: the name of a rule, and numbers.
fn parse_rule(alloc: Global, text: &str) -> Result<ProofLine, ParseError>
    requires { IsSpaced text.now }
    ensures found { IfOk result (λ line. IsProofLine (codes "rule" ++ text.now) line) }
    ensures only { (line : Line) → IsProofLine (codes "rule" ++ text.now) line →
        GivesAll (λ l. l) result (Some line) }
{
    let behind = text.strip_prefix(' ').ok_or(ParseError::NoMatch)?;
    let (part, rest) = split_at_space(behind);
    let name = parse_rule_name(part).ok_or(ParseError::NoMatch)?;
    let numbers = parse_numbers(alloc, rest)?;
    Ok(ProofLine::Rule(Rule { name, numbers }))
}

/// The rule that this part names.
fn parse_rule_name(part: &str) -> Option<RuleName>
    ensures { MatchOption result ((name : Name) → part.now ≢ rule_text name)
        (λ name. part.now ≡ rule_text name) }
{
    match part {
        "reach" => Some(RuleName::Reach),
        "level" => Some(RuleName::Level),
        "middle" => Some(RuleName::Middle),
        "good" => Some(RuleName::Good),
        "marked" => Some(RuleName::Marked),
        "count" => Some(RuleName::Count),
        "differ" => Some(RuleName::Differ),
        "twin" => Some(RuleName::Twin),
        "holds" => Some(RuleName::Holds),
        "conforms" => Some(RuleName::Conforms),
        "target" => Some(RuleName::Target),
        "root" => Some(RuleName::Root),
        "outside" => Some(RuleName::Outside),
        "undo" => Some(RuleName::Undo),
        _ => None,
    }
}

/// The line that is `step` and this text: at least two ids.
fn parse_step(alloc: Global, text: &str) -> Result<ProofLine, ParseError>
    requires { IsSpaced text.now }
    ensures found { IfOk result (λ line. IsProofLine (codes "step" ++ text.now) line) }
    ensures only { (line : Line) → IsProofLine (codes "step" ++ text.now) line →
        GivesAll (λ l. l) result (Some line) }
{
    let ids = parse_numbers(alloc, text)?;
    if ids.as_slice().len() >= 2 {
        Ok(ProofLine::Step(ids))
    } else {
        Err(ParseError::NoMatch)
    }
}
