ghost use Rattle.std.specs.Prelude.{◌≡◌, IfOk};
ghost use Rattle.std.specs.Str.{chars};
ghost use Rattle.rdf_grammar.specs.declared.dialect.Dialect.TheVariants.{Turtle};
ghost use Rattle.rdf_grammar.specs.Lawful.{IsLabel, IsTag};
ghost use Rattle.rdf_grammar.specs.Productions.{blank_node_label, langtag};
ghost use Rattle.turtle_terms.specs.Answers.{Means};

use crate::ends::is_end;
use rdf_grammar::{Dialect, ParseError, RecentTexts, parse_blank_node_label, parse_langtag};
use rdf_terms::Text;
use std::alloc::Global;

/// The label of a BLANK_NODE_LABEL, which stands behind its `_:` (RDF 1.1 Turtle, section 2.6). `NoMatch` where the
/// text is no such token.
pub fn parse_label(alloc: Global, texts: &mut RecentTexts, token: &str) -> Result<Text, ParseError>
    ensures means { Means (λ t. t) result (blank_node_label Turtle) (chars token.now) }
    ensures lawful { IfOk result (λ label. IsLabel label) }
{
    let (label, rest) = parse_blank_node_label(alloc, Dialect::Turtle, token)?;
    if is_end(rest) {
        Ok(texts.text_of(label)?)
    } else {
        Err(ParseError::NoMatch)
    }
}

/// The language tag of a LANGTAG, which stands behind its `@`, in lower case (RDF 1.1 Turtle, section 2.5.1). `NoMatch`
/// where the text is no such token.
pub fn parse_tag(alloc: Global, texts: &mut RecentTexts, token: &str) -> Result<Text, ParseError>
    ensures means { Means (λ t. t) result langtag (chars token.now) }
    ensures lawful { IfOk result (λ tag. IsTag tag) }
{
    let (tag, rest) = parse_langtag(alloc, token)?;
    if is_end(rest) {
        Ok(texts.text_of(tag)?)
    } else {
        Err(ParseError::NoMatch)
    }
}
