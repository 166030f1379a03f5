ghost use Rattle.std.specs.Prelude.{◌≡◌, ◌<◌, IsTrue, length};
ghost use Rattle.rdf_terms.specs.Graph.{triples};
ghost use Rattle.rdf_navigation.specs.Values.{among};
ghost use Rattle.shapes_graph.specs.NodeTests.{is_of_datatype, is_of_kind};
ghost use Rattle.shapes_graph.specs.Forms.{form_of};
ghost use Rattle.value_tests.specs.GoodNodes.{is_test, passes, is_node_test, is_good};

use crate::languages::has_language;
use crate::lengths::{is_long_enough, is_short_enough};
use datatypes::{
    is_well_formed, meets_max_exclusive, meets_max_inclusive, meets_min_exclusive,
    meets_min_inclusive,
};
use property_paths::is_one_of;
use rdf_terms::Term;
use rdf_terms::vocab::sh;
use shapes_graph::{Kind, Shapes};

/// The kinds of nodes that IRIs are of (SHACL 2017, section 4.1.3).
const KINDS_OF_IRIS: [&str; 3] = [sh::IRI, sh::BLANK_NODE_OR_IRI, sh::IRI_OR_LITERAL];

/// The kinds of nodes that blank nodes are of.
const KINDS_OF_BLANK_NODES: [&str; 3] = [
    sh::BLANK_NODE,
    sh::BLANK_NODE_OR_IRI,
    sh::BLANK_NODE_OR_LITERAL,
];

/// The kinds of nodes that literals are of.
const KINDS_OF_LITERALS: [&str; 3] = [sh::LITERAL, sh::BLANK_NODE_OR_LITERAL, sh::IRI_OR_LITERAL];

/// Whether the term is a well-formed literal of the datatype (SHACL 2017, section 4.1.2).
fn is_of_datatype(datatype: &Term, term: &Term) -> bool
    ensures { result ≡ is_of_datatype datatype.now term.now }
{
    match datatype {
        Term::Iri(iri) => match term {
            Term::Literal {
                lexical,
                datatype,
                ..
            } => {
                datatype.as_str() == iri.as_str()
                    && is_well_formed(datatype.as_str(), lexical.as_str())
            }
            Term::Iri(_) | Term::Blank { .. } => false,
        },
        Term::Blank { .. } | Term::Literal { .. } => false,
    }
}

/// Whether the term is of the kind (SHACL 2017, section 4.1.3).
fn is_of_kind(kind: &Term, term: &Term) -> bool
    ensures { result ≡ is_of_kind kind.now term.now }
{
    match term {
        Term::Iri(_) => is_one_of(kind, &KINDS_OF_IRIS),
        Term::Blank { .. } => is_one_of(kind, &KINDS_OF_BLANK_NODES),
        Term::Literal { .. } => is_one_of(kind, &KINDS_OF_LITERALS),
    }
}

/// Whether the term is one of the members (SHACL 2017, section 4.8.3).
fn is_among(members: &[Term], term: &Term) -> bool
    ensures { result ≡ among members.now term.now }
{
    members.iter().any(|member| *term == *member)
}

/// Whether the term passes a test of single terms.
fn passes(kind: &Kind, term: &Term) -> bool
    requires { IsTrue (is_test (form_of kind.now)) }
    ensures { result ≡ passes (form_of kind.now) term.now }
{
    match kind {
        Kind::Datatype(datatype) => is_of_datatype(datatype, term),
        Kind::NodeKind(kind) => is_of_kind(kind, term),
        Kind::MinExclusive(bound) => meets_min_exclusive(bound, term),
        Kind::MinInclusive(bound) => meets_min_inclusive(bound, term),
        Kind::MaxExclusive(bound) => meets_max_exclusive(bound, term),
        Kind::MaxInclusive(bound) => meets_max_inclusive(bound, term),
        Kind::MinLength(count) => is_long_enough(*count, term),
        Kind::MaxLength(count) => is_short_enough(*count, term),
        Kind::LanguageIn(ranges) => has_language(ranges.as_slice(), term),
        Kind::In(members) => is_among(members.as_slice(), term),
        _ => unreachable!(),
    }
}

/// Whether the term, as a value node, passes the constraint that the triple at this place of the shapes
/// graph states. It has to be one that tests each value node by itself: of `sh:datatype`, `sh:nodeKind`,
/// the four ranges, the two lengths, `sh:languageIn` or `sh:in` (SHACL 2017, sections 4.1.2, 4.1.3, 4.3,
/// 4.4.1, 4.4.2, 4.4.4 and 4.8.3). A range takes well-formed integer literals within 128 bits alone, and
/// lengths count characters. It takes no memory.
pub fn good_node(shapes: &Shapes, i: usize, term: &Term) -> bool
    requires place { i < length (triples shapes.now) }
    requires test { IsTrue (is_node_test shapes.now i) }
    ensures { result ≡ is_good shapes.now i term.now }
{
    match shapes.constraint(i) {
        Some(constraint) => passes(&constraint.kind, term),
        None => unreachable!(),
    }
}
