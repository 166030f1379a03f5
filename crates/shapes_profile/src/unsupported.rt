ghost use Rattle.std.specs.Prelude.{◌≡◌, IfSome, IfNone};
ghost use Rattle.rdf_navigation.specs.Values.{among};
ghost use Rattle.shapes_profile.specs.Logic.{IsFirst, NoneOf};
ghost use Rattle.shapes_profile.specs.Profile.{unsupported, predicates, IsUnsupported};

use property_paths::is_one_of;
use rdf_terms::vocab::sh;
use rdf_terms::{Graph, Term};

/// The predicates of SHACL that this project leaves out.
const UNSUPPORTED: [&str; 17] = [
    sh::PATTERN,
    sh::FLAGS,
    sh::LESS_THAN,
    sh::LESS_THAN_OR_EQUALS,
    sh::SPARQL,
    sh::SELECT,
    sh::ASK,
    sh::PARAMETER,
    sh::VALIDATOR,
    sh::NODE_VALIDATOR,
    sh::PROPERTY_VALIDATOR,
    sh::RULE,
    sh::TARGET,
    sh::JS,
    sh::ENTAILMENT,
    sh::EXPRESSION,
    sh::VALUES,
];

fn is_unsupported(predicate: &Term) -> bool
    ensures { result ≡ among unsupported predicate.now }
{
    is_one_of(predicate, &UNSUPPORTED)
}

/// The predicate of the first triple whose predicate this project leaves out.
pub fn first_unsupported(graph: &Graph) -> Option<&Term>
    ensures some { IfSome result (λ p. IsFirst IsUnsupported (predicates graph.now) p.now) }
    ensures none { IfNone result (NoneOf IsUnsupported (predicates graph.now)) }
{
    'seeking: for triple in graph.as_slice() {
        if is_unsupported(&triple.predicate) {
            return Some(&triple.predicate);
        }
    }
    None
}
