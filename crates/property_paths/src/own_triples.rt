ghost use Rattle.std.specs.Prelude.{◌≡◌};
ghost use Rattle.property_paths.specs.Paths.{triples_about};

use rdf_terms::{Graph, Term, Triple};

/// The triples with this subject, in order. They stand side by side, so two binary searches find them.
pub fn triples_with<'a>(graph: &'a Graph, subject: &Term) -> &'a [Triple]
    ensures { result.now ≡ triples_about graph.now subject.now }
{
    let (first, after) = graph.places_of(subject);
    &graph.as_slice()[first..after]
}
