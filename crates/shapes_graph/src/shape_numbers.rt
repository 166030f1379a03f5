ghost use Rattle.std.specs.Prelude.{◌≡◌, ◌<◌, ◌^◌, IfOk};
ghost use Rattle.rdf_terms.specs.Nodes.{terms};
ghost use Rattle.shapes_profile.specs.Shapes.{place_in, shape_number};
ghost use Rattle.shapes_graph.specs.Constraints.{shape_numbers};

use rdf_terms::{Nodes, OutOfMemory, Places, Term};
use shapes_profile::ShapeNodes;
use std::alloc::Global;

/// The place of the term in the set, and the number of its terms where it isn't there.
#[tactic(auto, using(crate::proofs::NumberLaws::place_there, crate::proofs::NumberLaws::place_absent))]
pub fn place_in(nodes: &Nodes, term: &Term) -> usize
    ensures value { result ≡ place_in (terms nodes.now) term.now }
    ensures small { result < 2 ^ 63 }
{
    let terms = nodes.as_slice();
    match nodes.index_of_term(term) {
        Some(place) => place,
        None => terms.len(),
    }
}

/// The number of the shape.
pub fn number_of(shapes: &ShapeNodes<'_>, shape: &Term) -> usize
    ensures { result ≡ shape_number shapes.now shape.now }
{
    place_in(shapes.nodes(), shape)
}

/// The numbers of the shapes, in the order of the list.
pub fn numbers_of(
    alloc: Global,
    shapes: &ShapeNodes<'_>,
    terms: &[Term],
) -> Result<Places, OutOfMemory>
    ensures { IfOk result (λ ns. ns ≡ shape_numbers shapes.now terms.now) }
{
    let mut numbers = Places::new(alloc);
    'terms: for term in terms {
        numbers.push(number_of(shapes, term) as u64)?;
    }
    Ok(numbers)
}
