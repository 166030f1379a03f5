ghost use Rattle.std.specs.Prelude.{◌≡◌, ◌<◌, ℕ, IfOk, map, length, slice_get, slice_index_or, is_some, None};
ghost use Rattle.std.specs.Prelude.{[], ◌∷◌, ◌++◌, OnOk, option_and_then, filter_map, if◌then◌else◌};
ghost use Rattle.std.specs.List.{enumerate_from};
ghost use Rattle.rdf_terms.specs.Graph.{triples};
ghost use Rattle.shapes_profile.specs.Shapes.{shape_terms};
ghost use Rattle.shapes_graph.specs.Constraints.{constraint_of, constraint_at, place_of, constraints_of};

use crate::constraints::{Constraint, Constraints, PlaceLists, TriplePlaces};
use crate::kinds::kind_of;
use crate::shape_numbers::number_of;
use rdf_terms::{OutOfMemory, Term, Triple};
use shapes_profile::{Property, ShapeNodes};
use std::alloc::Global;

/// The constraint that a triple states, if it states one.
fn constraint_of(
    alloc: Global,
    shapes: &ShapeNodes<'_>,
    triple: &Triple,
) -> Result<Option<Constraint>, OutOfMemory>
    ensures { IfOk result (λ c. c ≡ constraint_of shapes.now triple.now) }
{
    match Property::of(&triple.predicate) {
        None => Ok(None),
        Some(property) => {
            match kind_of(alloc, shapes, &triple.subject, &triple.object, property)? {
                Some(kind) => Ok(Some(Constraint {
                    shape: number_of(shapes, &triple.subject),
                    kind,
                })),
                None => Ok(None),
            }
        }
    }
}

/// For each triple, in order, the constraint that it states, if it states one.
pub fn read_constraints(alloc: Global, shapes: &ShapeNodes<'_>) -> Result<Constraints, OutOfMemory>
    ensures all { IfOk result (λ cs. cs ≡ map (constraint_of shapes.now) (triples shapes.now)) }
    ensures at { IfOk result (λ cs. (i : ℕ) → constraint_at shapes.now i ≡ option_and_then (λ c. c) (slice_get cs i)) }
{
    let mut constraints = Constraints::new(alloc);
    'triples: for triple in shapes.graph().as_slice() {
        constraints.push(constraint_of(alloc, shapes, triple)?)?;
    }
    Ok(constraints)
}

/// Whether the triple at the place states a constraint.
fn is_constraint(constraints: &[Option<Constraint>], place: usize) -> bool
    requires { place < length constraints.now }
    ensures { result ≡ is_some (slice_index_or constraints.now place None) }
{
    constraints[place].is_some()
}

/// Appends the place, if the triple there states a constraint.
fn push_constraint_place(
    places: &mut TriplePlaces,
    constraints: &[Option<Constraint>],
    place: usize,
) -> Result<(), OutOfMemory>
    requires { place < length constraints.now }
    ensures { OnOk result (places.new ≡ places.old
        ++ (if is_some (slice_index_or constraints.now place None) then place ∷ [] else [])) }
{
    if is_constraint(constraints, place) {
        return places.push(place);
    }
    Ok(())
}

/// The places of the triples that state constraints of the shape, ascending.
fn places_of_shape(
    alloc: Global,
    shapes: &ShapeNodes<'_>,
    constraints: &[Option<Constraint>],
    shape: &Term,
) -> Result<TriplePlaces, OutOfMemory>
    requires { constraints.now ≡ map (constraint_of shapes.now) (triples shapes.now) }
    ensures { IfOk result (λ ps. ps
        ≡ filter_map (place_of shapes.now shape.now) (enumerate_from 0 (triples shapes.now))) }
{
    let (first, after) = shapes.graph().places_of(shape);
    let mut places = TriplePlaces::new(alloc);
    'places: for place in first..after {
        push_constraint_place(&mut places, constraints, place)?;
    }
    Ok(places)
}

/// For each shape, in order, the places of the triples that state its constraints, ascending.
pub fn constraint_places(
    alloc: Global,
    shapes: &ShapeNodes<'_>,
    constraints: &[Option<Constraint>],
) -> Result<PlaceLists, OutOfMemory>
    requires { constraints.now ≡ map (constraint_of shapes.now) (triples shapes.now) }
    ensures at { IfOk result (λ ps. (n : ℕ) → constraints_of shapes.now n ≡ slice_get ps n) }
    ensures size { IfOk result (λ ps. length ps ≡ length (shape_terms shapes.now)) }
{
    let mut lists = PlaceLists::new(alloc);
    'shapes: for shape in shapes.as_slice() {
        lists.push(places_of_shape(alloc, shapes, constraints, shape)?)?;
    }
    Ok(lists)
}
