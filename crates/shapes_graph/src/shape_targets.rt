ghost use Rattle.std.specs.Prelude.{◌≡◌, [], ◌∷◌, ◌++◌, OnOk, IfOk, map, filter_map, option_and_then, if◌then◌else◌};
ghost use Rattle.std.specs.List.{cons_option};
ghost use Rattle.rdf_terms.specs.Graph.{triples};
ghost use Rattle.shapes_graph.specs.Targets.{target_of, target_by, targets};
ghost use Rattle.shapes_profile.specs.Shapes.{is_implicit_class, shape_terms};
ghost use Rattle.shapes_graph.specs.declared.targets.Target.TheVariants.{Class};
ghost use Rattle.shapes_profile.specs.Properties.{property_of};

use crate::kinds::text_of;
use crate::targets::{Target, TargetLists, Targets};
use property_paths::triples_with;
use rdf_terms::{Graph, OutOfMemory, Term, Triple};
use shapes_profile::{Declarations, Property, ShapeNodes};
use std::alloc::Global;

/// The target that a value of the property states.
fn target_of(alloc: Global, value: &Term, property: Property) -> Result<Option<Target>, OutOfMemory>
    ensures { IfOk result (λ t. t ≡ target_of value.now property) }
{
    match property {
        Property::TargetNode => Ok(Some(Target::Node(value.copy(alloc)?))),
        Property::TargetClass => Ok(Some(Target::Class(value.copy(alloc)?))),
        Property::TargetSubjectsOf => Ok(Some(Target::SubjectsOf(text_of(alloc, value)?))),
        Property::TargetObjectsOf => Ok(Some(Target::ObjectsOf(text_of(alloc, value)?))),
        _ => Ok(None),
    }
}

/// The target that a triple states for its subject.
fn own_target(alloc: Global, triple: &Triple) -> Result<Option<Target>, OutOfMemory>
    ensures { IfOk result (λ o. o ≡ option_and_then (target_of triple.now.object) (property_of triple.now.predicate)) }
{
    match Property::of(&triple.predicate) {
        Some(property) => target_of(alloc, &triple.object, property),
        None => Ok(None),
    }
}

/// Appends the target, if there is one.
fn push_some(targets: &mut Targets, target: Option<Target>) -> Result<(), OutOfMemory>
    ensures { OnOk result (targets.new ≡ targets.old ++ cons_option target []) }
{
    match target {
        Some(target) => targets.push(target),
        None => Ok(()),
    }
}

/// Appends the targets that the triples of a shape state.
fn push_targets(
    alloc: Global,
    targets: &mut Targets,
    graph: &Graph,
    shape: &Term,
) -> Result<(), OutOfMemory>
    ensures { OnOk result (targets.new ≡ targets.old ++ filter_map (target_by shape.now) (triples graph.now)) }
{
    'triples: for triple in triples_with(graph, shape) {
        let target = own_target(alloc, triple)?;
        push_some(targets, target)?;
    }
    Ok(())
}

/// Appends the shape as a target of its own, where it is an implicit class.
fn push_implicit_class(
    alloc: Global,
    targets: &mut Targets,
    declarations: &Declarations<'_>,
    shape: &Term,
) -> Result<(), OutOfMemory>
    ensures { OnOk result (targets.new ≡ targets.old
        ++ (if is_implicit_class declarations.now shape.now then Class shape.now ∷ [] else [])) }
{
    if declarations.is_implicit_class(shape) {
        return targets.push(Target::Class(shape.copy(alloc)?));
    }
    Ok(())
}

/// The targets of a shape, in the order of the graph, and at the end the shape itself where it is an
/// implicit class (SHACL 2017, section 2.1.3).
pub fn targets_of(
    alloc: Global,
    declarations: &Declarations<'_>,
    shape: &Term,
) -> Result<Targets, OutOfMemory>
    ensures { IfOk result (λ ts. ts ≡ targets declarations.now shape.now) }
{
    let mut targets = Targets::new(alloc);
    push_targets(alloc, &mut targets, declarations.graph(), shape)?;
    push_implicit_class(alloc, &mut targets, declarations, shape)?;
    Ok(targets)
}

/// For each shape, in order, its targets.
pub fn target_lists(alloc: Global, shapes: &ShapeNodes<'_>) -> Result<TargetLists, OutOfMemory>
    ensures { IfOk result (λ ts. ts ≡ map (targets shapes.now) (shape_terms shapes.now)) }
{
    let mut lists = TargetLists::new(alloc);
    'shapes: for shape in shapes.as_slice() {
        lists.push(targets_of(alloc, shapes.declarations(), shape)?)?;
    }
    Ok(lists)
}
