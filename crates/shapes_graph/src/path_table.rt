ghost use Rattle.std.specs.Prelude.{◌≡◌, ◌++◌, [], ℕ, OnOk, IfOk, map, slice_get, option_map, option_and_then};
ghost use Rattle.std.specs.List.{cons_option};
ghost use Rattle.rdf_terms.specs.Vocab.Sh.{path as sh_path};
ghost use Rattle.rdf_navigation.specs.Values.{value_of};
ghost use Rattle.shapes_profile.specs.Shapes.{shape_terms};
ghost use Rattle.property_paths.specs.Paths.{path_node};
ghost use Rattle.shapes_profile.specs.PathNodes.{path_nodes};
ghost use Rattle.shapes_graph.specs.PathForms.{number_among, path_number, numbered, class_paths, paths, path_of};

use crate::paths::{PathForm, PathForms, PathNumbers};
use crate::shape_numbers::place_in;
use property_paths::{PathNode, path_node};
use rdf_navigation::value_of;
use rdf_terms::vocab::{rdf, rdfs, sh};
use rdf_terms::{Nodes, OutOfMemory, Places, Term, Text};
use shapes_profile::ShapeNodes;
use std::alloc::Global;

/// The number of the path of this node.
fn path_number(nodes: &Nodes, node: &Term) -> usize
    ensures { result ≡ number_among nodes.now node.now }
{
    4 + place_in(nodes, node)
}

/// The numbers of the paths of these nodes, in the order of the list.
fn path_numbers_of(alloc: Global, nodes: &Nodes, parts: &[Term]) -> Result<Places, OutOfMemory>
    ensures { IfOk result (λ ns. ns ≡ map (number_among nodes.now) parts.now) }
{
    let mut numbers = Places::new(alloc);
    'parts: for part in parts {
        numbers.push(path_number(nodes, part) as u64)?;
    }
    Ok(numbers)
}

/// The form of a path node over the numbers of its parts.
fn numbered(alloc: Global, nodes: &Nodes, node: PathNode) -> Result<PathForm, OutOfMemory>
    ensures { IfOk result (λ f. f ≡ numbered (number_among nodes.now) node) }
{
    match node {
        PathNode::Predicate(text) => Ok(PathForm::Predicate(text)),
        PathNode::Inverse(part) => Ok(PathForm::Inverse(path_number(nodes, &part))),
        PathNode::Sequence(first, next) => {
            let first = path_number(nodes, &first);
            let next = path_number(nodes, &next);
            Ok(PathForm::Sequence(first, next))
        }
        PathNode::Alternative(parts) => {
            let numbers = path_numbers_of(alloc, nodes, parts.as_slice())?;
            Ok(PathForm::Alternative(numbers))
        }
        PathNode::ZeroOrMore(part) => Ok(PathForm::ZeroOrMore(path_number(nodes, &part))),
        PathNode::OneOrMore(part) => Ok(PathForm::OneOrMore(path_number(nodes, &part))),
        PathNode::ZeroOrOne(part) => Ok(PathForm::ZeroOrOne(path_number(nodes, &part))),
    }
}

/// The form of the path of a node, and `None` where it is of none of the forms.
fn form_of(
    alloc: Global,
    shapes: &ShapeNodes<'_>,
    nodes: &Nodes,
    node: &Term,
) -> Result<Option<PathForm>, OutOfMemory>
    ensures { IfOk result (λ f. f
        ≡ option_map (numbered (number_among nodes.now)) (path_node shapes.now node.now)) }
{
    match path_node(alloc, shapes.declarations().lists(), shapes.graph(), node)? {
        Some(node) => Ok(Some(numbered(alloc, nodes, node)?)),
        None => Ok(None),
    }
}

/// Appends the form, if there is one.
fn push_some(forms: &mut PathForms, form: Option<PathForm>) -> Result<(), OutOfMemory>
    ensures { OnOk result (forms.new ≡ forms.old ++ cons_option form []) }
{
    match form {
        Some(form) => forms.push(form),
        None => Ok(()),
    }
}

/// The forms of the paths to classes, by their numbers: `rdf:type`, `rdfs:subClassOf`, zero or more of these, and
/// the first of them followed by the third.
#[tactic(auto, unfolding(crate::specs::PathForms::class_paths))]
fn class_paths(alloc: Global) -> Result<PathForms, OutOfMemory>
    ensures { IfOk result (λ fs. fs ≡ class_paths) }
{
    let mut forms = PathForms::new(alloc);
    forms.push(PathForm::Predicate(Text::from_str(alloc, rdf::TYPE)?))?;
    forms.push(PathForm::Predicate(Text::from_str(alloc, rdfs::SUB_CLASS_OF)?))?;
    forms.push(PathForm::ZeroOrMore(1))?;
    forms.push(PathForm::Sequence(0, 2))?;
    Ok(forms)
}

/// The forms of all paths by their numbers: those to classes, and then those of the path nodes in
/// the order of terms (SHACL 2017, section 2.3.1).
pub fn path_forms(
    alloc: Global,
    shapes: &ShapeNodes<'_>,
    nodes: &Nodes,
) -> Result<PathForms, OutOfMemory>
    requires { nodes.now ≡ path_nodes shapes.now }
    ensures { IfOk result (λ fs. fs ≡ paths shapes.now) }
{
    let mut forms = class_paths(alloc)?;
    'nodes: for node in nodes.as_slice() {
        let form = form_of(alloc, shapes, nodes, node)?;
        push_some(&mut forms, form)?;
    }
    Ok(forms)
}

/// The number of the path of a shape, and `None` for a node shape.
fn path_of(shapes: &ShapeNodes<'_>, nodes: &Nodes, shape: &Term) -> Option<usize>
    ensures { result ≡ option_map (number_among nodes.now) (value_of shapes.now shape.now sh_path) }
{
    match value_of(shapes.graph(), shape, sh::PATH) {
        Some(path) => Some(path_number(nodes, path)),
        None => None,
    }
}

/// For each shape, in order, the number of its path, and `None` for a node shape.
pub fn path_numbers(
    alloc: Global,
    shapes: &ShapeNodes<'_>,
    nodes: &Nodes,
) -> Result<PathNumbers, OutOfMemory>
    requires { nodes.now ≡ path_nodes shapes.now }
    ensures all { IfOk result (λ ps. ps
        ≡ map (λ x. option_map (path_number shapes.now) (value_of shapes.now x sh_path)) (shape_terms shapes.now)) }
    ensures at { IfOk result (λ ps. (n : ℕ)
        → path_of shapes.now n ≡ option_and_then (λ p. p) (slice_get ps n)) }
{
    let mut numbers = PathNumbers::new(alloc);
    'shapes: for shape in shapes.as_slice() {
        numbers.push(path_of(shapes, nodes, shape))?;
    }
    Ok(numbers)
}
