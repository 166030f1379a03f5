ghost use Rattle.std.specs.Prelude.{◌≡◌, ◌<◌, ◌++◌, IfOk, OnOk, length, flat_map, option_map};
ghost use Rattle.shapes_profile.specs.Shapes.{shape_terms};
ghost use Rattle.path_levels.specs.PossibleNodes.{node_count};
ghost use Rattle.atom_parts.specs.PartsTable.{is_shape, conforms_parts, target_list, target_parts};
ghost use Rattle.atom_parts.specs.Sources.{listed_parts};

use crate::candidate_lists::{push_objects_of, push_subjects_of};
use crate::sources::{AtomParts, PartSource, all_of, any_of};
use crate::value_parts::instance_part;
use path_levels::PossibleNodes;
use rdf_terms::OutOfMemory;
use repair_problem::{Part, PartList, Problem};
use shapes_graph::Target;
use std::alloc::Global;

/// Whether it is the number of a shape.
pub(crate) fn is_shape(problem: &Problem, s: u64) -> bool
    ensures { result ≡ is_shape problem.now s }
{
    s < problem.shapes().shape_count() as u64
}

/// What it comes down to that the node conforms to the shape, if there is such a shape.
pub(crate) fn conforms_parts<'p>(
    alloc: Global,
    problem: &'p Problem,
    s: u64,
    x: u64,
) -> Option<AtomParts<'p>>
    ensures { option_map listed_parts result ≡ conforms_parts problem.now s x }
{
    if !is_shape(problem, s) {
        return None;
    }
    let shapes = problem.shapes();
    if shapes.deactivated(s as usize) {
        return Some(all_of(PartList::new(alloc)));
    }
    Some(AtomParts {
        every: true,
        source: PartSource::Holding {
            constraints: shapes.constraints_of(s as usize),
            node: x,
        },
    })
}

/// Appends what it comes down to that the node is a focus node by the target.
fn push_target(
    nodes: &mut PossibleNodes<'_>,
    list: &mut PartList,
    x: u64,
    target: &Target,
) -> Result<(), OutOfMemory>
    requires { x < node_count nodes.old }
    ensures value { OnOk result (list.new ≡ list.old ++ target_list nodes.old x target.now) }
    ensures same { nodes.new ≡ nodes.old }
{
    let problem = nodes.problem();
    let term = problem.nodes().nth_term(x as usize);
    match target {
        Target::Node(node) => list.push(Part::Fixed(*term == *node)),
        Target::Class(class) => {
            let instance = instance_part(nodes, x, class)?;
            list.push(instance)
        }
        Target::SubjectsOf(predicate) => {
            push_subjects_of(list, problem, term, predicate.as_str())
        }
        Target::ObjectsOf(predicate) => push_objects_of(list, problem, term, predicate.as_str()),
    }
}

/// What it comes down to that the node is a focus node of the shape, if there is such a shape.
pub(crate) fn target_parts<'p>(
    alloc: Global,
    nodes: &mut PossibleNodes<'p>,
    s: u64,
    x: u64,
) -> Result<Option<AtomParts<'p>>, OutOfMemory>
    requires { x < node_count nodes.old }
    ensures value { IfOk result (λ o. option_map listed_parts o ≡ target_parts nodes.old s x) }
    ensures same { nodes.new ≡ nodes.old }
{
    let problem = nodes.problem();
    if !is_shape(problem, s) {
        return Ok(None);
    }
    let mut list = PartList::new(alloc);
    'targets: for target in problem.shapes().targets_of(s as usize) {
        push_target(nodes, &mut list, x, target)?;
    }
    Ok(Some(any_of(list)))
}
