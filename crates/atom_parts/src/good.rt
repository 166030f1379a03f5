ghost use Rattle.std.specs.Prelude.{◌≡◌, ◌<◌, ◌++◌, [], ◌∷◌, true, false, Some, IfOk, option_map};
ghost use Rattle.shapes_graph.specs.Forms.{form_of};
ghost use Rattle.shapes_graph.specs.Constraints.{constraint_at};
ghost use Rattle.repair_problem.specs.declared.atom.Atom.TheVariants as variant;
ghost use Rattle.repair_problem.specs.Setting.{node};
ghost use Rattle.path_levels.specs.PossibleNodes.{node_count};
ghost use Rattle.path_levels.specs.PathParts.{literal as literal_part};
ghost use Rattle.count_encode.specs.PartTruth.{negation as not_part};
ghost use Rattle.count_encode.specs.Counts.{counted as counter};
ghost use Rattle.atom_parts.specs.CandidateLists.{candidates_if, is_open};
ghost use Rattle.atom_parts.specs.PartsTable.{good_parts, good_part, conforming_parts, triple_parts};
ghost use Rattle.atom_parts.specs.Sources.{listed_parts};

use crate::candidate_lists::closed_list;
use crate::sources::{AtomParts, PartSource, all_of, any_of, one_part, two_parts};
use crate::value_parts::{instance_part, literal};
use count_encode::{counted, negation};
use path_levels::PossibleNodes;
use rdf_terms::{OutOfMemory, Terms};
use repair_problem::{Atom, Part, PartList, Problem};
use shapes_graph::{Constraint, Kind};
use std::alloc::Global;
use value_tests::good_node;

/// That the node conforms to the shape, or that it doesn't, as a part.
fn conforming(shape: u64, node: u64, positive: bool) -> Part
    ensures { result ≡ literal_part (variant.Conforms shape node) positive }
{
    literal(Atom::Conforms { s: shape, x: node }, positive)
}

/// That the node conforms to the shape and to none of its siblings.
fn qualified_list(
    alloc: Global,
    node: u64,
    shape: usize,
    siblings: &[u64],
) -> Result<PartList, OutOfMemory>
    ensures { IfOk result (λ list. list
        ≡ conforming_parts (shape ∷ []) node true ++ conforming_parts siblings.now node false) }
{
    let mut list = one_part(alloc, conforming(shape as u64, node, true))?;
    'siblings: for sibling in siblings {
        list.push(conforming(*sibling, node, false))?;
    }
    Ok(list)
}

/// That the node conforms to one of so many shapes and not to two, by the counters of the constraint.
fn one_of_list(alloc: Global, i: u64, node: u64, count: u64) -> Result<PartList, OutOfMemory>
    ensures { IfOk result (λ list. list ≡ counter i node count 1 ∷ not_part (counter i node count 2) ∷ []) }
{
    two_parts(
        alloc,
        counted(i, node, count, 1),
        negation(counted(i, node, count, 2)),
    )
}

/// That no candidate with the node as subject and a predicate that isn't allowed is in the graph.
fn closed_list_of(
    alloc: Global,
    nodes: &PossibleNodes<'_>,
    y: u64,
    allowed: &Terms,
) -> Result<PartList, OutOfMemory>
    requires { y < node_count nodes.now }
    ensures { IfOk result (λ list. list
        ≡ triple_parts (candidates_if nodes.now (is_open allowed.now (node nodes.now y))) false) }
{
    let problem = nodes.problem();
    let subject = problem.nodes().nth_term(y as usize);
    closed_list(alloc, problem, subject, allowed.as_slice())
}

/// What the node has to be to pass the constraint as a single value node, if that is an atom.
pub(crate) fn good_parts<'p>(
    alloc: Global,
    nodes: &mut PossibleNodes<'p>,
    i: u64,
    node: u64,
    kind: &'p Kind,
) -> Result<Option<AtomParts<'p>>, OutOfMemory>
    requires { node < node_count nodes.old }
    ensures value { IfOk result (λ o. option_map listed_parts o ≡ good_parts nodes.old i node (form_of kind.now)) }
    ensures same { nodes.new ≡ nodes.old }
{
    match kind {
        Kind::Class(class) => {
            let instance = instance_part(nodes, node, class)?;
            Ok(Some(any_of(one_part(alloc, instance)?)))
        }
        Kind::Not(shape) => {
            let conforms = conforming(*shape as u64, node, false);
            Ok(Some(all_of(one_part(alloc, conforms)?)))
        }
        Kind::Node(shape) | Kind::Property(shape) => {
            let conforms = conforming(*shape as u64, node, true);
            Ok(Some(any_of(one_part(alloc, conforms)?)))
        }
        Kind::And(shapes) => Ok(Some(AtomParts {
            every: true,
            source: PartSource::Conforming {
                shapes: shapes.as_slice(),
                node,
                positive: true,
            },
        })),
        Kind::Or(shapes) => Ok(Some(AtomParts {
            every: false,
            source: PartSource::Conforming {
                shapes: shapes.as_slice(),
                node,
                positive: true,
            },
        })),
        Kind::Xone(shapes) => {
            let count = shapes.as_slice().len() as u64;
            Ok(Some(all_of(one_of_list(alloc, i, node, count)?)))
        }
        Kind::Closed { on: true, allowed } => {
            Ok(Some(all_of(closed_list_of(alloc, nodes, node, allowed)?)))
        }
        Kind::QualifiedMinCount {
            shape,
            siblings,
            ..
        }
        | Kind::QualifiedMaxCount {
            shape,
            siblings,
            ..
        } => {
            let list = qualified_list(alloc, node, *shape, siblings.as_slice())?;
            Ok(Some(all_of(list)))
        }
        _ => Ok(None),
    }
}

/// That the node passes the constraint of triple `i` as a single value node, as a part: an atom, or what is so in every
/// edited graph.
pub(crate) fn good_part(problem: &Problem, i: u64, node: u64, constraint: &Constraint) -> Part
    requires stated { constraint_at problem.now.shapes i ≡ Some constraint.now }
    requires node { node < node_count problem.now }
    ensures { result ≡ good_part problem.now i node (form_of constraint.now.kind) }
{
    match &constraint.kind {
        Kind::Closed { on: false, .. } | Kind::MinCount(_) | Kind::MaxCount(_) => {
            Part::Fixed(true)
        }
        Kind::Disjoint(_) | Kind::Equals(_) | Kind::HasValue(_) | Kind::UniqueLang(_) => {
            Part::Fixed(false)
        }
        Kind::Class(_)
        | Kind::Not(_)
        | Kind::Node(_)
        | Kind::And(_)
        | Kind::Or(_)
        | Kind::Xone(_)
        | Kind::Property(_)
        | Kind::Closed { .. }
        | Kind::QualifiedMinCount { .. }
        | Kind::QualifiedMaxCount { .. } => literal(Atom::Good { i, y: node }, true),
        _ => {
            let term = problem.nodes().nth_term(node as usize);
            Part::Fixed(good_node(problem.shapes(), i as usize, term))
        }
    }
}
