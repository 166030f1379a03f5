ghost use Rattle.std.specs.Prelude.{◌≡◌, length, IfOk};
ghost use Rattle.rdf_terms.specs.Answers.{IsMeant};
ghost use Rattle.rdf_navigation.specs.Numbers.{IsNumbered};
ghost use Rattle.shapes_profile.specs.Shapes.{shape_terms, shape_nodes};
ghost use Rattle.shapes_profile.specs.PathNodes.{path_nodes};
ghost use Rattle.shapes_profile.specs.References.{shape_references};
ghost use Rattle.shapes_profile.specs.Profile.{is_memory, IsVerdict};
ghost use Rattle.shapes_profile.specs.Causes.{IsAnswerOnPredicates, IsAnswerOnRules, IsAnswerOnRecursion};
ghost use Rattle.shapes_profile.specs.Causes.{IsAnswerOnPaths, IsAnswerOnRanks, IsAnswerOnNesting};

use crate::deep_paths::{first_deep_path, path_nodes};
use crate::ill_formed::first_ill_formed;
use crate::ranks::{first_recursive, first_too_deep, ranks, reference_digraph};
use crate::refusals::ShapeRefusal;
use crate::shape_nodes::ShapeNodes;
use crate::unsupported::first_unsupported;
use digraph::Digraph;
use property_paths::PathDepths;
use rdf_terms::{Graph, Nodes};
use std::alloc::Global;

/// Refuses a graph with a predicate that this project leaves out.
fn check_predicates(alloc: Global, graph: &Graph) -> Result<(), ShapeRefusal>
    ensures { IsMeant is_memory (IsAnswerOnPredicates graph.now) result }
{
    match first_unsupported(graph) {
        Some(predicate) => {
            let predicate = predicate.copy(alloc)?;
            Err(ShapeRefusal::Unsupported { predicate })
        }
        None => Ok(()),
    }
}

/// Refuses a graph with a shape that breaks a rule.
fn check_rules(
    alloc: Global,
    shapes: &ShapeNodes<'_>,
    paths: &PathDepths<'_>,
) -> Result<(), ShapeRefusal>
    requires { paths.now ≡ shapes.now }
    ensures { IsMeant is_memory (IsAnswerOnRules shapes.now) result }
{
    match first_ill_formed(alloc, shapes, paths)? {
        Some(found) => {
            let node = found.node.copy(alloc)?;
            Err(ShapeRefusal::IllFormed {
                node,
                rule: found.rule,
            })
        }
        None => Ok(()),
    }
}

/// Refuses a graph with a recursive shape.
fn check_recursion(
    alloc: Global,
    shapes: &ShapeNodes<'_>,
    references: &Digraph,
) -> Result<(), ShapeRefusal>
    requires len { length references.now ≡ length (shape_terms shapes.now) }
    requires numbered { IsNumbered (shape_references shapes.now) (shape_nodes shapes.now) references.now }
    ensures { IsMeant is_memory (IsAnswerOnRecursion shapes.now) result }
{
    match first_recursive(alloc, shapes, references)? {
        Some(shape) => {
            let shape = shape.copy(alloc)?;
            Err(ShapeRefusal::Recursive { shape })
        }
        None => Ok(()),
    }
}

/// The path nodes. Refuses a graph with a path of a depth over 32.
fn check_path_nodes(
    alloc: Global,
    shapes: &ShapeNodes<'_>,
    paths: &PathDepths<'_>,
) -> Result<Nodes, ShapeRefusal>
    requires { paths.now ≡ shapes.now }
    ensures verdict { IsMeant is_memory (IsAnswerOnPaths shapes.now) result }
    ensures nodes { IfOk result (λ n. n ≡ path_nodes shapes.now) }
{
    let nodes = path_nodes(alloc, shapes, paths)?;
    match first_deep_path(paths, &nodes) {
        Some(node) => {
            let node = node.copy(alloc)?;
            Err(ShapeRefusal::PathTooDeep { node })
        }
        None => Ok(nodes),
    }
}

/// Refuses a graph with a shape of a rank over 128.
fn check_ranks(
    alloc: Global,
    shapes: &ShapeNodes<'_>,
    references: &Digraph,
) -> Result<(), ShapeRefusal>
    requires len { length references.now ≡ length (shape_terms shapes.now) }
    requires numbered { IsNumbered (shape_references shapes.now) (shape_nodes shapes.now) references.now }
    ensures { IsMeant is_memory (IsAnswerOnRanks shapes.now) result }
{
    let ranks = ranks(alloc, shapes, references)?;
    match first_too_deep(shapes, ranks.as_slice()) {
        Some(shape) => {
            let shape = shape.copy(alloc)?;
            Err(ShapeRefusal::ShapeTooDeep { shape })
        }
        None => Ok(()),
    }
}

/// The path nodes. Refuses a graph with a recursive shape, a path of a depth over 32, or a shape of a
/// rank over 128.
fn check_nesting(
    alloc: Global,
    shapes: &ShapeNodes<'_>,
    paths: &PathDepths<'_>,
) -> Result<Nodes, ShapeRefusal>
    requires { paths.now ≡ shapes.now }
    ensures verdict { IsMeant is_memory (IsAnswerOnNesting shapes.now) result }
    ensures nodes { IfOk result (λ n. n ≡ path_nodes shapes.now) }
{
    let references = reference_digraph(alloc, shapes)?;
    check_recursion(alloc, shapes, &references)?;
    let nodes = check_path_nodes(alloc, shapes, paths)?;
    check_ranks(alloc, shapes, &references)?;
    Ok(nodes)
}

/// What `check_profile` finds in a shapes graph: its shapes, and the path nodes and list cells that their
/// `sh:path` values are made of.
#[derive(Drop)]
pub struct ProfiledShapes<'a> {
    pub shapes: ShapeNodes<'a>,
    pub path_nodes: Nodes,
}

/// The shapes and path nodes of a graph that is in the profile of this project. Of any other graph the
/// first cause in the order of the variants of the refusal, at its first place in the order of triples
/// (`Unsupported`) or of terms. `OutOfMemory` says nothing of the graph.
pub fn check_profile<'a>(
    alloc: Global,
    graph: &'a Graph,
) -> Result<ProfiledShapes<'a>, ShapeRefusal>
    ensures verdict { IsMeant is_memory (IsVerdict graph.now) result }
    ensures shapes { IfOk result (λ p. p.shapes ≡ graph.now) }
    ensures path_nodes { IfOk result (λ p. p.path_nodes ≡ path_nodes graph.now) }
{
    check_predicates(alloc, graph)?;
    let shapes = ShapeNodes::new(alloc, graph)?;
    let paths = PathDepths::new(alloc, shapes.declarations().lists(), graph)?;
    check_rules(alloc, &shapes, &paths)?;
    let path_nodes = check_nesting(alloc, &shapes, &paths)?;
    Ok(ProfiledShapes { shapes, path_nodes })
}
