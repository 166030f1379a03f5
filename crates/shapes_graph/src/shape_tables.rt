ghost use Rattle.std.specs.Prelude.{◌≡◌, IfOk};
ghost use Rattle.rdf_terms.specs.Answers.{IsMeant};
ghost use Rattle.shapes_profile.specs.Profile.{is_memory, IsVerdict};
ghost use Rattle.shapes_profile.specs.Shapes.{shape_terms};
ghost use Rattle.shapes_profile.specs.PathNodes.{path_nodes};
ghost use Rattle.shapes_graph.specs.ShapeTables.{AreTables};

use crate::constraint_triples::{constraint_places, read_constraints};
use crate::path_table::{path_forms, path_numbers};
use crate::shape_settings::{deactivated, severities};
use crate::shape_targets::target_lists;
use crate::tables::Tables;
use rdf_terms::{Graph, Nodes, OutOfMemory, Terms};
use shapes_profile::{ShapeNodes, ShapeRefusal, check_profile, push_copies};
use std::alloc::Global;

/// Copies of the shapes, in order.
fn shape_terms(alloc: Global, shapes: &ShapeNodes<'_>) -> Result<Terms, OutOfMemory>
    ensures { IfOk result (λ ts. ts ≡ shape_terms shapes.now) }
{
    let mut terms = Terms::new(alloc);
    push_copies(alloc, &mut terms, shapes.as_slice())?;
    Ok(terms)
}

/// The tables of a graph whose shapes are found.
fn tables_of_shapes(
    alloc: Global,
    shapes: &ShapeNodes<'_>,
    nodes: &Nodes,
) -> Result<Tables, OutOfMemory>
    requires { nodes.now ≡ path_nodes shapes.now }
    ensures { IfOk result (AreTables shapes.now) }
{
    let terms = shape_terms(alloc, shapes)?;
    let constraints = read_constraints(alloc, shapes)?;
    let places = constraint_places(alloc, shapes, constraints.as_slice())?;
    let paths = path_forms(alloc, shapes, nodes)?;
    let path_numbers = path_numbers(alloc, shapes, nodes)?;
    let targets = target_lists(alloc, shapes)?;
    let deactivated = deactivated(alloc, shapes)?;
    let severities = severities(alloc, shapes)?;
    Ok(Tables {
        shapes: terms,
        constraints,
        places,
        paths,
        path_numbers,
        targets,
        deactivated,
        severities,
    })
}

/// The tables of a graph in the profile. Of any other graph the first cause.
pub fn read_tables(alloc: Global, graph: &Graph) -> Result<Tables, ShapeRefusal>
    ensures verdict { IsMeant is_memory (IsVerdict graph.now) result }
    ensures tables { IfOk result (AreTables graph.now) }
{
    let profiled = check_profile(alloc, graph)?;
    let tables = tables_of_shapes(alloc, &profiled.shapes, &profiled.path_nodes)?;
    Ok(tables)
}
