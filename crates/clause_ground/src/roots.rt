ghost use Rattle.std.specs.Prelude.{◌≡◌, ◌<◌, [], ◌∷◌, ℕ, OnOk, IsTrue, length};
ghost use Rattle.atom_parts.specs.PartsTable.{is_shape, is_node};
ghost use Rattle.shapes_profile.specs.Shapes.{shape_terms};
ghost use Rattle.path_levels.specs.Lists.{IsFullNumbered};
ghost use Rattle.path_levels.specs.PossibleNodes.{node_count};
ghost use Rattle.clause_ground.specs.Needed.{root, CanBeFocus};
ghost use Rattle.clause_ground.specs.Grounds.{premises, atoms};
ghost use Rattle.clause_ground.specs.Growth.{Adds, Grows, IsKept, IsSound, found};
ghost use Rattle.clause_ground.specs.Premises.{rules_of};
ghost use Rattle.clause_ground.specs.RootClauses.{root_literals, RootsBelow, RootsOf};

use crate::Ground;
use crate::atom_rules::root;
use path_eval::NumberedGraph;
use rdf_terms::OutOfMemory;
use repair_problem::{Atom, Literal, Problem};
use std::alloc::Global;
use targets::focus_numbers;

/// Adds the premise that the node, if it is a focus node of the shape, conforms to it.
fn add_root(alloc: Global, ground: &mut Ground, s: u64, x: u64) -> Result<(), OutOfMemory>
    ensures { OnOk result (Adds (found (premises ground.old) (atoms ground.old)) (root s x) (root_literals s x)
        (found (premises ground.new) (atoms ground.new))) }
{
    let target = Literal {
        atom: Atom::Target { s, x },
        positive: false,
    };
    let conforms = Literal {
        atom: Atom::Conforms { s, x },
        positive: true,
    };
    ground.add(root(alloc, s, x)?, &[target, conforms])
}

/// Adds the premises of the nodes that can be focus nodes of a shape: those that are with all candidates in the graph.
fn add_roots_of(
    alloc: Global,
    ground: &mut Ground,
    problem: &Problem,
    graph: &NumberedGraph<'_>,
    s: usize,
) -> Result<(), OutOfMemory>
    requires graph { IsFullNumbered problem.now graph.now }
    requires shape { s < length (shape_terms problem.now.shapes) }
    requires sound { IsSound problem.now (found (premises ground.old) (atoms ground.old)) }
    ensures grows { OnOk result (Grows problem.now (found (premises ground.old) (atoms ground.old))
        (found (premises ground.new) (atoms ground.new))) }
    ensures made { OnOk result (RootsOf problem.now s (rules_of (premises ground.new))) }
{
    let shapes = problem.shapes();
    // The clause of this call says that the shapes are in the profile.
    let _triples = shapes.triples();
    let nodes = focus_numbers(alloc, shapes, s, graph)?;
    'nodes: for x in nodes.as_slice() {
        add_root(alloc, ground, s as u64, *x as u64)?;
    }
    Ok(())
}

/// Adds the premises of all shapes and the nodes that can be their focus nodes.
pub(crate) fn add_roots(
    alloc: Global,
    ground: &mut Ground,
    problem: &Problem,
) -> Result<(), OutOfMemory>
    requires sound { IsSound problem.now (found (premises ground.old) (atoms ground.old)) }
    ensures grows { OnOk result (Grows problem.now (found (premises ground.old) (atoms ground.old))
        (found (premises ground.new) (atoms ground.new))) }
    ensures made { OnOk result (RootsBelow problem.now (length (shape_terms problem.now.shapes))
        (rules_of (premises ground.new))) }
{
    let graph = NumberedGraph::new(alloc, problem.full(), problem.nodes().as_slice())?;
    'shapes: for s in 0..problem.shapes().shape_count() {
        add_roots_of(alloc, ground, problem, &graph, s)?;
    }
    Ok(())
}
