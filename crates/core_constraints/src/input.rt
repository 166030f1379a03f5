ghost use Rattle.std.specs.Prelude.{◌≡◌, ◌<◌, ◌++◌, ℕ, IsTrue, IfOk, OnOk, Contains, flat_map, length};
ghost use Rattle.rdf_terms.specs.declared.term.Term.{Term as T};
ghost use Rattle.rdf_terms.specs.Nodes.{terms, has_term};
ghost use Rattle.rdf_navigation.specs.Numbers.{term_at};
ghost use Rattle.shapes_graph.specs.Targets.{IsFocus};
ghost use Rattle.targets.specs.Selection.{named_nodes};
ghost use Rattle.core_constraints.specs.NumberLists.{IsNamed};

use path_eval::NumberedGraph;
use rdf_terms::{Graph, OutOfMemory, Term, Terms};
use shapes_graph::{Shapes, Target};
use std::alloc::Global;

/// A shapes graph, and a data graph whose nodes and focus nodes have numbers.
#[derive(Drop)]
pub(crate) struct Input<'g> {
    pub(crate) shapes: &'g Shapes,
    pub(crate) graph: NumberedGraph<'g>,
}

/// Appends a copy of the node that the target names.
fn push_named(alloc: Global, terms: &mut Terms, target: &Target) -> Result<(), OutOfMemory>
    ensures { OnOk result (terms.new ≡ terms.old ++ named_nodes target.now) }
{
    match target {
        Target::Node(node) => terms.push(node.copy(alloc)?),
        Target::Class(_) | Target::SubjectsOf(_) | Target::ObjectsOf(_) => Ok(()),
    }
}

/// Appends copies of the nodes that the targets name.
fn push_all_named(alloc: Global, terms: &mut Terms, targets: &[Target]) -> Result<(), OutOfMemory>
    ensures { OnOk result (terms.new ≡ terms.old ++ flat_map named_nodes targets.now) }
{
    'targets: for target in targets {
        push_named(alloc, terms, target)?;
    }
    Ok(())
}

/// Copies of the nodes that the targets of all shapes name.
fn named_nodes(alloc: Global, shapes: &Shapes) -> Result<Terms, OutOfMemory>
    ensures { IfOk result (λ ts. (n : ℕ) (x : T) → IsNamed shapes.now n x → Contains ts x) }
{
    let mut named = Terms::new(alloc);
    'shapes: for shape in 0..shapes.shape_count() {
        push_all_named(alloc, &mut named, shapes.targets_of(shape))?;
    }
    Ok(named)
}

impl<'g> Input<'g> {
    /// The graphs, with numbers for all nodes and focus nodes.
    pub(crate) fn new(
        alloc: Global,
        shapes: &'g Shapes,
        graph: &'g Graph,
    ) -> Result<Input<'g>, OutOfMemory>
        ensures shapes { IfOk result (λ i. i.shapes.now ≡ shapes.now) }
        ensures graph { IfOk result (λ i. i.graph.graph ≡ graph.now) }
        ensures focus { IfOk result (λ i. (n : ℕ) (x : T) → IsFocus shapes.now n graph.now x
            → IsTrue (has_term i.graph.nodes x)) }
    {
        // The clause of this call says that the shapes are in the profile.
        let _triples = shapes.triples();
        let named = named_nodes(alloc, shapes)?;
        let graph = NumberedGraph::new(alloc, graph, named.as_slice())?;
        Ok(Input { shapes, graph })
    }

    /// The term of this number.
    pub(crate) fn term(&self, node: usize) -> &Term
        requires { node < length (terms self.now.graph.nodes) }
        ensures { result.now ≡ term_at self.now.graph.nodes node }
    {
        self.graph.nodes().nth_term(node)
    }
}
