ghost use Rattle.std.specs.Prelude.{◌≡◌, ◌++◌, OnOk, IfOk};
ghost use Rattle.repair_problem.specs.Setting.{target_node_of, target_nodes};

use rdf_terms::vocab::sh;
use rdf_terms::{Graph, OutOfMemory, Terms, Triple};
use std::alloc::Global;

/// Appends a copy of the node that the triple names as a target, where it does.
fn push_target_node(alloc: Global, nodes: &mut Terms, triple: &Triple) -> Result<(), OutOfMemory>
    ensures { OnOk result (nodes.new ≡ nodes.old ++ target_node_of triple.now) }
{
    if triple.predicate.compare_to_iri(sh::TARGET_NODE).is_eq() {
        nodes.push(triple.object.copy(alloc)?)?;
    }
    Ok(())
}

/// Copies of the nodes that targets name, the values of `sh:targetNode` (SHACL 2017, section 2.1.3.1).
pub(crate) fn target_nodes(alloc: Global, shapes: &Graph) -> Result<Terms, OutOfMemory>
    ensures { IfOk result (λ ts. ts ≡ target_nodes shapes.now) }
{
    let mut nodes = Terms::new(alloc);
    'triples: for triple in shapes.as_slice() {
        push_target_node(alloc, &mut nodes, triple)?;
    }
    Ok(nodes)
}
