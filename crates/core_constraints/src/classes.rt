ghost use Rattle.std.specs.Prelude.{IfOk};
ghost use Rattle.rdf_navigation.specs.Instances.{IsInstance};
ghost use Rattle.core_constraints.specs.Decisions.{Says};
ghost use Rattle.core_constraints.specs.Findings.{IsTruthful, IsNodeNumber, data_of, term_of};

use crate::input::Input;
use crate::memo::Memo;
use path_eval::has_type_among;
use rdf_navigation::subclasses_of;
use rdf_terms::{OutOfMemory, Term};
use std::alloc::Global;

/// Whether the node is a SHACL instance of the class of this number (SHACL 2017, section 4.1.1). The
/// subclasses of a class are looked for once.
fn is_instance_of_node(
    alloc: Global,
    input: &Input<'_>,
    memo: &mut Memo,
    class: usize,
    node: &Term,
) -> Result<bool, OutOfMemory>
    requires class { IsNodeNumber input.now class }
    requires truthful { IsTruthful input.now memo.old }
    ensures says { IfOk result (λ b. Says b (IsInstance (data_of input.now) node.now (term_of input.now class))) }
    ensures truthful { IsTruthful input.now memo.new }
{
    let graph = input.graph.graph();
    if let Some(classes) = memo.subclasses(class) {
        return Ok(has_type_among(graph, node, classes));
    }
    let classes = subclasses_of(alloc, graph, input.term(class))?;
    let is_one = has_type_among(graph, node, &classes);
    memo.note_subclasses(class, classes)?;
    Ok(is_one)
}

/// Whether the node is a SHACL instance of the class (SHACL 2017, section 4.1.1).
pub(crate) fn is_instance(
    alloc: Global,
    input: &Input<'_>,
    memo: &mut Memo,
    class: &Term,
    node: usize,
) -> Result<bool, OutOfMemory>
    requires node { IsNodeNumber input.now node }
    requires truthful { IsTruthful input.now memo.old }
    ensures says { IfOk result (λ b. Says b (IsInstance (data_of input.now) (term_of input.now node) class.now)) }
    ensures truthful { IsTruthful input.now memo.new }
{
    match input.graph.nodes().index_of_term(class) {
        Some(number) => is_instance_of_node(alloc, input, memo, number, input.term(node)),
        None => Ok(false),
    }
}
