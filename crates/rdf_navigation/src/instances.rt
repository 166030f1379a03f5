ghost use Rattle.std.specs.Prelude.{◌≡◌, IsTrue, IfOk, Some, length};
ghost use Rattle.rdf_terms.specs.declared.term.Term.{Term as T};
ghost use Rattle.rdf_terms.specs.Members.{IsSetOf, InGraph};
ghost use Rattle.rdf_terms.specs.Nodes.{terms, has_term};
ghost use Rattle.rdf_terms.specs.Vocab.Rdfs.{sub_class_of};
ghost use Rattle.rdf_navigation.specs.Values.{subjects};
ghost use Rattle.rdf_navigation.specs.Instances.{IsSubclass, IsInstance, is_instance};
ghost use Rattle.rdf_navigation.specs.Numbers.{IsNumbered};

use crate::numbers::{ends_of, push_node, reached_terms};
use crate::property::{push_subjects, subjects};
use digraph::Digraph;
use rdf_terms::vocab::{rdf, rdfs};
use rdf_terms::{Graph, Nodes, OutOfMemory, Term, Terms};
use std::alloc::Global;

/// The graph that leads from each class to the classes right below it.
fn subclass_digraph(alloc: Global, graph: &Graph, classes: &Nodes) -> Result<Digraph, OutOfMemory>
    requires { (b c : T) → InGraph graph.now b sub_class_of c → IsTrue (has_term classes.now b) }
    ensures len { IfOk result (λ g. length g ≡ length (terms classes.now)) }
    ensures numbered { IfOk result (λ g. IsNumbered (λ c. Some (subjects graph.now sub_class_of c)) classes.now g) }
{
    let mut digraph = Digraph::new(alloc);
    'classes: for class in classes.as_slice() {
        let below = subjects(alloc, graph, rdfs::SUB_CLASS_OF, class)?;
        push_node(alloc, &mut digraph, classes, Some(below))?;
    }
    Ok(digraph)
}

/// The class and all its SHACL subclasses (SHACL 2017, section 1.1): the terms from which a chain of
/// `rdfs:subClassOf` triples leads to it. Each class is looked at once, also where chains go round.
pub fn subclasses_of(alloc: Global, graph: &Graph, class: &Term) -> Result<Nodes, OutOfMemory>
    ensures { IfOk result (λ n. IsSetOf (λ b. IsSubclass graph.now b class.now) n) }
{
    let classes = ends_of(alloc, graph, rdfs::SUB_CLASS_OF, class)?;
    let digraph = subclass_digraph(alloc, graph, &classes)?;
    let mut starts = Terms::new(alloc);
    starts.push(class.copy(alloc)?)?;
    reached_terms(alloc, &classes, &digraph, starts.as_slice())
}

/// All SHACL instances of the class (SHACL 2017, section 1.1): the terms that have it or one of its
/// SHACL subclasses as a value of `rdf:type`.
pub fn instances_of(alloc: Global, graph: &Graph, class: &Term) -> Result<Nodes, OutOfMemory>
    ensures exact { IfOk result (λ n. IsSetOf (λ x. IsInstance graph.now x class.now) n) }
    ensures test { IfOk result (λ n. (x : T) → has_term n x ≡ is_instance graph.now x class.now) }
{
    let classes = subclasses_of(alloc, graph, class)?;
    let mut instances = Terms::new(alloc);
    'classes: for class in classes.as_slice() {
        push_subjects(alloc, &mut instances, graph, rdf::TYPE, class)?;
    }
    Nodes::from_terms(alloc, instances)
}
