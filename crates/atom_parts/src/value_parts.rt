ghost use Rattle.std.specs.Prelude.{◌≡◌, ◌<◌, IfOk, IfSome, IfNone, Some, None, length};
ghost use Rattle.rdf_terms.specs.declared.term.Term.TheVariants.{Iri};
ghost use Rattle.shapes_profile.specs.Shapes.{shape_terms};
ghost use Rattle.shapes_graph.specs.Constraints.{constraint_at};
ghost use Rattle.repair_problem.specs.declared.atom.Atom.TheVariants as variant;
ghost use Rattle.repair_problem.specs.Setting.{node};
ghost use Rattle.repair_problem.specs.Candidates.{candidate_number};
ghost use Rattle.path_levels.specs.PossibleNodes.{node_count};
ghost use Rattle.path_levels.specs.PathParts.{literal, path_part};
ghost use Rattle.atom_parts.specs.ValueParts.{node_number, value_part, term_value_part, instance_part, link_part};
ghost use Rattle.atom_parts.specs.PartsTable.{is_node};

use path_levels::PossibleNodes;
use rdf_terms::{OutOfMemory, Term};
use repair_problem::{Atom, Literal, Part, Problem};
use shapes_graph::Constraint;

/// The number of the path that leads from a node to the classes of which it is a SHACL instance (SHACL 2017, section
/// 1.1): by a type, and then to superclasses.
const INSTANCE_PATH: u64 = 3;

/// The atom, or its denial, as a part.
pub fn literal(atom: Atom, positive: bool) -> Part
    ensures { result ≡ literal atom positive }
{
    Part::Lit(Literal { atom, positive })
}

/// Whether it is the number of a node.
pub(crate) fn is_node(problem: &Problem, x: u64) -> bool
    ensures { result ≡ is_node problem.now x }
{
    x < problem.nodes().len() as u64
}

/// The constraint that the triple at a place of the shapes graph states, if it states one.
pub(crate) fn constraint_at(problem: &Problem, i: u64) -> Option<&Constraint>
    ensures some { IfSome result (λ c. constraint_at problem.now.shapes i ≡ Some c.now) }
    ensures shape { IfSome result (λ c. c.now.shape < length (shape_terms problem.now.shapes)) }
    ensures none { IfNone result (constraint_at problem.now.shapes i ≡ None) }
{
    let shapes = problem.shapes();
    let place = i as usize;
    if place < shapes.triples().len() {
        shapes.constraint(place)
    } else {
        None
    }
}

/// That the path leads from one node to another, as a part.
fn reach_part(nodes: &mut PossibleNodes<'_>, p: u64, x: u64, y: u64) -> Result<Part, OutOfMemory>
    ensures value { IfOk result (λ part. part ≡ path_part nodes.old (variant.Reach p x y)) }
    ensures same { nodes.new ≡ nodes.old }
{
    let numbers = nodes.numbers(p, x)?;
    if numbers.has(y) {
        Ok(literal(Atom::Reach { p, x, y }, true))
    } else {
        Ok(Part::Fixed(false))
    }
}

/// That `y` is a value node of `x` for the shape, as a part.
pub(crate) fn value_part(
    nodes: &mut PossibleNodes<'_>,
    shape: usize,
    x: u64,
    y: u64,
) -> Result<Part, OutOfMemory>
    requires shape { shape < length (shape_terms nodes.old.shapes) }
    ensures value { IfOk result (λ part. part ≡ value_part nodes.old shape x y) }
    ensures same { nodes.new ≡ nodes.old }
{
    match nodes.problem().shapes().path_of(shape) {
        None => Ok(Part::Fixed(x == y)),
        Some(path) => reach_part(nodes, path as u64, x, y),
    }
}

/// The number of the term as a node, if it is one.
fn node_number(problem: &Problem, term: &Term) -> Option<u64>
    ensures { result ≡ node_number problem.now term.now }
{
    match problem.nodes().index_of_term(term) {
        Some(number) => Some(number as u64),
        None => None,
    }
}

/// That the term is a value node of `x` for the shape, as a part.
pub(crate) fn term_value_part(
    nodes: &mut PossibleNodes<'_>,
    shape: usize,
    x: u64,
    term: &Term,
) -> Result<Part, OutOfMemory>
    requires shape { shape < length (shape_terms nodes.old.shapes) }
    ensures value { IfOk result (λ part. part ≡ term_value_part nodes.old shape x term.now) }
    ensures same { nodes.new ≡ nodes.old }
{
    match node_number(nodes.problem(), term) {
        Some(y) => value_part(nodes, shape, x, y),
        None => Ok(Part::Fixed(false)),
    }
}

/// That the node is a SHACL instance of the class, as a part.
pub(crate) fn instance_part(
    nodes: &mut PossibleNodes<'_>,
    y: u64,
    class: &Term,
) -> Result<Part, OutOfMemory>
    ensures value { IfOk result (λ part. part ≡ instance_part nodes.old y class.now) }
    ensures same { nodes.new ≡ nodes.old }
{
    match node_number(nodes.problem(), class) {
        Some(z) => reach_part(nodes, INSTANCE_PATH, y, z),
        None => Ok(Part::Fixed(false)),
    }
}

/// The number of the triple between two nodes with this predicate, if it is a candidate.
pub(crate) fn link_number(problem: &Problem, predicate: &str, x: u64, y: u64) -> Option<usize>
    requires x { x < node_count problem.now }
    requires y { y < node_count problem.now }
    ensures { result ≡ candidate_number problem.now (record {
      subject = node problem.now x;
      predicate = Iri predicate.now;
      object = node problem.now y;
    }) }
{
    let nodes = problem.nodes();
    let subject = nodes.nth_term(x as usize);
    let object = nodes.nth_term(y as usize);
    problem.candidate_of_terms(subject, predicate, object)
}

/// That the triple between two nodes with this predicate is in the graph, as a part.
pub(crate) fn link_part(problem: &Problem, predicate: &str, x: u64, y: u64) -> Part
    requires x { x < node_count problem.now }
    requires y { y < node_count problem.now }
    ensures { result ≡ link_part problem.now predicate.now x y }
{
    match link_number(problem, predicate, x, y) {
        Some(t) => literal(Atom::Triple { t: t as u64 }, true),
        None => Part::Fixed(false),
    }
}
