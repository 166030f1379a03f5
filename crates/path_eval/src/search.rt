ghost use Rattle.std.specs.Prelude.{◌≡◌, ◌<◌, ℕ, List, OnOk, IfOk, IfSome, IfNone, Some, length, slice_get};
ghost use Rattle.shapes_graph.specs.declared.paths.PathForm.TheVariants.{Predicate};
ghost use Rattle.rdf_terms.specs.Nodes.{terms};
ghost use Rattle.rdf_terms.specs.Members.{IsListOf};
ghost use Rattle.rdf_navigation.specs.Numbers.{term_at};
ghost use Rattle.shapes_graph.specs.Reach.{ReachIn, path_levels};
ghost use Rattle.path_eval.specs.Directions.{Towards};
ghost use Rattle.path_eval.specs.Numbered.{terms_at, AreNumbers, AreReached};
ghost use Rattle.path_eval.specs.Automaton.{StepBy, Moves};
ghost use Rattle.path_eval.specs.Visits.{position, positions, IsStart, AreVisits, Follows, AreSearched};

use crate::automaton::{State, compile, form_at, state_at};
use crate::visits::{Visit, Visits, add, add_all, found_nodes};
use crate::{Direction, NumberedGraph};
use rdf_terms::{OutOfMemory, Text};
use shapes_graph::PathForm;
use std::alloc::Global;

/// In the profile no path nests deeper.
const LEVELS: u64 = 33;

/// The IRI of a predicate path by its number, and `None` where the path is none.
fn predicate_at(forms: &[PathForm], path: usize) -> Option<&Text>
    ensures some { IfSome result (λ i. slice_get forms.now path ≡ Some (Predicate i.now)) }
    ensures none { IfNone result ((i : List ℕ) → ¬ (slice_get forms.now path ≡ Some (Predicate i))) }
{
    match form_at(forms, path) {
        Some(PathForm::Predicate(iri)) => Some(iri),
        _ => None,
    }
}

/// The nodes to which a predicate path leads from a node, in this direction.
fn step(
    alloc: Global,
    graph: &NumberedGraph<'_>,
    forms: &[PathForm],
    path: usize,
    direction: Direction,
    node: usize,
) -> Result<Vec<usize>, OutOfMemory>
    requires { node < length (terms graph.now.nodes) }
    ensures within { IfOk result (λ v. AreNumbers graph.now.nodes v.items) }
    ensures exact { IfOk result (λ v. IsListOf
        (StepBy (slice_get forms.now path) direction graph.now.graph (term_at graph.now.nodes node))
        (terms_at graph.now.nodes v.items)) }
{
    match predicate_at(forms, path) {
        Some(iri) => graph.neighbours(alloc, iri.as_str(), direction, node),
        None => Ok(Vec::new(alloc)),
    }
}

/// Appends the visits that follow right after a visit.
fn follow(
    alloc: Global,
    graph: &NumberedGraph<'_>,
    forms: &[PathForm],
    states: &[State],
    visits: &mut Visits,
    visit: Visit,
) -> Result<(), OutOfMemory>
    requires { visit.node < length (terms graph.now.nodes) }
    ensures { OnOk result (Follows (Moves forms.now graph.now.graph states.now) (length states.now) graph.now.nodes
        visit visits.old.keys visits.new.keys) }
{
    let Some(state) = state_at(states, visit.state) else {
        return Ok(());
    };
    match state {
        State::Found | State::Stuck => Ok(()),
        State::Step {
            path,
            direction,
            next,
        } => {
            let ends = step(alloc, graph, forms, path, direction, visit.node)?;
            add_all(visits, states.len(), next, ends.as_slice())
        }
        State::Fork(first, second) => {
            add(visits, states.len(), first, visit.node)?;
            add(visits, states.len(), second, visit.node)
        }
    }
}

/// All visits to which an automaton comes from these nodes in a state. Each is followed once.
fn search(
    alloc: Global,
    graph: &NumberedGraph<'_>,
    forms: &[PathForm],
    states: &[State],
    entry: usize,
    starts: &[usize],
) -> Result<Visits, OutOfMemory>
    requires { AreNumbers graph.now.nodes starts.now }
    ensures { IfOk result (λ v. AreSearched (Moves forms.now graph.now.graph states.now) (length states.now)
        graph.now.nodes entry starts.now v.keys) }
{
    let mut visits = Visits::new(alloc);
    add_all(&mut visits, states.len(), entry, starts)?;
    let mut next = 0;
    'following: while next < visits.len() {
        let visit = visits.as_slice()[next];
        follow(alloc, graph, forms, states, &mut visits, visit)?;
        next += 1;
    }
    Ok(visits)
}

/// The numbers of the terms to which the path leads from some of the starts, or backwards from which it
/// leads there, ascending. The path is the number of its form, and nests at most 32 deep. Each node is
/// looked at once for each step of the path, also where walks go round or meet.
pub fn reached_from(
    alloc: Global,
    graph: &NumberedGraph<'_>,
    forms: &[PathForm],
    path: usize,
    direction: Direction,
    starts: &[usize],
) -> Result<Vec<usize>, OutOfMemory>
    requires { AreNumbers graph.now.nodes starts.now }
    ensures { IfOk result (λ v. AreReached
        (Towards direction (λ x y. ReachIn path_levels forms.now graph.now.graph path x y))
        graph.now.nodes starts.now v.items) }
{
    let mut states = Vec::new(alloc);
    states.push(State::Found)?;
    let entry = compile(&mut states, forms, LEVELS, path, direction, 0)?;
    let visits = search(alloc, graph, forms, states.as_slice(), entry, starts)?;
    found_nodes(alloc, visits.as_slice())
}
