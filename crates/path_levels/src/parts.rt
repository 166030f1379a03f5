ghost use Rattle.std.specs.Prelude.{◌≡◌, ◌<◌, ◌-◌, ◌++◌, ◌↔◌, [], ◌∷◌, ℕ, OnOk, IfOk, IfSome, map, length};
ghost use Rattle.rdf_terms.specs.declared.term.Term.TheVariants.{Iri};
ghost use Rattle.rdf_terms.specs.Graph.{Graph};
ghost use Rattle.repair_problem.specs.declared.atom.Atom.TheVariants as variant;
ghost use Rattle.repair_problem.specs.Setting.{node, IsEdit};
ghost use Rattle.repair_problem.specs.Meaning.{Means};
ghost use Rattle.repair_problem.specs.PartMeaning.{PartsMean};
ghost use Rattle.path_levels.specs.PossibleNodes.{possible, node_count};
ghost use Rattle.path_levels.specs.PathParts.{path_part, triple_part, middle_parts, form_at, last_level, level_part};
ghost use Rattle.path_levels.specs.PathParts.{reach_list, next_list, level_list, middle_list, path_parts};

use crate::PossibleNodes;
use crate::forms::form_at;
use crate::path_atoms::{is_level_atom, is_middle_atom, level_part, middle_part, reach_part};
use rdf_terms::OutOfMemory;
use repair_problem::{Atom, Literal, Part, PartList, Parts, Problem};
use shapes_graph::PathForm;
use std::alloc::Global;

/// The list of one part.
fn one(alloc: Global, part: Part) -> Result<PartList, OutOfMemory>
    ensures { IfOk result (λ list. list ≡ part ∷ []) }
{
    let mut list = PartList::new(alloc);
    list.push(part)?;
    Ok(list)
}

/// The list of two parts.
fn two(alloc: Global, first: Part, second: Part) -> Result<PartList, OutOfMemory>
    ensures { IfOk result (λ list. list ≡ first ∷ second ∷ []) }
{
    let mut list = PartList::new(alloc);
    list.push(first)?;
    list.push(second)?;
    Ok(list)
}

/// The triple from one node to another with this predicate, as a part. It is false in each edited graph where it is no
/// candidate.
fn triple_part(problem: &Problem, x: u64, predicate: &str, y: u64) -> Part
    requires x { x < node_count problem.now }
    requires y { y < node_count problem.now }
    ensures { result ≡ triple_part problem.now (record {
      subject = node problem.now x;
      predicate = Iri predicate.now;
      object = node problem.now y;
    }) }
{
    let nodes = problem.nodes();
    let subject = nodes.nth_term(x as usize);
    let object = nodes.nth_term(y as usize);
    match problem.candidate_of_terms(subject, predicate, object) {
        Some(t) => Part::Lit(Literal {
            atom: Atom::Triple { t: t as u64 },
            positive: true,
        }),
        None => Part::Fixed(false),
    }
}

/// Appends the middles of a path by way of each of these nodes.
fn push_middles(
    nodes: &mut PossibleNodes<'_>,
    list: &mut PartList,
    p: u64,
    k: u64,
    x: u64,
    y: u64,
    between: &[u64],
) -> Result<(), OutOfMemory>
    ensures value { OnOk result (list.new ≡ list.old ++ middle_parts nodes.old p k x y between.now) }
    ensures same { nodes.new ≡ nodes.old }
{
    'pushing: for z in between {
        let part = middle_part(nodes, p, k, x, *z, y)?;
        list.push(part)?;
    }
    Ok(())
}

/// The parts of a sequence: by way of each node to which its first path can lead.
fn sequence_list(
    nodes: &mut PossibleNodes<'_>,
    p: u64,
    first: u64,
    x: u64,
    y: u64,
) -> Result<PartList, OutOfMemory>
    ensures value { IfOk result (λ list. list ≡ middle_parts nodes.old p 0 x y (possible nodes.old first x)) }
    ensures same { nodes.new ≡ nodes.old }
{
    let mut list = PartList::new(nodes.alloc());
    let between = nodes.numbers(first, x)?;
    push_middles(nodes, &mut list, p, 0, x, y, between.as_slice())?;
    Ok(list)
}

/// The parts of an alternative: that each of its members leads there.
fn alternative_list(
    nodes: &mut PossibleNodes<'_>,
    members: &[u64],
    x: u64,
    y: u64,
) -> Result<PartList, OutOfMemory>
    ensures value { IfOk result (λ list. list ≡ map (λ q. path_part nodes.old (variant.Reach q x y)) members.now) }
    ensures same { nodes.new ≡ nodes.old }
{
    let mut list = PartList::new(nodes.alloc());
    'pushing: for q in members {
        let part = reach_part(nodes, *q, x, y)?;
        list.push(part)?;
    }
    Ok(list)
}

/// The part of a repeated path: its last level.
fn repeated_list(
    nodes: &mut PossibleNodes<'_>,
    p: u64,
    x: u64,
    y: u64,
) -> Result<PartList, OutOfMemory>
    ensures value { IfOk result (λ list. list
        ≡ level_part nodes.old (form_at nodes.old p) p (last_level nodes.old p x) x y ∷ []) }
    ensures same { nodes.new ≡ nodes.old }
{
    let count = nodes.numbers(p, x)?.len();
    let last = level_part(nodes, p, count.saturating_sub(1), x, y)?;
    one(nodes.alloc(), last)
}

/// The parts of the fact that a path leads from one node to another, any of which is enough.
fn reach_list(
    nodes: &mut PossibleNodes<'_>,
    p: u64,
    x: u64,
    y: u64,
) -> Result<PartList, OutOfMemory>
    requires x { x < node_count nodes.old }
    requires y { y < node_count nodes.old }
    ensures value { IfOk result (λ list. list ≡ reach_list nodes.old (form_at nodes.old p) p x y) }
    ensures same { nodes.new ≡ nodes.old }
{
    let alloc = nodes.alloc();
    let problem = nodes.problem();
    match form_at(problem, p) {
        None => Ok(PartList::new(alloc)),
        Some(PathForm::Predicate(iri)) => one(alloc, triple_part(problem, x, iri.as_str(), y)),
        Some(PathForm::Inverse(inner)) => {
            let turned = reach_part(nodes, *inner as u64, y, x)?;
            one(alloc, turned)
        }
        Some(PathForm::Sequence(first, _)) => sequence_list(nodes, p, *first as u64, x, y),
        Some(PathForm::Alternative(members)) => alternative_list(nodes, members.as_slice(), x, y),
        Some(PathForm::ZeroOrMore(_)) | Some(PathForm::OneOrMore(_)) => {
            repeated_list(nodes, p, x, y)
        }
        Some(PathForm::ZeroOrOne(inner)) => {
            let step = reach_part(nodes, *inner as u64, x, y)?;
            two(alloc, Part::Fixed(x == y), step)
        }
    }
}

/// The parts of the level after level `k`, any of which is enough: level `k`, or so many steps and one more.
fn next_list(
    nodes: &mut PossibleNodes<'_>,
    p: u64,
    k: u64,
    x: u64,
    y: u64,
) -> Result<PartList, OutOfMemory>
    ensures value { IfOk result (λ list. list ≡ next_list nodes.old (form_at nodes.old p) p k x y) }
    ensures same { nodes.new ≡ nodes.old }
{
    let before = level_part(nodes, p, k, x, y)?;
    let mut list = one(nodes.alloc(), before)?;
    let between = nodes.numbers(p, x)?;
    push_middles(nodes, &mut list, p, k, x, y, between.as_slice())?;
    Ok(list)
}

/// The parts of a level, any of which is enough.
fn level_list(
    nodes: &mut PossibleNodes<'_>,
    p: u64,
    k: u64,
    x: u64,
    y: u64,
) -> Result<PartList, OutOfMemory>
    ensures value { IfOk result (λ list. list ≡ level_list nodes.old (form_at nodes.old p) p k x y) }
    ensures same { nodes.new ≡ nodes.old }
{
    let alloc = nodes.alloc();
    match form_at(nodes.problem(), p) {
        Some(PathForm::ZeroOrMore(_)) => {
            if k == 0 {
                // Level 0 of zero or more is no atom.
                return Ok(PartList::new(alloc));
            }
            next_list(nodes, p, k - 1, x, y)
        }
        Some(PathForm::OneOrMore(inner)) => {
            if k == 0 {
                let first_step = reach_part(nodes, *inner as u64, x, y)?;
                return one(alloc, first_step);
            }
            next_list(nodes, p, k - 1, x, y)
        }
        _ => Ok(PartList::new(alloc)),
    }
}

/// The parts of a middle, all of which are wanted.
fn middle_list(
    nodes: &mut PossibleNodes<'_>,
    p: u64,
    k: u64,
    x: u64,
    z: u64,
    y: u64,
) -> Result<PartList, OutOfMemory>
    ensures value { IfOk result (λ list. list ≡ middle_list nodes.old (form_at nodes.old p) p k x z y) }
    ensures same { nodes.new ≡ nodes.old }
{
    let alloc = nodes.alloc();
    match form_at(nodes.problem(), p) {
        Some(PathForm::Sequence(first, second)) => {
            let there = reach_part(nodes, *first as u64, x, z)?;
            let on = reach_part(nodes, *second as u64, z, y)?;
            two(alloc, there, on)
        }
        Some(PathForm::ZeroOrMore(inner)) | Some(PathForm::OneOrMore(inner)) => {
            let there = level_part(nodes, p, k, x, z)?;
            let on = reach_part(nodes, *inner as u64, z, y)?;
            two(alloc, there, on)
        }
        _ => Ok(PartList::new(alloc)),
    }
}

/// The parts of a fact that a path leads from one node to another, if the numbers name one.
fn parts_of_reach(
    nodes: &mut PossibleNodes<'_>,
    p: u64,
    x: u64,
    y: u64,
) -> Result<Option<Parts>, OutOfMemory>
    ensures value { IfOk result (λ o. o ≡ path_parts nodes.old (variant.Reach p x y)) }
    ensures same { nodes.new ≡ nodes.old }
{
    if !nodes.numbers(p, x)?.has(y) {
        return Ok(None);
    }
    let ways = reach_list(nodes, p, x, y)?;
    Ok(Some(Parts {
        every: false,
        list: ways,
    }))
}

/// The parts of a level, if the numbers name one.
fn parts_of_level(
    nodes: &mut PossibleNodes<'_>,
    p: u64,
    k: u64,
    x: u64,
    y: u64,
) -> Result<Option<Parts>, OutOfMemory>
    ensures value { IfOk result (λ o. o ≡ path_parts nodes.old (variant.Level p k x y)) }
    ensures same { nodes.new ≡ nodes.old }
{
    if !is_level_atom(nodes, p, k, x, y)? {
        return Ok(None);
    }
    let list = level_list(nodes, p, k, x, y)?;
    Ok(Some(Parts { every: false, list }))
}

/// The parts of a middle, if the numbers name one.
fn parts_of_middle(
    nodes: &mut PossibleNodes<'_>,
    p: u64,
    k: u64,
    x: u64,
    z: u64,
    y: u64,
) -> Result<Option<Parts>, OutOfMemory>
    ensures value { IfOk result (λ o. o ≡ path_parts nodes.old (variant.Middle p k x z y)) }
    ensures same { nodes.new ≡ nodes.old }
{
    if !is_middle_atom(nodes, p, k, x, z, y)? {
        return Ok(None);
    }
    let list = middle_list(nodes, p, k, x, z, y)?;
    Ok(Some(Parts { every: true, list }))
}

/// The parts of an atom by the kept lists, if it is one of a path.
fn parts_by_lists(nodes: &mut PossibleNodes<'_>, atom: &Atom) -> Result<Option<Parts>, OutOfMemory>
    ensures value { IfOk result (λ o. o ≡ path_parts nodes.old atom.now) }
    ensures same { nodes.new ≡ nodes.old }
{
    match *atom {
        Atom::Reach { p, x, y } => parts_of_reach(nodes, p, x, y),
        Atom::Level { p, k, x, y } => parts_of_level(nodes, p, k, x, y),
        Atom::Middle { p, k, x, z, y } => parts_of_middle(nodes, p, k, x, z, y),
        _ => Ok(None),
    }
}

impl<'p> PossibleNodes<'p> {
    /// The parts of a `Reach`, `Level` or `Middle` atom, and `None` exactly where the numbers name no such atom. In
    /// each edited graph the atom is true exactly where all of its parts are, or any of them. It costs a few look-ups
    /// for each part, beside the search for each list that wasn't asked for before.
    pub fn path_parts(&mut self, atom: &Atom) -> Result<Option<Parts>, OutOfMemory>
        ensures value { IfOk result (λ o. o ≡ path_parts self.old atom.now) }
        ensures means { IfOk result (λ o. IfSome o (λ parts. (g : Graph) → IsEdit self.old g
            → Means self.old g atom.now ↔ PartsMean (Means self.old g) parts)) }
        ensures same { self.new ≡ self.old }
    {
        let problem = self.problem();
        let shapes = problem.shapes();
        // The clause of this call says that the shapes are in the profile.
        let _triples = shapes.triples();
        parts_by_lists(self, atom)
    }
}

/// The parts of a `Reach`, `Level` or `Middle` atom, and `None` exactly where the numbers name no such atom. In each
/// edited graph the atom is true exactly where all of its parts are, or any of them. It numbers the full graph anew:
/// what asks for many keeps a [`PossibleNodes`].
pub fn path_parts(
    alloc: Global,
    problem: &Problem,
    atom: &Atom,
) -> Result<Option<Parts>, OutOfMemory>
    ensures value { IfOk result (λ o. o ≡ path_parts problem.now atom.now) }
    ensures means { IfOk result (λ o. IfSome o (λ parts. (g : Graph) → IsEdit problem.now g
        → Means problem.now g atom.now ↔ PartsMean (Means problem.now g) parts)) }
{
    let mut nodes = PossibleNodes::new(alloc, problem)?;
    nodes.path_parts(atom)
}
