ghost use Rattle.std.specs.Prelude.{◌≡◌, ◌<◌, [], IfOk, IfSome, IfNone};
ghost use Rattle.std.specs.HashMap.{get};
ghost use Rattle.path_levels.specs.PossibleNodes.{possible, node_count, ArePossible};
ghost use Rattle.path_levels.specs.Lists.{same_start, IsFullNumbered, AreLists};

use crate::NodeNumbers;
use path_eval::{Direction, NumberedGraph, reached_from};
use rdf_terms::{OutOfMemory, Places};
use repair_problem::Problem;
use std::alloc::Global;
use std::collections::HashMap;
use std::marker::Model;

/// A path, and the node from which it is followed, by their numbers.
#[derive(Clone, Copy, PartialEq, Eq, Hash)]
pub(crate) struct PathStart {
    pub(crate) path: usize,
    pub(crate) node: usize,
}

/// The possible nodes of the paths of a problem: for a path and a node those to which the path leads from there with
/// all candidates in the graph. Contracts see the problem.
///
/// Each list is found once, by one search over the numbers of nodes, and kept. What asks for many keeps one of these.
#[derive(Drop)]
pub struct PossibleNodes<'p> {
    alloc: Global,
    problem: &'p Problem,
    graph: NumberedGraph<'p>,
    lists: HashMap<PathStart, NodeNumbers>,
}

impl<'p> Model for PossibleNodes<'p> {
    ghost use Rattle.std.specs.HashMap.{get};
    ghost use Rattle.repair_problem.specs.Setting.{Setting, code};

    ghost Value = { Setting };

    ghost coded = { code };

    ghost use Rattle.path_levels.specs.Lists.{same_start, AreKept};

    ghost view = { λ n. n.problem.now };

    ghost invariant = { λ n. AreKept n.problem.now n.graph (λ k. get same_start n.lists k) };
}

/// The possible nodes of a path and a node, by a search.
fn search(
    alloc: Global,
    problem: &Problem,
    graph: &NumberedGraph<'_>,
    start: PathStart,
) -> Result<NodeNumbers, OutOfMemory>
    requires graph { IsFullNumbered problem.now graph.now }
    requires node { start.node < node_count problem.now }
    ensures { IfOk result (λ ys. ys ≡ possible problem.now start.path start.node) }
{
    let found = reached_from(
        alloc,
        graph,
        problem.shapes().paths(),
        start.path,
        Direction::Forward,
        &[start.node],
    )?;
    let numbers: Vec<u64> = found.iter().map(|node| *node as u64).collect(alloc)?;
    NodeNumbers::from_vec(alloc, numbers)
}

/// The possible nodes of a path and a node, which are searched for unless they are there.
fn find(
    alloc: Global,
    problem: &Problem,
    graph: &NumberedGraph<'_>,
    lists: &mut HashMap<PathStart, NodeNumbers>,
    start: PathStart,
) -> Result<NodeNumbers, OutOfMemory>
    requires graph { IsFullNumbered problem.now graph.now }
    requires lists { AreLists problem.now (λ k. get same_start lists.old k) }
    requires node { start.node < node_count problem.now }
    ensures value { IfOk result (λ ys. ys ≡ possible problem.now start.path start.node) }
    ensures lists { AreLists problem.now (λ k. get same_start lists.new k) }
{
    if let Some(numbers) = lists.get(&start) {
        return numbers.copy();
    }
    let numbers = search(alloc, problem, graph, start)?;
    let kept = numbers.copy()?;
    lists.insert(start, kept)?;
    Ok(numbers)
}

impl<'p> PossibleNodes<'p> {
    /// The possible nodes of the problem, none of which has been asked for yet.
    pub fn new(alloc: Global, problem: &'p Problem) -> Result<PossibleNodes<'p>, OutOfMemory>
        ensures { IfOk result (λ n. n ≡ problem.now) }
    {
        let graph = NumberedGraph::new(alloc, problem.full(), problem.nodes().as_slice())?;
        Ok(PossibleNodes {
            alloc,
            problem,
            graph,
            lists: HashMap::new(alloc),
        })
    }

    /// The problem.
    pub fn problem(&self) -> &'p Problem
        ensures { result.now ≡ self.now }
    {
        self.problem
    }

    /// The allocator that the lists take their memory from.
    pub(crate) fn alloc(&self) -> Global {
        self.alloc
    }

    /// The path and the node of these numbers, and `None` where one of them is of none.
    fn start(&self, p: u64, x: u64) -> Option<PathStart>
        ensures some { IfSome result (λ k. (k.path ≡ p) × (k.node ≡ x) × (x < node_count self.now)) }
        ensures none { IfNone result (possible self.now p x ≡ []) }
    {
        let path = p as usize;
        let node = x as usize;
        if path < self.problem.shapes().path_count() && node < self.problem.nodes().len() {
            Some(PathStart { path, node })
        } else {
            None
        }
    }

    /// The numbers of the nodes to which path `p` leads from node `x` with all candidates in the graph. The list is
    /// empty where `p` is no path or `x` no node. After `OutOfMemory` it can be asked again.
    pub fn numbers(&mut self, p: u64, x: u64) -> Result<NodeNumbers, OutOfMemory>
        ensures value { IfOk result (λ ys. ys ≡ possible self.old p x) }
        ensures exact { IfOk result (λ ys. ArePossible self.old p x ys) }
        ensures same { self.new ≡ self.old }
    {
        match self.start(p, x) {
            Some(start) => find(
                self.alloc,
                self.problem,
                &self.graph,
                &mut self.lists,
                start,
            ),
            None => NodeNumbers::from_vec(self.alloc, Vec::new(self.alloc)),
        }
    }
}

/// The numbers of the nodes to which path `p` leads from node `x` with all candidates in the graph (SHACL 2017, section
/// 2.3.1), ascending. The list is empty where `p` is no path or `x` no node. It numbers the full graph anew: what asks
/// for many keeps a [`PossibleNodes`].
pub fn possible(alloc: Global, problem: &Problem, p: usize, x: usize) -> Result<Places, OutOfMemory>
    ensures value { IfOk result (λ ys. ys ≡ possible problem.now p x) }
    ensures exact { IfOk result (λ ys. ArePossible problem.now p x ys) }
{
    let mut nodes = PossibleNodes::new(alloc, problem)?;
    let numbers = nodes.numbers(p as u64, x as u64)?;
    Ok(Places::from_vec(numbers.as_slice().to_vec(alloc)?))
}
