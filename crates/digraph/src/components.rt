//! The strongly connected components of a graph, by Tarjan's walk (SIAM Journal on Computing 1, 1972), without
//! recursion. That they are right is not proved, and nothing rests on it but time: who uses them checks what they say.

ghost use Rattle.std.specs.Prelude.{◌≡◌, length, slice_index, OnOk, IfOk};
ghost use Rattle.digraph.specs.Settling.{Covers};

use crate::Digraph;
use rdf_terms::OutOfMemory;
use std::alloc::Global;

/// The components of a graph, numbered from 1 in the order in which the walk leaves them, so that no step along a
/// successor leads to a component of a greater number.
#[derive(Drop)]
pub(crate) struct Components {
    /// The nodes, component by component.
    pub(crate) order: Vec<usize>,
    /// The component of each node.
    pub(crate) labels: Vec<usize>,
}

/// A node on the way of the walk: as which it was entered, and how many of its successors were looked at.
#[derive(Clone, Copy)]
struct Visit {
    node: usize,
    entry: usize,
    next: usize,
}

/// The walk so far.
#[derive(Drop)]
struct Walk {
    /// The least entry to which each node is known to lead within its component; 0 where it was not entered.
    lows: Vec<usize>,
    /// The component of each node; 0 where its component was not left.
    labels: Vec<usize>,
    /// The nodes whose component was left.
    order: Vec<usize>,
    /// The nodes that were entered and whose component was not left.
    open: Vec<usize>,
    /// The way from the start to here.
    way: Vec<Visit>,
    /// How many nodes were entered.
    entries: usize,
    /// How many components were left.
    components: usize,
}

impl Walk {
    fn new(alloc: Global, n: usize) -> Result<Walk, OutOfMemory> {
        Ok(Walk {
            lows: vec![in alloc; 0; n]?,
            labels: vec![in alloc; 0; n]?,
            order: Vec::new(alloc),
            open: Vec::new(alloc),
            way: Vec::new(alloc),
            entries: 0,
            components: 0,
        })
    }

    /// Enters a node, unless it was entered before or is beyond the graph.
    fn enter(&mut self, x: usize) -> Result<(), OutOfMemory> {
        if self.lows.get(x).copied() != Some(0) {
            return Ok(());
        }
        self.entries = self.entries.saturating_add(1);
        put(&mut self.lows, x, self.entries);
        self.open.push(x)?;
        self.way.push(Visit {
            node: x,
            entry: self.entries,
            next: 0,
        })?;
        Ok(())
    }

    /// Looks at the next successor of the last node on the way, or goes back from this node. Answers whether there
    /// was such a node.
    fn step(&mut self, graph: &Digraph) -> Result<bool, OutOfMemory> {
        let Some(visit) = self.way.pop() else {
            return Ok(false);
        };
        match graph.targets(visit.node).get(visit.next) {
            Some(y) => {
                self.way.push(Visit {
                    node: visit.node,
                    entry: visit.entry,
                    next: visit.next.saturating_add(1),
                })?;
                let low = number_at(&self.lows, *y);
                if number_at(&self.labels, *y) == 0 {
                    self.lower(visit.node, low);
                }
                self.enter(*y)?;
            }
            None => self.go_back(visit)?,
        }
        Ok(true)
    }

    /// Leaves the component of the node, if this was the first of it that was entered, and hands on to the node
    /// before it on the way how far it leads.
    fn go_back(&mut self, visit: Visit) -> Result<(), OutOfMemory> {
        let low = number_at(&self.lows, visit.node);
        if low == visit.entry {
            self.leave_component(visit.node)?;
        } else if let Some(previous) = self.way.last().copied() {
            self.lower(previous.node, low);
        }
        Ok(())
    }

    /// Labels the open nodes back to the one of the component that was entered first.
    fn leave_component(&mut self, first: usize) -> Result<(), OutOfMemory> {
        self.components = self.components.saturating_add(1);
        'leaving: while let Some(x) = self.open.pop() {
            put(&mut self.labels, x, self.components);
            self.order.push(x)?;
            if x == first {
                break 'leaving;
            }
        }
        Ok(())
    }

    /// Notes that a node leads to an entry; 0 is none.
    fn lower(&mut self, x: usize, entry: usize) {
        if 0 < entry && entry < number_at(&self.lows, x) {
            put(&mut self.lows, x, entry);
        }
    }
}

/// The number at a place, 0 beyond the numbers.
pub(crate) fn number_at(numbers: &[usize], x: usize) -> usize
    ensures { result ≡ slice_index numbers.now x }
{
    numbers.get(x).copied().unwrap_or(0)
}

/// Writes a number at a place, if it is within the numbers.
fn put(numbers: &mut Vec<usize>, x: usize, number: usize) {
    if x < numbers.len() {
        numbers[x] = number;
    }
}

/// The components of the graph.
pub(crate) fn find_components(alloc: Global, graph: &Digraph) -> Result<Components, OutOfMemory> {
    let mut walk = Walk::new(alloc, graph.len())?;
    'starting: for start in 0..graph.len() {
        walk.enter(start)?;
        // The walk comes to an end by itself: each step looks at a successor that was not looked at, or leaves a node.
        'walking: for _step in 0..usize::MAX {
            if !walk.step(graph)? {
                break 'walking;
            }
        }
    }
    let Walk { labels, order, .. } = walk;
    Ok(Components { order, labels })
}

/// An order of all nodes in which each stands behind its successors, as far as these do not lead back to it.
pub(crate) fn leaving_order(alloc: Global, graph: &Digraph) -> Result<Vec<usize>, OutOfMemory>
    ensures { IfOk result (λ v. Covers v.items (length graph.now)) }
{
    let Components { mut order, .. } = find_components(alloc, graph)?;
    push_all(&mut order, graph.len())?;
    Ok(order)
}

/// Appends all numbers below n, so that the order has each of them whatever it had before.
fn push_all(order: &mut Vec<usize>, n: usize) -> Result<(), OutOfMemory>
    ensures { OnOk result (Covers order.new.items n) }
{
    'pushing: for x in 0..n {
        order.push(x)?;
    }
    Ok(())
}
