ghost use Rattle.std.specs.Prelude.{◌≡◌, ◌++◌, ◌∷◌, ◌+◌, ◌==◌, [], length, OnOk, OnErr, IfOk};
ghost use Rattle.std.specs.Option.{option_copied};

use rdf_terms::OutOfMemory;
use std::alloc::Global;
use std::marker::Model;

/// A part of a list of targets, from its start up to its end.
#[derive(Clone, Copy)]
struct Span {
    start: usize,
    end: usize,
}

/// A directed graph. Each number below the length is a node with its successors, or no node. A successor may be any
/// number. Contracts see the list of the nodes' successors, with `None` where there is no node.
#[derive(Drop)]
pub struct Digraph {
    spans: Vec<Option<Span>>,
    targets: Vec<usize>,
}

impl Model for Digraph {
    ghost use Rattle.std.specs.Prelude.{ℕ, List, Option};
    ghost use Rattle.std.specs.Coded.{coded_list, coded_option, coded_ℕ};

    ghost Value = { List (Option (List ℕ)) };

    ghost coded = { coded_list (coded_option (coded_list coded_ℕ)) };

    ghost use Rattle.digraph.specs.Spans.{graph_of, AreWithin};

    ghost view = { λ g. graph_of g.targets.items g.spans.items };

    ghost invariant = { λ g. AreWithin g.targets.items g.spans.items };
}

impl Digraph {
    ghost use Rattle.digraph.specs.Digraph.{successors_at, targets_at};

    /// The graph without any node. It takes no memory.
    pub fn new(alloc: Global) -> Digraph
        ensures { result ≡ [] }
    {
        Digraph {
            spans: Vec::new(alloc),
            targets: Vec::new(alloc),
        }
    }

    /// Gives the number that is the length so far its successors, in this order, or makes it no node. After
    /// `OutOfMemory` the graph is as before.
    pub fn push(&mut self, successors: Option<&[usize]>) -> Result<(), OutOfMemory>
        ensures ok { OnOk result (self.new ≡ self.old ++ option_copied successors.entry ∷ []) }
        ensures err { OnErr result (self.new ≡ self.old) }
    {
        match successors {
            Some(successors) => {
                let span = append(&mut self.targets, successors)?;
                self.spans.push(Some(span))?;
            }
            None => self.spans.push(None)?,
        }
        Ok(())
    }

    /// How many numbers are nodes or said to be none.
    pub fn len(&self) -> usize
        ensures { result ≡ length self.now }
    {
        self.spans.len()
    }

    /// Whether the length is 0.
    pub fn is_empty(&self) -> bool
        ensures { result ≡ (length self.now == 0) }
    {
        self.spans.is_empty()
    }

    /// The successors of a node, and `None` where the number is no node.
    pub fn successors(&self, x: usize) -> Option<&[usize]>
        ensures { option_copied result ≡ successors_at self.now x }
    {
        match self.spans.get(x) {
            Some(Some(span)) => Some(&self.targets[span.start..span.end]),
            _ => None,
        }
    }

    /// The successors of a node, and none where the number is no node.
    pub(crate) fn targets(&self, x: usize) -> &[usize]
        ensures { result.now ≡ targets_at self.now x }
    {
        self.successors(x).unwrap_or(&[])
    }
}

/// Appends targets, and answers where they stand. After `OutOfMemory` the targets are as before.
fn append(targets: &mut Vec<usize>, more: &[usize]) -> Result<Span, OutOfMemory>
    ensures ok { OnOk result (targets.new.items ≡ targets.old.items ++ more.now) }
    ensures start { IfOk result (λ s. s.start ≡ length targets.old.items) }
    ensures end { IfOk result (λ s. s.end ≡ length targets.old.items + length more.now) }
    ensures err { OnErr result (targets.new.items ≡ targets.old.items) }
{
    let start = targets.len();
    targets.extend_from_slice(more)?;
    let end = targets.len();
    Ok(Span { start, end })
}
