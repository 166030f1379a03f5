ghost use Rattle.std.specs.Prelude.{◌≡◌, ◌<◌, ◌++◌, All, IfOk, OnOk, option_copied, filter, map, nat_lt};
ghost use Rattle.shapes_graph.specs.NodeTests.{tag_of};
ghost use Rattle.path_levels.specs.PossibleNodes.{node_count};
ghost use Rattle.atom_parts.specs.ValueParts.{same_tags, twins};
ghost use Rattle.atom_parts.specs.TaggedNodes.{AreByTags, AreTagged, numbers, tag_at, with_tag};

use rdf_terms::{OutOfMemory, Term, Text};
use repair_problem::Problem;
use std::alloc::Global;

/// A node that is a literal with a language tag.
#[derive(Clone, Copy)]
struct TaggedNode<'p> {
    tag: &'p Text,
    node: u64,
}

/// The language tag of a literal that has one.
fn tag_of(term: &Term) -> Option<&Text>
    ensures { option_copied result ≡ tag_of term.now }
{
    match term {
        Term::Literal { tag: Some(tag), .. } => Some(tag),
        _ => None,
    }
}

/// The nodes that have language tags, in their order.
fn tagged_nodes<'p>(
    alloc: Global,
    problem: &'p Problem,
    values: &[u64],
) -> Result<Vec<TaggedNode<'p>>, OutOfMemory>
    requires { All (λ y. y < node_count problem.now) values.now }
    ensures { IfOk result (λ tagged. AreTagged (tag_at problem.now) values.now tagged.items) }
{
    let nodes = problem.nodes();
    let mut tagged = Vec::new(alloc);
    'values: for y in values {
        if let Some(tag) = tag_of(nodes.nth_term(*y as usize)) {
            tagged.push(TaggedNode { tag, node: *y })?;
        }
    }
    Ok(tagged)
}

/// The nodes that have language tags, by their tags. Those with the same tag are in their order.
fn by_tags<'p>(
    alloc: Global,
    problem: &'p Problem,
    values: &[u64],
) -> Result<Vec<TaggedNode<'p>>, OutOfMemory>
    requires { All (λ y. y < node_count problem.now) values.now }
    ensures sorted { IfOk result (λ tagged. AreByTags tagged.items) }
    ensures exact { IfOk result (λ tagged. AreTagged (tag_at problem.now) values.now tagged.items) }
{
    let mut tagged = tagged_nodes(alloc, problem, values)?;
    tagged.sort_by(|a, b| a.tag.cmp(b.tag))?;
    Ok(tagged)
}

/// Those with this tag, by two binary searches.
fn with_tag<'t, 'p>(tagged: &'t [TaggedNode<'p>], tag: &Text) -> &'t [TaggedNode<'p>]
    requires { AreByTags tagged.now }
    ensures { result.now ≡ with_tag tag.now tagged.now }
{
    let first = tagged.partition_point(|at| at.tag.cmp(tag).is_lt());
    let after = tagged.partition_point(|at| at.tag.cmp(tag).is_le());
    &tagged[first..after]
}

/// Appends the pairs of a node with the greater ones of others.
fn push_pairs(
    pairs: &mut Vec<(u64, u64)>,
    y: u64,
    others: &[TaggedNode<'_>],
) -> Result<(), OutOfMemory>
    ensures { OnOk result (pairs.new.items
        ≡ pairs.old.items ++ map (λ z. (y, z)) (filter (nat_lt y) (numbers others.now))) }
{
    'others: for other in others {
        if y < other.node {
            pairs.push((y, other.node))?;
        }
    }
    Ok(())
}

/// All pairs of these nodes with the same language tag, the first of which is less, in the order of the nodes. Where
/// each node stands there once, it costs about twice as many steps as there are pairs, beside sorting the nodes by
/// their tags and looking up the tag of each.
pub(crate) fn twins(
    alloc: Global,
    problem: &Problem,
    values: &[u64],
) -> Result<Vec<(u64, u64)>, OutOfMemory>
    requires { All (λ y. y < node_count problem.now) values.now }
    ensures { IfOk result (λ pairs. pairs.items ≡ twins problem.now (λ y z. (y, z)) values.now) }
{
    let nodes = problem.nodes();
    let tagged = by_tags(alloc, problem, values)?;
    let mut pairs = Vec::new(alloc);
    'values: for y in values {
        if let Some(tag) = tag_of(nodes.nth_term(*y as usize)) {
            push_pairs(&mut pairs, *y, with_tag(tagged.as_slice(), tag))?;
        }
    }
    Ok(pairs)
}

/// Whether both nodes are literals with the same language tag.
pub(crate) fn have_same_tag(problem: &Problem, y: u64, z: u64) -> bool
    requires y { y < node_count problem.now }
    requires z { z < node_count problem.now }
    ensures { result ≡ same_tags problem.now y z }
{
    let nodes = problem.nodes();
    match (
        tag_of(nodes.nth_term(y as usize)),
        tag_of(nodes.nth_term(z as usize)),
    ) {
        (Some(a), Some(b)) => a.as_str() == b.as_str(),
        _ => false,
    }
}
