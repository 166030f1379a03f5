ghost use Rattle.std.specs.Prelude.{◌≡◌, ◌↔◌, ℕ, List, IfOk, Contains, map, filter_map, option_copied};
ghost use Rattle.std.specs.List.Sorted.{IsPermutation, IsSorted, IsStrictlyIncreasing};
ghost use Rattle.rdf_terms.specs.declared.term.Term.{Term as T};
ghost use Rattle.rdf_terms.specs.Term.{text_cmp};
ghost use Rattle.shapes_graph.specs.NodeTests.{tag_of};
ghost use Rattle.shapes_graph.specs.Conformance.{AreTwins};
ghost use Rattle.path_eval.specs.Numbered.{terms_at, AreNumbers};

use crate::input::Input;
use rdf_terms::{OutOfMemory, Term, Text};
use std::alloc::Global;

/// The language tag of a literal that has one.
fn tag_of(term: &Term) -> Option<&Text>
    ensures { option_copied result ≡ tag_of term.now }
{
    match term {
        Term::Literal { tag: Some(tag), .. } => Some(tag),
        _ => None,
    }
}

/// The language tags of the nodes, in order, as often as nodes have them.
fn sorted_tags<'a>(
    alloc: Global,
    input: &'a Input<'_>,
    values: &[usize],
) -> Result<Vec<&'a Text>, OutOfMemory>
    requires { AreNumbers input.now.graph.nodes values.now }
    ensures sorted { IfOk result (λ ts. IsSorted text_cmp (map (λ t. t.now) ts.items)) }
    ensures tags { IfOk result (λ ts. IsPermutation (filter_map tag_of (terms_at input.now.graph.nodes values.now))
        (map (λ t. t.now) ts.items)) }
{
    let mut tags = Vec::new(alloc);
    'values: for value in values {
        if let Some(tag) = tag_of(input.term(*value)) {
            tags.push(tag)?;
        }
    }
    tags.sort_unstable();
    Ok(tags)
}

/// The language tags that two or more of the nodes have, in order (SHACL 2017, section 4.4.5). The nodes
/// are distinct.
pub(crate) fn repeated_tags<'a>(
    alloc: Global,
    input: &'a Input<'_>,
    values: &[usize],
) -> Result<Vec<&'a Text>, OutOfMemory>
    requires within { AreNumbers input.now.graph.nodes values.now }
    requires rises { IsStrictlyIncreasing values.now }
    ensures { IfOk result (λ ts. (tag : List ℕ) → Contains (map (λ t. t.now) ts.items) tag
        ↔ ((y : T) × (z : T) × AreTwins (Contains (terms_at input.now.graph.nodes values.now)) y z tag)) }
{
    let tags = sorted_tags(alloc, input, values)?;
    let mut repeated = Vec::new(alloc);
    'places: for place in 1..tags.len() {
        let tag = tags[place];
        if tags[place - 1] == tag {
            repeated.push(tag)?;
        }
    }
    repeated.dedup();
    Ok(repeated)
}
