use crate::making::{graph, iri, triple};
use rdf_terms::{Graph, OutOfMemory, nodes_of};
use std::alloc::Global;
use std::test::Fail;

/// The place of the triple of these words.
fn place_of(alloc: Global, graph: &Graph, words: [&str; 3]) -> Result<Option<usize>, OutOfMemory> {
    Ok(graph.index_of(&triple(alloc, words)?))
}

/// The places of the triples with this subject.
fn places_of(alloc: Global, graph: &Graph, subject: &str) -> Result<(usize, usize), OutOfMemory> {
    Ok(graph.places_of(&iri(alloc, subject)?))
}

/// How many triples there are with this subject and predicate.
fn count_of(
    alloc: Global,
    graph: &Graph,
    subject: &str,
    predicate: &str,
) -> Result<usize, OutOfMemory> {
    Ok(graph.triples_of(&iri(alloc, subject)?, predicate).len())
}

/// Whether the triples with this object stand at these places.
fn has_places(
    alloc: Global,
    graph: &Graph,
    object: &str,
    places: &[usize],
) -> Result<bool, OutOfMemory> {
    Ok(graph.places_of_object(&iri(alloc, object)?) == places)
}

#[test]
fn graphs_are_sets(rt: HostRuntime) -> Result<(), Fail> {
    let alloc = rt.alloc();
    let mut g = graph(
        alloc,
        &[
            ["b:2", "b:p", "b:1"],
            ["b:1", "b:p", "b:2"],
            ["b:2", "b:p", "b:1"],
            ["b:2", "b:q", "b:3"],
        ],
    )?;
    for (words, is_new) in [
        (["b:3", "b:p", "b:1"], true),
        (["b:2", "b:p", "b:1"], false),
    ] {
        assert_eq!(rt; g.insert(triple(alloc, words)?)?, is_new);
    }
    assert_eq!(rt; g.len(), 4);
    for (words, place) in [
        (["b:2", "b:q", "b:3"], Some(2)),
        (["b:2", "b:q", "b:4"], None),
    ] {
        assert_eq!(rt; place_of(alloc, &g, words)?, place);
    }
    for (subject, places) in [("b:2", (1, 3)), ("b:22", (3, 3))] {
        assert_eq!(rt; places_of(alloc, &g, subject)?, places, "{subject}");
    }
    Ok(())
}

#[test]
fn triples_are_found_from_every_side(rt: HostRuntime) -> Result<(), Fail> {
    let alloc = rt.alloc();
    let mut g = graph(
        alloc,
        &[
            ["b:2", "b:p", "b:1"],
            ["b:2", "b:p", "b:3"],
            ["b:2", "b:q", "b:1"],
            ["b:4", "b:p", "b:1"],
        ],
    )?;
    assert!(rt; g.insert(triple(alloc, ["b:1", "b:p", "b:1"])?)?);
    for (predicate, count) in [("b:p", 2), ("b:r", 0)] {
        assert_eq!(rt;
            count_of(alloc, &g, "b:2", predicate)?,
            count,
            "{predicate}"
        );
    }
    assert!(rt; has_places(alloc, &g, "b:1", &[0, 1, 3, 4])?);
    assert!(rt; has_places(alloc, &g, "b:3", &[2])?);
    assert!(rt; has_places(alloc, &g, "b:2", &[])?);
    Ok(())
}

#[test]
fn a_triple_that_is_deleted_and_added_is_there(rt: HostRuntime) -> Result<(), Fail> {
    let alloc = rt.alloc();
    let g = graph(
        alloc,
        &[
            ["b:1", "b:p", "b:2"],
            ["b:2", "b:p", "b:1"],
            ["b:2", "b:q", "b:3"],
        ],
    )?;
    let delete = graph(alloc, &[["b:2", "b:p", "b:1"], ["b:2", "b:q", "b:3"]])?;
    let add = graph(alloc, &[["b:2", "b:q", "b:3"], ["b:4", "b:p", "b:1"]])?;
    let expected = graph(
        alloc,
        &[
            ["b:1", "b:p", "b:2"],
            ["b:2", "b:q", "b:3"],
            ["b:4", "b:p", "b:1"],
        ],
    )?;
    assert!(rt; g.edited(alloc, &add, &delete)? == expected);
    assert_eq!(rt; g.without(alloc, &delete)?.len(), 1);
    Ok(())
}

#[test]
fn nodes_are_subjects_and_objects(rt: HostRuntime) -> Result<(), Fail> {
    let alloc = rt.alloc();
    let first = graph(alloc, &[["b:2", "b:p", "b:1"], ["b:2", "b:q", "b:3"]])?;
    let second = graph(alloc, &[["b:2", "b:q", "b:3"], ["b:4", "b:p", "b:1"]])?;
    let more = [iri(alloc, "b:9")?, iri(alloc, "b:1")?];
    let nodes = nodes_of(alloc, &first, &second, &more)?;
    for (node, place) in [("b:9", Some(4)), ("b:q", None)] {
        assert_eq!(rt; nodes.index_of_term(&iri(alloc, node)?), place, "{node}");
    }
    Ok(())
}
