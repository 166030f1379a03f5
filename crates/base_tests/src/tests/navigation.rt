use crate::making::{graph, iri};
use digraph::{Digraph, depths, first_on_circle, reached};
use rdf_navigation::{Lists, instances_of, subclasses_of, subjects, values};
use rdf_terms::vocab::{rdf, rdfs};
use rdf_terms::{Graph, OutOfMemory};
use std::alloc::Global;
use std::test::Fail;

/// The graph of these successors.
fn digraph(alloc: Global, rows: &[Option<&[usize]>]) -> Result<Digraph, OutOfMemory> {
    let mut graph = Digraph::new(alloc);
    for successors in rows {
        graph.push(*successors)?;
    }
    Ok(graph)
}

#[test]
fn depths_end_at_circles_and_gaps(rt: HostRuntime) -> Result<(), Fail> {
    let alloc = rt.alloc();
    // 0 leads to 1 and 2, 1 to 2; 3 and 4 to each other, 5 to what is no node
    let graph = digraph(
        alloc,
        &[
            Some(&[1, 2]),
            Some(&[2]),
            Some(&[]),
            Some(&[4]),
            Some(&[3]),
            Some(&[6]),
            None,
        ],
    )?;
    let found = depths(alloc, &graph, 9)?;
    assert_eq!(rt;
        found.as_slice(),
        [Some(2), Some(1), Some(0), None, None, None, None].as_slice()
    );
    let marks = reached(alloc, &graph, &[1, 4])?;
    assert_eq!(rt;
        marks.as_slice(),
        [false, true, true, true, true, false, false].as_slice()
    );
    assert_eq!(rt; first_on_circle(alloc, &graph)?, Some(3));
    Ok(())
}

/// How many members the list at that node has, where it is one.
fn count_members(alloc: Global, graph: &Graph, node: &str) -> Result<Option<usize>, OutOfMemory> {
    let lists = Lists::new(alloc, graph)?;
    let members = lists.members(alloc, &iri(alloc, node)?)?;
    Ok(members.map(|members| members.as_slice().len()))
}

/// The same of lists whose cells are blank nodes.
fn count_blank_members(
    alloc: Global,
    graph: &Graph,
    node: &str,
) -> Result<Option<usize>, OutOfMemory> {
    let lists = Lists::new(alloc, graph)?;
    let members = lists.blank_members(alloc, &iri(alloc, node)?)?;
    Ok(members.map(|members| members.as_slice().len()))
}

#[test]
fn lists_end_at_nil(rt: HostRuntime) -> Result<(), Fail> {
    let alloc = rt.alloc();
    let graph = graph(
        alloc,
        &[
            ["b:1", rdf::FIRST, "b:x"],
            ["b:1", rdf::REST, "b:2"],
            ["b:2", rdf::FIRST, "b:x"],
            ["b:2", rdf::REST, rdf::NIL],
            ["b:3", rdf::FIRST, "b:x"],
            ["b:3", rdf::REST, "b:3"],
        ],
    )?;
    for (node, count) in [
        ("b:1", Some(2)),
        ("b:2", Some(1)),
        (rdf::NIL, Some(0)),
        ("b:3", None),
        ("b:x", None),
    ] {
        assert_eq!(rt; count_members(alloc, &graph, node)?, count, "{node}");
    }
    for (node, count) in [("b:1", None), (rdf::NIL, Some(0))] {
        assert_eq!(rt; count_blank_members(alloc, &graph, node)?, count, "{node}");
    }
    Ok(())
}

#[test]
fn instances_follow_subclasses(rt: HostRuntime) -> Result<(), Fail> {
    let alloc = rt.alloc();
    let graph = graph(
        alloc,
        &[
            ["b:x", rdf::TYPE, "b:staff"],
            ["b:staff", rdfs::SUB_CLASS_OF, "b:person"],
            ["b:person", rdfs::SUB_CLASS_OF, "b:staff"],
            ["b:y", rdf::TYPE, "b:person"],
            ["b:z", rdf::TYPE, "b:thing"],
        ],
    )?;
    for (class, count) in [("b:person", 2), ("b:thing", 1), ("b:none", 0)] {
        assert_eq!(rt;
            instances_of(alloc, &graph, &iri(alloc, class)?)?.len(),
            count,
            "{class}"
        );
    }
    Ok(())
}

/// How many values and how many subjects there are of a property.
fn count_values_and_subjects(
    alloc: Global,
    graph: &Graph,
    subject: &str,
    object: &str,
) -> Result<(usize, usize), OutOfMemory> {
    let values = values(alloc, graph, &iri(alloc, subject)?, "b:p")?;
    let subjects = subjects(alloc, graph, "b:p", &iri(alloc, object)?)?;
    Ok((values.as_slice().len(), subjects.as_slice().len()))
}

#[test]
fn values_and_subjects_are_copied(rt: HostRuntime) -> Result<(), Fail> {
    let alloc = rt.alloc();
    let graph = graph(
        alloc,
        &[
            ["b:1", "b:p", "b:x"],
            ["b:1", "b:p", "b:y"],
            ["b:1", "b:q", "b:x"],
            ["b:2", "b:p", "b:x"],
            ["b:3", "b:p", "b:x"],
        ],
    )?;
    assert_eq!(rt;
        count_values_and_subjects(alloc, &graph, "b:1", "b:x")?,
        (2, 3)
    );
    assert_eq!(rt; subclasses_of(alloc, &graph, &iri(alloc, "b:1")?)?.len(), 1);
    Ok(())
}
