use rdf_terms::Items;

/// A fact about an edited graph, by numbers: `t` of a candidate, `p` of a path, `x`, `y` and `z` of nodes, `i` of the
/// triple of the shapes graph that states a constraint, and `s` of a shape, all counted from 0.
#[derive(Clone, Copy, Debug, PartialEq, Eq, Hash)]
pub enum Atom {
    /// The candidate is in the graph.
    Triple {
        t: u64,
    },
    /// The path leads from `x` to `y`.
    Reach {
        p: u64,
        x: u64,
        y: u64,
    },
    /// The inner path of a repeated one leads from `x` to `y` in at most `k` steps, and for `sh:oneOrMorePath` in at
    /// least 1 and at most `k + 1`.
    Level {
        p: u64,
        k: u64,
        x: u64,
        y: u64,
    },
    /// By way of `z`: the two members of a sequence lead from `x` to `y`, or so many steps of a repeated path and then
    /// one more.
    Middle {
        p: u64,
        k: u64,
        x: u64,
        z: u64,
        y: u64,
    },
    /// `y` passes the constraint as a single value node. For a qualified count, it conforms to the qualified shape and
    /// to no sibling. It is false of constraints that don't test single value nodes alone.
    Good {
        i: u64,
        y: u64,
    },
    /// `y` is a value node of `x` that violates the constraint, or for a count one that is counted.
    Marked {
        i: u64,
        x: u64,
        y: u64,
    },
    /// At least `m` of the first `j` value nodes of `x` are counted, in the order of those with all candidates in the
    /// graph; for `sh:xone`, `x` conforms to at least `m` of the first `j` distinct members.
    Count {
        i: u64,
        x: u64,
        j: u64,
        m: u64,
    },
    /// `y` is a value of the property of an `sh:equals` at `x`, and no value node.
    Differ {
        i: u64,
        x: u64,
        y: u64,
    },
    /// `y` and `z` are value nodes of `x`.
    Twin {
        i: u64,
        x: u64,
        y: u64,
        z: u64,
    },
    /// The constraint holds for `x`.
    Holds {
        i: u64,
        x: u64,
    },
    /// `x` conforms to the shape.
    Conforms {
        s: u64,
        x: u64,
    },
    /// `x` is a focus node of the shape.
    Target {
        s: u64,
        x: u64,
    },
}

/// An atom, or that it is false.
#[derive(Clone, Copy, Debug, PartialEq, Eq)]
pub struct Literal {
    /// What is true, or false.
    pub atom: Atom,
    /// Whether the atom itself is meant.
    pub positive: bool,
}

/// What an atom comes down to in part.
#[derive(Clone, Copy, Debug, PartialEq, Eq)]
pub enum Part {
    /// What is true of every edited graph, or of none.
    Fixed(bool),
    /// An atom or its denial, which depends on the edited graph.
    Lit(Literal),
}

/// A list of literals.
pub type LiteralList = Items<Literal>;

/// A list of parts.
pub type PartList = Items<Part>;

/// What an atom comes down to: all parts of a list, or any of them.
#[derive(Drop)]
pub struct Parts {
    /// Whether all parts are meant.
    pub every: bool,
    /// The parts, in order.
    pub list: PartList,
}
