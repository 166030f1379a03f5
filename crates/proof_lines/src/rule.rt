use rdf_terms::Numbers;

/// The rules that premises of a proof follow. Each is named for the fact that its clause speaks of.
#[derive(Clone, Copy, Debug, PartialEq, Eq)]
pub enum RuleName {
    /// A path leads from one node to another.
    Reach,
    /// A repeated path leads from one node to another in so many steps.
    Level,
    /// A path in two parts leads from one node to another by way of a third.
    Middle,
    /// A node passes a constraint as a single value node.
    Good,
    /// A value node counts for or against a constraint.
    Marked,
    /// So many of the first items of a constraint are true.
    Count,
    /// A node is an object of a property and no value node.
    Differ,
    /// Two value nodes have the same language tag.
    Twin,
    /// A constraint holds for a node.
    Holds,
    /// A node conforms to a shape.
    Conforms,
    /// A node is a focus node of a shape.
    Target,
    /// Each focus node of a shape conforms to it.
    Root,
    /// A candidate is in no pair below a given one, since it is not in that pair.
    Outside,
    /// A pair below a given one changes less than that one.
    Undo,
}

/// A premise: the rule that it follows, and the numbers of the things that it speaks of.
#[derive(Drop)]
pub struct Rule {
    pub name: RuleName,
    pub numbers: Numbers,
}
