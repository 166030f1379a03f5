ghost use Rattle.std.specs.Prelude.{◌≡◌};
ghost use Rattle.rdf_navigation.specs.CellKind.{is_cell};

use rdf_terms::Term;

/// Which nodes may be the cells of a list.
#[derive(Clone, Copy)]
pub(crate) enum CellKind {
    /// IRIs and blank nodes, as in every SHACL list.
    Node,
    /// Blank nodes alone, as in a sequence path.
    Blank,
}

impl CellKind {
    pub(crate) fn fits(self, node: &Term) -> bool
        ensures { result ≡ is_cell self node.now }
    {
        match self {
            CellKind::Node => node.is_node(),
            CellKind::Blank => matches!(node, Term::Blank { .. }),
        }
    }
}
