ghost use Rattle.std.specs.Prelude.{◌≡◌};
ghost use Rattle.document_input.specs.NamedDocument.{scope_of, turtle_role_of};

use rdf_terms::Scope;
use std::fmt;
use turtle_io::Role as TurtleRole;

/// Which of the documents that the words name.
#[derive(Clone, Copy, Debug, PartialEq, Eq)]
pub enum Role {
    /// The shapes graph.
    Shapes,
    /// The data graph.
    Data,
    /// The offered triples.
    Offered,
    /// The document of a claim.
    Document,
}

impl Role {
    /// The scope of the blank nodes of a graph with that role: the data and the offered triples share
    /// theirs, and the shapes have their own. It takes no memory.
    pub fn scope(&self) -> Scope
        ensures { result ≡ scope_of self.now }
    {
        match self {
            Role::Shapes => Scope::Shapes,
            Role::Data | Role::Offered | Role::Document => Scope::Data,
        }
    }

    /// The role of a graph as a document of Turtle has it, by which its anonymous nodes are labelled.
    pub(crate) fn turtle_role(&self) -> TurtleRole
        ensures { result ≡ turtle_role_of self.now }
    {
        match self {
            Role::Shapes => TurtleRole::Shapes,
            Role::Data | Role::Document => TurtleRole::Data,
            Role::Offered => TurtleRole::Offered,
        }
    }
}

impl fmt::Display for Role {
    ghost use Rattle.std.specs.Prelude.{Some};
    ghost use Rattle.document_input.specs.Notes.{role_text};

    ghost output = { λ role. Some (role_text role) };

    /// Writes the word that stands for the document where the commands are described.
    fn fmt<W: fmt::Write>(&self, f: &mut fmt::Formatter<W>) -> fmt::Result {
        match self {
            Role::Shapes => f.write_str("SHAPES"),
            Role::Data => f.write_str("DATA"),
            Role::Offered => f.write_str("OFFERED"),
            Role::Document => f.write_str("DOCUMENT"),
        }
    }
}
