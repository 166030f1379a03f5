use crate::role::{Role, anonymous};
use rdf_terms::{OutOfMemory, Term, Triple, Triples};
use std::alloc::Global;

/// What was said so far.
#[derive(Drop)]
pub struct Output {
    /// How many anonymous nodes there are. It is the number of the next one.
    pub nodes: u64,
    /// The triples in the order in which they were said; one may stand twice.
    pub triples: Triples,
}

impl Output {
    ghost use Rattle.std.specs.Prelude.{◌≡◌, IfOk, OnOk, IsTrue};
    ghost use Rattle.rdf_terms.specs.Statement.{is_node, is_iri};
    ghost use Rattle.turtle_statements.specs.Meaning.{nothing_said, new_node, one_more, say};

    /// Nothing. It takes no memory.
    pub fn new(alloc: Global) -> Output
        ensures { result ≡ nothing_said }
    {
        Output {
            nodes: 0,
            triples: Triples::new(alloc),
        }
    }

    /// A new anonymous node, with the next number. Where no number is left it is as if no memory were.
    pub(crate) fn new_node(&mut self, alloc: Global, role: Role) -> Result<Term, OutOfMemory>
        ensures node { IfOk result (λ node. node ≡ new_node role self.old) }
        ensures taken { OnOk result (self.new ≡ one_more self.old) }
    {
        let node = anonymous(alloc, role, self.nodes)?;
        self.nodes = self.nodes.checked_add(1).ok_or(OutOfMemory)?;
        Ok(node)
    }

    /// Adds a triple.
    pub(crate) fn say(
        &mut self,
        subject: Term,
        predicate: Term,
        object: Term,
    ) -> Result<(), OutOfMemory>
        requires node { IsTrue (is_node subject) }
        requires iri { IsTrue (is_iri predicate) }
        ensures { OnOk result (self.new ≡ say subject predicate object self.old) }
    {
        self.triples.push(Triple::new(subject, predicate, object))
    }
}
