use crate::Role;
use rdf_grammar::{ParseError, RecentTexts};
use rdf_terms::{OutOfMemory, Text};
use std::alloc::Global;
use std::collections::BTreeMap;

/// What the directives so far leave (RDF 1.1 Turtle, sections 2.4 and 7.1). The latest directive counts.
#[derive(Drop)]
pub struct Context {
    /// Which document is read.
    pub role: Role,
    /// The IRI that relative references are resolved against, once a directive says it.
    pub base: Option<Text>,
    /// The IRI of each prefix; the key is what stands before the colon.
    pub namespaces: BTreeMap<Text, Text>,
}

impl Context {
    ghost use Rattle.std.specs.Prelude.{◌≡◌, OnOk};
    ghost use Rattle.rdf_grammar.specs.Answers.{GivesAll};
    ghost use Rattle.rdf_grammar.specs.Lawful.{IsIri};
    ghost use Rattle.turtle_statements.specs.Names.{names_of, no_names, namespace_of, with_prefix, with_base};
    ghost use Rattle.turtle_statements.specs.Names.{AreLawfulNames};

    /// No base and no prefixes. It takes no memory.
    pub fn new(alloc: Global, role: Role) -> Context
        ensures none { names_of result ≡ no_names role }
        ensures lawful { AreLawfulNames (names_of result) }
    {
        Context {
            role,
            base: None,
            namespaces: BTreeMap::new(alloc),
        }
    }

    /// The IRI of a prefix, or `NoMatch` where none was declared.
    pub(crate) fn namespace(
        &self,
        texts: &mut RecentTexts,
        prefix: &str,
    ) -> Result<&Text, ParseError>
        ensures { GivesAll (λ iri. iri.now) result (namespace_of (names_of self.now) prefix.now) }
    {
        let prefix = texts.copy_of(prefix)?;
        match self.namespaces.get(&prefix) {
            Some(iri) => Ok(iri),
            None => Err(ParseError::NoMatch),
        }
    }

    /// From now on the prefix has this IRI.
    pub(crate) fn declare(
        &mut self,
        texts: &mut RecentTexts,
        prefix: &str,
        iri: Text,
    ) -> Result<(), OutOfMemory>
        ensures declares { OnOk result (names_of self.new ≡ with_prefix (names_of self.old) (prefix.now, iri)) }
        ensures lawful { AreLawfulNames (names_of self.old) → IsIri iri
            → OnOk result (AreLawfulNames (names_of self.new)) }
    {
        let prefix = texts.copy_of(prefix)?;
        let _before = self.namespaces.insert(prefix, iri)?;
        Ok(())
    }

    /// From now on this is the base.
    pub(crate) fn rebase(&mut self, iri: Text)
        ensures rebases { names_of self.new ≡ with_base (names_of self.old) iri }
        ensures lawful { AreLawfulNames (names_of self.old) → IsIri iri → AreLawfulNames (names_of self.new) }
    {
        self.base = Some(iri);
    }
}
