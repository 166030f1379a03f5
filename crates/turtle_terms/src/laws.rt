ghost use Rattle.std.specs.Prelude.{◌≡◌, ℕ, List, Option};
ghost use Rattle.rdf_grammar.specs.declared.dialect.Dialect.TheVariants.{Turtle};
ghost use Rattle.rdf_grammar.specs.Productions.{blank_node_label, langtag};
ghost use Rattle.turtle_terms.specs.Answers.{GivesOneMeaning};
ghost use Rattle.turtle_terms.specs.Names.{IsNameOf};
ghost use Rattle.turtle_terms.specs.References.{Refers};
ghost use Rattle.turtle_terms.specs.Strings.{string};

/// A token means one thing at most, and a name is cut at one place: what the contracts of this crate say of an answer
/// says which answer it is.
pub fn meanings_are_single()
    ensures references { (base : Option (List ℕ)) → GivesOneMeaning (Refers base) }
    ensures strings { GivesOneMeaning string }
    ensures labels { GivesOneMeaning (blank_node_label Turtle) }
    ensures tags { GivesOneMeaning langtag }
    ensures names { (name prefix local other rest : List ℕ)
        → IsNameOf name prefix local → IsNameOf name other rest → (prefix ≡ other) × (local ≡ rest) }
{}
