ghost use Rattle.grammar_forms.specs.Exact.{Exact, anything};
ghost use Rattle.grammar_forms.specs.Names.{NoName};
ghost use Rattle.rdf_grammar.specs.Productions.{uchar, echar, iriref, absolute_iri, string, is_name_char, blank_node_label, langtag};
ghost use Rattle.rdf_grammar.specs.Reading.{uchar_at, echar_at, iriref_at, absolute_iri_at, string_at, blank_node_label_at, langtag_at, AfterTag};

use crate::Dialect;

/// The reading functions that the contracts of the readers cite read exactly the productions: what
/// is read is in the production, and what is in it is read, where no more of it follows.
pub fn readers_are_exact(_dialect: Dialect)
    ensures uchar { Exact uchar anything uchar_at }
    ensures echar { Exact echar anything echar_at }
    ensures iriref { Exact iriref anything iriref_at }
    ensures absolute_iri { Exact absolute_iri anything absolute_iri_at }
    ensures string { Exact string anything string_at }
    ensures label { Exact (blank_node_label _dialect) (NoName (is_name_char _dialect)) (blank_node_label_at _dialect) }
    ensures langtag { Exact langtag AfterTag langtag_at }
{}
