//! The vocabulary of RDF Schema 1.1 (sections 2.2 and 3.4).

/// `rdfs:subClassOf`
pub const SUB_CLASS_OF: &str = "http://www.w3.org/2000/01/rdf-schema#subClassOf";

/// `rdfs:Class`
pub const CLASS: &str = "http://www.w3.org/2000/01/rdf-schema#Class";
