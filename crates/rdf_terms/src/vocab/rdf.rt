//! The RDF vocabulary (RDF Schema 1.1, sections 3.3 and 5.2; RDF 1.1 Concepts, section 3.3).

/// `rdf:type`
pub const TYPE: &str = "http://www.w3.org/1999/02/22-rdf-syntax-ns#type";

// Collections (RDF Schema 1.1, section 5.2).

/// `rdf:first`
pub const FIRST: &str = "http://www.w3.org/1999/02/22-rdf-syntax-ns#first";

/// `rdf:rest`
pub const REST: &str = "http://www.w3.org/1999/02/22-rdf-syntax-ns#rest";

/// `rdf:nil`
pub const NIL: &str = "http://www.w3.org/1999/02/22-rdf-syntax-ns#nil";

// The datatype of literals with a language tag.

/// `rdf:langString`
pub const LANG_STRING: &str = "http://www.w3.org/1999/02/22-rdf-syntax-ns#langString";
