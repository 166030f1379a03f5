//! Datatypes of XML Schema 1.1 Part 2, as RDF 1.1 Concepts, section 5.1, names them.

/// `xsd:string`
pub const STRING: &str = "http://www.w3.org/2001/XMLSchema#string";

/// `xsd:boolean`
pub const BOOLEAN: &str = "http://www.w3.org/2001/XMLSchema#boolean";

/// `xsd:decimal`
pub const DECIMAL: &str = "http://www.w3.org/2001/XMLSchema#decimal";

/// `xsd:integer`
pub const INTEGER: &str = "http://www.w3.org/2001/XMLSchema#integer";

/// `xsd:float`
pub const FLOAT: &str = "http://www.w3.org/2001/XMLSchema#float";

/// `xsd:double`
pub const DOUBLE: &str = "http://www.w3.org/2001/XMLSchema#double";

/// `xsd:dateTime`
pub const DATE_TIME: &str = "http://www.w3.org/2001/XMLSchema#dateTime";

// Those derived from integer (XML Schema 1.1 Part 2, sections 3.4.14 to 3.4.25).

/// `xsd:nonPositiveInteger`
pub const NON_POSITIVE_INTEGER: &str = "http://www.w3.org/2001/XMLSchema#nonPositiveInteger";

/// `xsd:negativeInteger`
pub const NEGATIVE_INTEGER: &str = "http://www.w3.org/2001/XMLSchema#negativeInteger";

/// `xsd:long`
pub const LONG: &str = "http://www.w3.org/2001/XMLSchema#long";

/// `xsd:int`
pub const INT: &str = "http://www.w3.org/2001/XMLSchema#int";

/// `xsd:short`
pub const SHORT: &str = "http://www.w3.org/2001/XMLSchema#short";

/// `xsd:byte`
pub const BYTE: &str = "http://www.w3.org/2001/XMLSchema#byte";

/// `xsd:nonNegativeInteger`
pub const NON_NEGATIVE_INTEGER: &str = "http://www.w3.org/2001/XMLSchema#nonNegativeInteger";

/// `xsd:unsignedLong`
pub const UNSIGNED_LONG: &str = "http://www.w3.org/2001/XMLSchema#unsignedLong";

/// `xsd:unsignedInt`
pub const UNSIGNED_INT: &str = "http://www.w3.org/2001/XMLSchema#unsignedInt";

/// `xsd:unsignedShort`
pub const UNSIGNED_SHORT: &str = "http://www.w3.org/2001/XMLSchema#unsignedShort";

/// `xsd:unsignedByte`
pub const UNSIGNED_BYTE: &str = "http://www.w3.org/2001/XMLSchema#unsignedByte";

/// `xsd:positiveInteger`
pub const POSITIVE_INTEGER: &str = "http://www.w3.org/2001/XMLSchema#positiveInteger";
