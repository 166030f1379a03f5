//! The SHACL vocabulary (SHACL 2017).

// Shapes and paths (sections 2.1 to 2.3).

/// `sh:NodeShape`
pub const NODE_SHAPE: &str = "http://www.w3.org/ns/shacl#NodeShape";

/// `sh:PropertyShape`
pub const PROPERTY_SHAPE: &str = "http://www.w3.org/ns/shacl#PropertyShape";

/// `sh:property`
pub const PROPERTY: &str = "http://www.w3.org/ns/shacl#property";

/// `sh:path`
pub const PATH: &str = "http://www.w3.org/ns/shacl#path";

/// `sh:alternativePath`
pub const ALTERNATIVE_PATH: &str = "http://www.w3.org/ns/shacl#alternativePath";

/// `sh:inversePath`
pub const INVERSE_PATH: &str = "http://www.w3.org/ns/shacl#inversePath";

/// `sh:zeroOrMorePath`
pub const ZERO_OR_MORE_PATH: &str = "http://www.w3.org/ns/shacl#zeroOrMorePath";

/// `sh:oneOrMorePath`
pub const ONE_OR_MORE_PATH: &str = "http://www.w3.org/ns/shacl#oneOrMorePath";

/// `sh:zeroOrOnePath`
pub const ZERO_OR_ONE_PATH: &str = "http://www.w3.org/ns/shacl#zeroOrOnePath";

/// `sh:deactivated`
pub const DEACTIVATED: &str = "http://www.w3.org/ns/shacl#deactivated";

/// `sh:severity`
pub const SEVERITY: &str = "http://www.w3.org/ns/shacl#severity";

/// `sh:message`
pub const MESSAGE: &str = "http://www.w3.org/ns/shacl#message";

// Targets (section 2.1.3).

/// `sh:targetNode`
pub const TARGET_NODE: &str = "http://www.w3.org/ns/shacl#targetNode";

/// `sh:targetClass`
pub const TARGET_CLASS: &str = "http://www.w3.org/ns/shacl#targetClass";

/// `sh:targetSubjectsOf`
pub const TARGET_SUBJECTS_OF: &str = "http://www.w3.org/ns/shacl#targetSubjectsOf";

/// `sh:targetObjectsOf`
pub const TARGET_OBJECTS_OF: &str = "http://www.w3.org/ns/shacl#targetObjectsOf";

// Parameters of value types (section 4.1).

/// `sh:class`
pub const CLASS: &str = "http://www.w3.org/ns/shacl#class";

/// `sh:datatype`
pub const DATATYPE: &str = "http://www.w3.org/ns/shacl#datatype";

/// `sh:nodeKind`
pub const NODE_KIND: &str = "http://www.w3.org/ns/shacl#nodeKind";

// Kinds of nodes (section 4.1.3).

/// `sh:IRI`
pub const IRI: &str = "http://www.w3.org/ns/shacl#IRI";

/// `sh:BlankNode`
pub const BLANK_NODE: &str = "http://www.w3.org/ns/shacl#BlankNode";

/// `sh:Literal`
pub const LITERAL: &str = "http://www.w3.org/ns/shacl#Literal";

/// `sh:BlankNodeOrIRI`
pub const BLANK_NODE_OR_IRI: &str = "http://www.w3.org/ns/shacl#BlankNodeOrIRI";

/// `sh:BlankNodeOrLiteral`
pub const BLANK_NODE_OR_LITERAL: &str = "http://www.w3.org/ns/shacl#BlankNodeOrLiteral";

/// `sh:IRIOrLiteral`
pub const IRI_OR_LITERAL: &str = "http://www.w3.org/ns/shacl#IRIOrLiteral";

// Parameters of counts and ranges (sections 4.2 and 4.3).

/// `sh:minCount`
pub const MIN_COUNT: &str = "http://www.w3.org/ns/shacl#minCount";

/// `sh:maxCount`
pub const MAX_COUNT: &str = "http://www.w3.org/ns/shacl#maxCount";

/// `sh:minExclusive`
pub const MIN_EXCLUSIVE: &str = "http://www.w3.org/ns/shacl#minExclusive";

/// `sh:minInclusive`
pub const MIN_INCLUSIVE: &str = "http://www.w3.org/ns/shacl#minInclusive";

/// `sh:maxExclusive`
pub const MAX_EXCLUSIVE: &str = "http://www.w3.org/ns/shacl#maxExclusive";

/// `sh:maxInclusive`
pub const MAX_INCLUSIVE: &str = "http://www.w3.org/ns/shacl#maxInclusive";

// Parameters of strings (section 4.4).

/// `sh:minLength`
pub const MIN_LENGTH: &str = "http://www.w3.org/ns/shacl#minLength";

/// `sh:maxLength`
pub const MAX_LENGTH: &str = "http://www.w3.org/ns/shacl#maxLength";

/// `sh:pattern`
pub const PATTERN: &str = "http://www.w3.org/ns/shacl#pattern";

/// `sh:flags`
pub const FLAGS: &str = "http://www.w3.org/ns/shacl#flags";

/// `sh:languageIn`
pub const LANGUAGE_IN: &str = "http://www.w3.org/ns/shacl#languageIn";

/// `sh:uniqueLang`
pub const UNIQUE_LANG: &str = "http://www.w3.org/ns/shacl#uniqueLang";

// Parameters of pairs of properties (section 4.5).

/// `sh:equals`
pub const EQUALS: &str = "http://www.w3.org/ns/shacl#equals";

/// `sh:disjoint`
pub const DISJOINT: &str = "http://www.w3.org/ns/shacl#disjoint";

/// `sh:lessThan`
pub const LESS_THAN: &str = "http://www.w3.org/ns/shacl#lessThan";

/// `sh:lessThanOrEquals`
pub const LESS_THAN_OR_EQUALS: &str = "http://www.w3.org/ns/shacl#lessThanOrEquals";

// Parameters of logic (section 4.6).

/// `sh:not`
pub const NOT: &str = "http://www.w3.org/ns/shacl#not";

/// `sh:and`
pub const AND: &str = "http://www.w3.org/ns/shacl#and";

/// `sh:or`
pub const OR: &str = "http://www.w3.org/ns/shacl#or";

/// `sh:xone`
pub const XONE: &str = "http://www.w3.org/ns/shacl#xone";

// Parameters of shapes (section 4.7).

/// `sh:node`
pub const NODE: &str = "http://www.w3.org/ns/shacl#node";

/// `sh:qualifiedValueShape`
pub const QUALIFIED_VALUE_SHAPE: &str = "http://www.w3.org/ns/shacl#qualifiedValueShape";

/// `sh:qualifiedValueShapesDisjoint`
pub const QUALIFIED_VALUE_SHAPES_DISJOINT: &str =
    "http://www.w3.org/ns/shacl#qualifiedValueShapesDisjoint";

/// `sh:qualifiedMinCount`
pub const QUALIFIED_MIN_COUNT: &str = "http://www.w3.org/ns/shacl#qualifiedMinCount";

/// `sh:qualifiedMaxCount`
pub const QUALIFIED_MAX_COUNT: &str = "http://www.w3.org/ns/shacl#qualifiedMaxCount";

// Other parameters (section 4.8).

/// `sh:closed`
pub const CLOSED: &str = "http://www.w3.org/ns/shacl#closed";

/// `sh:ignoredProperties`
pub const IGNORED_PROPERTIES: &str = "http://www.w3.org/ns/shacl#ignoredProperties";

/// `sh:hasValue`
pub const HAS_VALUE: &str = "http://www.w3.org/ns/shacl#hasValue";

/// `sh:in`
pub const IN: &str = "http://www.w3.org/ns/shacl#in";

// Constraint components (section 4).

/// `sh:ClassConstraintComponent`
pub const CLASS_CONSTRAINT_COMPONENT: &str = "http://www.w3.org/ns/shacl#ClassConstraintComponent";

/// `sh:DatatypeConstraintComponent`
pub const DATATYPE_CONSTRAINT_COMPONENT: &str =
    "http://www.w3.org/ns/shacl#DatatypeConstraintComponent";

/// `sh:NodeKindConstraintComponent`
pub const NODE_KIND_CONSTRAINT_COMPONENT: &str =
    "http://www.w3.org/ns/shacl#NodeKindConstraintComponent";

/// `sh:MinCountConstraintComponent`
pub const MIN_COUNT_CONSTRAINT_COMPONENT: &str =
    "http://www.w3.org/ns/shacl#MinCountConstraintComponent";

/// `sh:MaxCountConstraintComponent`
pub const MAX_COUNT_CONSTRAINT_COMPONENT: &str =
    "http://www.w3.org/ns/shacl#MaxCountConstraintComponent";

/// `sh:MinExclusiveConstraintComponent`
pub const MIN_EXCLUSIVE_CONSTRAINT_COMPONENT: &str =
    "http://www.w3.org/ns/shacl#MinExclusiveConstraintComponent";

/// `sh:MinInclusiveConstraintComponent`
pub const MIN_INCLUSIVE_CONSTRAINT_COMPONENT: &str =
    "http://www.w3.org/ns/shacl#MinInclusiveConstraintComponent";

/// `sh:MaxExclusiveConstraintComponent`
pub const MAX_EXCLUSIVE_CONSTRAINT_COMPONENT: &str =
    "http://www.w3.org/ns/shacl#MaxExclusiveConstraintComponent";

/// `sh:MaxInclusiveConstraintComponent`
pub const MAX_INCLUSIVE_CONSTRAINT_COMPONENT: &str =
    "http://www.w3.org/ns/shacl#MaxInclusiveConstraintComponent";

/// `sh:MinLengthConstraintComponent`
pub const MIN_LENGTH_CONSTRAINT_COMPONENT: &str =
    "http://www.w3.org/ns/shacl#MinLengthConstraintComponent";

/// `sh:MaxLengthConstraintComponent`
pub const MAX_LENGTH_CONSTRAINT_COMPONENT: &str =
    "http://www.w3.org/ns/shacl#MaxLengthConstraintComponent";

/// `sh:LanguageInConstraintComponent`
pub const LANGUAGE_IN_CONSTRAINT_COMPONENT: &str =
    "http://www.w3.org/ns/shacl#LanguageInConstraintComponent";

/// `sh:UniqueLangConstraintComponent`
pub const UNIQUE_LANG_CONSTRAINT_COMPONENT: &str =
    "http://www.w3.org/ns/shacl#UniqueLangConstraintComponent";

/// `sh:EqualsConstraintComponent`
pub const EQUALS_CONSTRAINT_COMPONENT: &str =
    "http://www.w3.org/ns/shacl#EqualsConstraintComponent";

/// `sh:DisjointConstraintComponent`
pub const DISJOINT_CONSTRAINT_COMPONENT: &str =
    "http://www.w3.org/ns/shacl#DisjointConstraintComponent";

/// `sh:NotConstraintComponent`
pub const NOT_CONSTRAINT_COMPONENT: &str = "http://www.w3.org/ns/shacl#NotConstraintComponent";

/// `sh:AndConstraintComponent`
pub const AND_CONSTRAINT_COMPONENT: &str = "http://www.w3.org/ns/shacl#AndConstraintComponent";

/// `sh:OrConstraintComponent`
pub const OR_CONSTRAINT_COMPONENT: &str = "http://www.w3.org/ns/shacl#OrConstraintComponent";

/// `sh:XoneConstraintComponent`
pub const XONE_CONSTRAINT_COMPONENT: &str = "http://www.w3.org/ns/shacl#XoneConstraintComponent";

/// `sh:NodeConstraintComponent`
pub const NODE_CONSTRAINT_COMPONENT: &str = "http://www.w3.org/ns/shacl#NodeConstraintComponent";

/// `sh:QualifiedMinCountConstraintComponent`
pub const QUALIFIED_MIN_COUNT_CONSTRAINT_COMPONENT: &str =
    "http://www.w3.org/ns/shacl#QualifiedMinCountConstraintComponent";

/// `sh:QualifiedMaxCountConstraintComponent`
pub const QUALIFIED_MAX_COUNT_CONSTRAINT_COMPONENT: &str =
    "http://www.w3.org/ns/shacl#QualifiedMaxCountConstraintComponent";

/// `sh:ClosedConstraintComponent`
pub const CLOSED_CONSTRAINT_COMPONENT: &str =
    "http://www.w3.org/ns/shacl#ClosedConstraintComponent";

/// `sh:HasValueConstraintComponent`
pub const HAS_VALUE_CONSTRAINT_COMPONENT: &str =
    "http://www.w3.org/ns/shacl#HasValueConstraintComponent";

/// `sh:InConstraintComponent`
pub const IN_CONSTRAINT_COMPONENT: &str = "http://www.w3.org/ns/shacl#InConstraintComponent";

// Reports (section 3.6).

/// `sh:ValidationReport`
pub const VALIDATION_REPORT: &str = "http://www.w3.org/ns/shacl#ValidationReport";

/// `sh:conforms`
pub const CONFORMS: &str = "http://www.w3.org/ns/shacl#conforms";

/// `sh:result`
pub const RESULT: &str = "http://www.w3.org/ns/shacl#result";

/// `sh:ValidationResult`
pub const VALIDATION_RESULT: &str = "http://www.w3.org/ns/shacl#ValidationResult";

/// `sh:focusNode`
pub const FOCUS_NODE: &str = "http://www.w3.org/ns/shacl#focusNode";

/// `sh:resultPath`
pub const RESULT_PATH: &str = "http://www.w3.org/ns/shacl#resultPath";

/// `sh:value`
pub const VALUE: &str = "http://www.w3.org/ns/shacl#value";

/// `sh:resultSeverity`
pub const RESULT_SEVERITY: &str = "http://www.w3.org/ns/shacl#resultSeverity";

/// `sh:sourceConstraintComponent`
pub const SOURCE_CONSTRAINT_COMPONENT: &str =
    "http://www.w3.org/ns/shacl#sourceConstraintComponent";

/// `sh:sourceShape`
pub const SOURCE_SHAPE: &str = "http://www.w3.org/ns/shacl#sourceShape";

/// `sh:resultMessage`
pub const RESULT_MESSAGE: &str = "http://www.w3.org/ns/shacl#resultMessage";

/// `sh:Violation`
pub const VIOLATION: &str = "http://www.w3.org/ns/shacl#Violation";

// Predicates that have a meaning in SPARQL-based constraints (sections 5 and 6), in SHACL Advanced
// Features, in SHACL JavaScript Extensions or under an entailment regime alone.

/// `sh:sparql`
pub const SPARQL: &str = "http://www.w3.org/ns/shacl#sparql";

/// `sh:select`
pub const SELECT: &str = "http://www.w3.org/ns/shacl#select";

/// `sh:ask`
pub const ASK: &str = "http://www.w3.org/ns/shacl#ask";

/// `sh:parameter`
pub const PARAMETER: &str = "http://www.w3.org/ns/shacl#parameter";

/// `sh:validator`
pub const VALIDATOR: &str = "http://www.w3.org/ns/shacl#validator";

/// `sh:nodeValidator`
pub const NODE_VALIDATOR: &str = "http://www.w3.org/ns/shacl#nodeValidator";

/// `sh:propertyValidator`
pub const PROPERTY_VALIDATOR: &str = "http://www.w3.org/ns/shacl#propertyValidator";

/// `sh:rule`
pub const RULE: &str = "http://www.w3.org/ns/shacl#rule";

/// `sh:target`
pub const TARGET: &str = "http://www.w3.org/ns/shacl#target";

/// `sh:js`
pub const JS: &str = "http://www.w3.org/ns/shacl#js";

/// `sh:entailment`
pub const ENTAILMENT: &str = "http://www.w3.org/ns/shacl#entailment";

/// `sh:expression`
pub const EXPRESSION: &str = "http://www.w3.org/ns/shacl#expression";

/// `sh:values`
pub const VALUES: &str = "http://www.w3.org/ns/shacl#values";
