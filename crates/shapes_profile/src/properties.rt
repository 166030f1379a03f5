ghost use Rattle.std.specs.Prelude.{◌≡◌, find};
ghost use Rattle.std.specs.Option.{option_copied};
ghost use Rattle.shapes_profile.specs.Properties.{table, row_of, iri_of};
ghost use Rattle.rdf_navigation.specs.Values.{same_term};

use property_paths::is_named;
use rdf_terms::Term;
use rdf_terms::vocab::sh;

/// A property of shapes (SHACL 2017, sections 2.1 to 2.3 and 4).
#[derive(Clone, Copy, Debug)]
pub enum Property {
    Class,
    Equals,
    Disjoint,
    Datatype,
    Severity,
    NodeKind,
    MinCount,
    MaxCount,
    QualifiedMinCount,
    QualifiedMaxCount,
    MinLength,
    MaxLength,
    MinExclusive,
    MinInclusive,
    MaxExclusive,
    MaxInclusive,
    UniqueLang,
    QualifiedValueShapesDisjoint,
    Closed,
    Deactivated,
    LanguageIn,
    IgnoredProperties,
    In,
    HasValue,
    Not,
    Node,
    Property,
    QualifiedValueShape,
    And,
    Or,
    Xone,
    Path,
    TargetNode,
    TargetClass,
    TargetSubjectsOf,
    TargetObjectsOf,
}

/// What a value of a property has to be.
#[derive(Clone, Copy, Debug)]
pub enum Expected {
    /// An IRI.
    Iri,
    /// `sh:IRI`, `sh:BlankNode`, `sh:Literal`, `sh:BlankNodeOrIRI`, `sh:BlankNodeOrLiteral` or
    /// `sh:IRIOrLiteral`.
    NodeKind,
    /// A well-formed `xsd:integer` literal of value 0 to 4,294,967,295.
    Count,
    /// A well-formed integer literal within 128 bits.
    Integer,
    /// The literal `true` or `false` of `xsd:boolean`.
    Boolean,
    /// A SHACL list of `xsd:string` literals.
    ListOfStrings,
    /// A SHACL list of IRIs.
    ListOfIris,
    /// A SHACL list of any terms.
    ListOfTerms,
    /// Any term.
    AnyTerm,
    /// A shape.
    Shape,
    /// A SHACL list of shapes.
    ListOfShapes,
    /// A property path.
    Path,
    /// An IRI or a literal.
    IriOrLiteral,
}

impl Expected {
    ghost use Rattle.shapes_profile.specs.Properties.{is_list};

    /// Whether it is a SHACL list.
    pub fn is_list(self) -> bool
        ensures { result ≡ is_list self }
    {
        matches!(
            self,
            Expected::ListOfStrings
                | Expected::ListOfIris
                | Expected::ListOfTerms
                | Expected::ListOfShapes
        )
    }
}

/// What the profile asks of a property.
#[derive(Clone, Copy, Debug)]
pub struct Row {
    pub property: Property,
    /// What each value has to be.
    pub value: Expected,
    /// Whether a shape has at most one value.
    pub at_most_one: bool,
    /// Whether node shapes must not have it.
    pub property_shape_only: bool,
}

impl Property {
    ghost use Rattle.rdf_terms.specs.declared.term.Term.TheVariants.{Iri as Named};
    ghost use Rattle.shapes_profile.specs.Properties.{iri_of, is_target, is_parameter};

    /// The IRI of the property.
    pub fn iri(self) -> &'static str
        ensures { Named result.now ≡ iri_of self }
    {
        match self {
            Property::Class => sh::CLASS,
            Property::Equals => sh::EQUALS,
            Property::Disjoint => sh::DISJOINT,
            Property::Datatype => sh::DATATYPE,
            Property::Severity => sh::SEVERITY,
            Property::NodeKind => sh::NODE_KIND,
            Property::MinCount => sh::MIN_COUNT,
            Property::MaxCount => sh::MAX_COUNT,
            Property::QualifiedMinCount => sh::QUALIFIED_MIN_COUNT,
            Property::QualifiedMaxCount => sh::QUALIFIED_MAX_COUNT,
            Property::MinLength => sh::MIN_LENGTH,
            Property::MaxLength => sh::MAX_LENGTH,
            Property::MinExclusive => sh::MIN_EXCLUSIVE,
            Property::MinInclusive => sh::MIN_INCLUSIVE,
            Property::MaxExclusive => sh::MAX_EXCLUSIVE,
            Property::MaxInclusive => sh::MAX_INCLUSIVE,
            Property::UniqueLang => sh::UNIQUE_LANG,
            Property::QualifiedValueShapesDisjoint => sh::QUALIFIED_VALUE_SHAPES_DISJOINT,
            Property::Closed => sh::CLOSED,
            Property::Deactivated => sh::DEACTIVATED,
            Property::LanguageIn => sh::LANGUAGE_IN,
            Property::IgnoredProperties => sh::IGNORED_PROPERTIES,
            Property::In => sh::IN,
            Property::HasValue => sh::HAS_VALUE,
            Property::Not => sh::NOT,
            Property::Node => sh::NODE,
            Property::Property => sh::PROPERTY,
            Property::QualifiedValueShape => sh::QUALIFIED_VALUE_SHAPE,
            Property::And => sh::AND,
            Property::Or => sh::OR,
            Property::Xone => sh::XONE,
            Property::Path => sh::PATH,
            Property::TargetNode => sh::TARGET_NODE,
            Property::TargetClass => sh::TARGET_CLASS,
            Property::TargetSubjectsOf => sh::TARGET_SUBJECTS_OF,
            Property::TargetObjectsOf => sh::TARGET_OBJECTS_OF,
        }
    }

    /// Whether it says where a shape applies.
    pub fn is_target(self) -> bool
        ensures { result ≡ is_target self }
    {
        matches!(
            self,
            Property::TargetNode
                | Property::TargetClass
                | Property::TargetSubjectsOf
                | Property::TargetObjectsOf
        )
    }

    /// Whether it is a parameter of a constraint component.
    pub fn is_parameter(self) -> bool
        ensures { result ≡ is_parameter self }
    {
        !matches!(
            self,
            Property::Path
                | Property::Severity
                | Property::Deactivated
                | Property::TargetNode
                | Property::TargetClass
                | Property::TargetSubjectsOf
                | Property::TargetObjectsOf
        )
    }
}

impl Row {
    ghost use Rattle.shapes_profile.specs.Properties.{row};

    fn new(property: Property, value: Expected, at_most_one: bool, property_shape_only: bool) -> Row
        ensures { result ≡ row property value at_most_one property_shape_only }
    {
        Row {
            property,
            value,
            at_most_one,
            property_shape_only,
        }
    }
}

/// What the profile asks of each property, one line a property: its values, whether it has at most
/// one, and whether it is for property shapes only.
pub fn table() -> [Row; 36]
    ensures { result ≡ table }
{
    [
        Row::new(Property::Class, Expected::Iri, false, false),
        Row::new(Property::Equals, Expected::Iri, false, false),
        Row::new(Property::Disjoint, Expected::Iri, false, false),
        Row::new(Property::Datatype, Expected::Iri, true, false),
        Row::new(Property::Severity, Expected::Iri, true, false),
        Row::new(Property::NodeKind, Expected::NodeKind, true, false),
        Row::new(Property::MinCount, Expected::Count, true, true),
        Row::new(Property::MaxCount, Expected::Count, true, true),
        Row::new(Property::QualifiedMinCount, Expected::Count, true, false),
        Row::new(Property::QualifiedMaxCount, Expected::Count, true, false),
        Row::new(Property::MinLength, Expected::Count, true, false),
        Row::new(Property::MaxLength, Expected::Count, true, false),
        Row::new(Property::MinExclusive, Expected::Integer, true, false),
        Row::new(Property::MinInclusive, Expected::Integer, true, false),
        Row::new(Property::MaxExclusive, Expected::Integer, true, false),
        Row::new(Property::MaxInclusive, Expected::Integer, true, false),
        Row::new(Property::UniqueLang, Expected::Boolean, true, true),
        Row::new(
            Property::QualifiedValueShapesDisjoint,
            Expected::Boolean,
            true,
            false,
        ),
        Row::new(Property::Closed, Expected::Boolean, true, false),
        Row::new(Property::Deactivated, Expected::Boolean, true, false),
        Row::new(Property::LanguageIn, Expected::ListOfStrings, true, false),
        Row::new(
            Property::IgnoredProperties,
            Expected::ListOfIris,
            true,
            false,
        ),
        Row::new(Property::In, Expected::ListOfTerms, true, false),
        Row::new(Property::HasValue, Expected::AnyTerm, false, false),
        Row::new(Property::Not, Expected::Shape, false, false),
        Row::new(Property::Node, Expected::Shape, false, false),
        Row::new(Property::Property, Expected::Shape, false, false),
        Row::new(Property::QualifiedValueShape, Expected::Shape, true, true),
        Row::new(Property::And, Expected::ListOfShapes, false, false),
        Row::new(Property::Or, Expected::ListOfShapes, false, false),
        Row::new(Property::Xone, Expected::ListOfShapes, false, false),
        Row::new(Property::Path, Expected::Path, true, false),
        Row::new(Property::TargetNode, Expected::IriOrLiteral, false, false),
        Row::new(Property::TargetClass, Expected::Iri, false, false),
        Row::new(Property::TargetSubjectsOf, Expected::Iri, false, false),
        Row::new(Property::TargetObjectsOf, Expected::Iri, false, false),
    ]
}

/// Whether the predicate is the property of the row.
fn is_of(predicate: &Term, row: &Row) -> bool
    ensures { result ≡ same_term predicate.now (iri_of row.now.property) }
{
    is_named(predicate, row.property.iri())
}

/// The first of the rows with the property of this predicate.
fn find_row<'a>(rows: &'a [Row], predicate: &Term) -> Option<&'a Row>
    ensures { option_copied result ≡ find (λ row. same_term predicate.now (iri_of row.property)) rows.now }
{
    rows.iter().find(|row| is_of(predicate, row))
}

/// The row of a predicate, if it is one of these properties.
pub fn row_of(predicate: &Term) -> Option<Row>
    ensures { result ≡ row_of predicate.now }
{
    find_row(&table(), predicate).copied()
}

impl Property {
    ghost use Rattle.shapes_profile.specs.Properties.{property_of};

    /// The property that the predicate is, if it is one of these.
    pub fn of(predicate: &Term) -> Option<Property>
        ensures { result ≡ property_of predicate.now }
    {
        match row_of(predicate) {
            Some(row) => Some(row.property),
            None => None,
        }
    }
}
