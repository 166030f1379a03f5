ghost use Rattle.std.specs.Prelude.{◌≡◌, ℤ, option_map};
ghost use Rattle.datatypes.specs.Forms.{range_of, is_within, integer_within};
ghost use Rattle.datatypes.specs.Literals.{by_size};

use crate::Integer;
use crate::integer::parse_integer;
use rdf_terms::vocab::xsd;

/// The integers from `least` to `greatest`, where there are such.
#[derive(Clone, Copy)]
pub(crate) struct Range {
    pub least: Option<i128>,
    pub greatest: Option<i128>,
}

impl Range {
    const fn new(least: Option<i128>, greatest: Option<i128>) -> Range
        ensures { result ≡ record { least = least; greatest = greatest } }
    {
        Range { least, greatest }
    }

    /// Whether the integer is one of them.
    fn contains(self, integer: Integer) -> bool
        ensures { (z : ℤ) → integer ≡ by_size z → result ≡ is_within self z }
    {
        match integer {
            Integer::Below => self.least.is_none(),
            Integer::Within(value) => {
                self.least.is_none_or(|least| least <= value)
                    && self.greatest.is_none_or(|greatest| value <= greatest)
            }
            Integer::Above => self.greatest.is_none(),
        }
    }

    /// The integer that the text is a lexical form of, if it is one of them.
    #[tactic(auto, using(crate::proofs::Sizes::within_is))]
    pub(crate) fn parse(self, text: &str) -> Option<Integer>
        ensures { result ≡ option_map by_size (integer_within self text.now) }
    {
        let integer = parse_integer(text)?;
        if self.contains(integer) {
            Some(integer)
        } else {
            None
        }
    }
}

/// The values of the datatype, if it is one of integers.
#[tactic(auto, unfolding(crate::specs::Forms::range_of))]
pub(crate) fn range_of(datatype: &str) -> Option<Range>
    ensures { result ≡ range_of datatype.now }
{
    match datatype {
        xsd::INTEGER => Some(Range::new(None, None)),
        xsd::NON_POSITIVE_INTEGER => Some(Range::new(None, Some(0))),
        xsd::NEGATIVE_INTEGER => Some(Range::new(None, Some(-1))),
        xsd::LONG => Some(Range::new(Some(i64::MIN as i128), Some(i64::MAX as i128))),
        xsd::INT => Some(Range::new(Some(i32::MIN as i128), Some(i32::MAX as i128))),
        xsd::SHORT => Some(Range::new(Some(i16::MIN as i128), Some(i16::MAX as i128))),
        xsd::BYTE => Some(Range::new(Some(i8::MIN as i128), Some(i8::MAX as i128))),
        xsd::NON_NEGATIVE_INTEGER => Some(Range::new(Some(0), None)),
        xsd::UNSIGNED_LONG => Some(Range::new(Some(0), Some(u64::MAX as i128))),
        xsd::UNSIGNED_INT => Some(Range::new(Some(0), Some(u32::MAX as i128))),
        xsd::UNSIGNED_SHORT => Some(Range::new(Some(0), Some(u16::MAX as i128))),
        xsd::UNSIGNED_BYTE => Some(Range::new(Some(0), Some(u8::MAX as i128))),
        xsd::POSITIVE_INTEGER => Some(Range::new(Some(1), None)),
        _ => None,
    }
}
