ghost use Rattle.std.specs.Prelude.{◌≡◌, IfOk, IfSome, string_bytes};
ghost use Rattle.std.specs.Cow.{cow_str_bytes};

use rdf_terms::{OutOfMemory, Text};
use std::alloc::Global;
use std::borrow::CowStr;

/// How many slots there are at first, and at most.
const FIRST_SLOTS: usize = 1 << 10;

const MOST_SLOTS: usize = 1 << 20;

/// Texts that were read before, each in one of two slots that a hash of the text names. A text that
/// comes again shares its bytes with the one that is kept. There are twice as many slots as texts
/// that are kept, up to 2^20.
///
/// What a call answers equals what it is asked for, whatever is kept, so that no contract above
/// speaks of these texts.
#[derive(Drop)]
pub struct RecentTexts {
    alloc: Global,
    slots: Vec<Option<KeptText>>,
    kept: usize,
}

/// A text that is kept, with its hash.
#[derive(Drop)]
struct KeptText {
    hash: u64,
    text: Text,
}

impl RecentTexts {
    /// Keeps no texts. It takes no memory.
    pub fn new(alloc: Global) -> RecentTexts {
        RecentTexts {
            alloc,
            slots: Vec::new(alloc),
            kept: 0,
        }
    }

    /// From now on texts are kept.
    pub fn keep(&mut self) -> Result<(), OutOfMemory> {
        if self.slots.is_empty() {
            self.slots = empty_slots(self.alloc, FIRST_SLOTS)?;
        }
        Ok(())
    }

    /// The text of a `String`, whose bytes are moved where no equal text is kept.
    pub fn text_of(&mut self, text: String) -> Result<Text, OutOfMemory>
        ensures { IfOk result (λ t. t ≡ string_bytes text) }
    {
        let hash = hash_text(text.as_str());
        if let Some(known) = self.kept_at(hash, text.as_str())? {
            return Ok(known);
        }
        let text = Text::from_string(text)?;
        self.put(hash, &text)?;
        Ok(text)
    }

    /// The text of what was read, whose bytes are moved or copied where no equal text is kept.
    pub fn text_of_read(&mut self, text: CowStr<'_>) -> Result<Text, OutOfMemory>
        ensures { IfOk result (λ t. t ≡ cow_str_bytes text.entry) }
    {
        match text {
            CowStr::Borrowed(text) => self.copy_of(text),
            CowStr::Owned(text) => self.text_of(text),
        }
    }

    /// The text of a `&str`, whose bytes are copied where no equal text is kept.
    pub fn copy_of(&mut self, text: &str) -> Result<Text, OutOfMemory>
        ensures { IfOk result (λ t. t ≡ text.now) }
    {
        let hash = hash_text(text);
        if let Some(known) = self.kept_at(hash, text)? {
            return Ok(known);
        }
        let text = Text::from_str(self.alloc, text)?;
        self.put(hash, &text)?;
        Ok(text)
    }

    /// A copy of this text, where a slot of its hash has it.
    fn kept_at(&self, hash: u64, text: &str) -> Result<Option<Text>, OutOfMemory>
        ensures { IfOk result (λ found. IfSome found (λ t. t ≡ text.now)) }
    {
        for slot in slots_of(hash, self.slots.len()) {
            if let Some(Some(known)) = self.slots.get(slot) {
                if known.hash == hash && known.text.as_str() == text {
                    return Ok(Some(known.text.copy(self.alloc)?));
                }
            }
        }
        Ok(None)
    }

    /// Keeps a text, if there are slots.
    fn put(&mut self, hash: u64, text: &Text) -> Result<(), OutOfMemory> {
        if self.kept >= self.slots.len() / 2 && self.slots.len() < MOST_SLOTS {
            self.grow()?;
        }
        let text = text.copy(self.alloc)?;
        if put_in(self.slots.as_mut_slice(), KeptText { hash, text }) {
            self.kept = self.kept.saturating_add(1);
        }
        Ok(())
    }

    /// Doubles the slots, and moves each text to a slot of its hash among them.
    fn grow(&mut self) -> Result<(), OutOfMemory> {
        let mut slots = empty_slots(self.alloc, self.slots.len().saturating_mul(2))?;
        for known in self.slots.iter().flatten() {
            let text = known.text.copy(self.alloc)?;
            put_in(
                slots.as_mut_slice(),
                KeptText {
                    hash: known.hash,
                    text,
                },
            );
        }
        self.slots = slots;
        Ok(())
    }
}

/// So many slots without a text.
fn empty_slots(alloc: Global, count: usize) -> Result<Vec<Option<KeptText>>, OutOfMemory> {
    let mut slots = Vec::with_capacity(alloc, count)?;
    for _ in 0..count {
        slots.push(None)?;
    }
    Ok(slots)
}

/// Puts a text in an empty slot of its hash, or else in the place of the text in the first, and
/// answers whether the slot was empty.
fn put_in(slots: &mut [Option<KeptText>], kept: KeptText) -> bool {
    let [first, second] = slots_of(kept.hash, slots.len());
    let is_second = !is_empty(slots, first) && is_empty(slots, second);
    let slot = if is_second { second } else { first };
    let was_empty = is_empty(slots, slot);
    if slot < slots.len() {
        slots[slot] = Some(kept);
    }
    was_empty
}

/// Whether the slot is there and has no text.
fn is_empty(slots: &[Option<KeptText>], slot: usize) -> bool {
    matches!(slots.get(slot), Some(None))
}

/// The two slots of a hash among so many, a power of two. They stand side by side.
fn slots_of(hash: u64, slots: usize) -> [usize; 2] {
    let first = (hash >> 16) as usize & slots.saturating_sub(1);
    [first, first ^ 1]
}

/// A hash of the text, which takes eight bytes at a time.
fn hash_text(text: &str) -> u64 {
    let (words, rest) = text.as_bytes().as_chunks::<8>();
    let hash = words.iter().fold(0, |hash: u64, word| {
        push_word(hash, u64::from_le_bytes(*word))
    });
    rest.iter()
        .fold(hash, |hash: u64, byte| push_word(hash, u64::from(*byte)))
}

/// The hash behind one more word: a product, whose upper half is mixed into the lower one.
fn push_word(hash: u64, word: u64) -> u64 {
    let product = (hash ^ word).wrapping_mul(0x9e37_79b9_7f4a_7c15);
    product ^ (product >> 32)
}
