ghost use Rattle.std.specs.Prelude.{◌≡◌, map, string_bytes, IfOk, IfErr, IfSome};
ghost use Rattle.command_words.specs.Words.{words_of, validate_of, explain_of, apply_of, check_of};
ghost use Rattle.command_words.specs.Words.{IsBudget, HasBudget, budget_of, named_budget, conflicts_of};
ghost use Rattle.command_words.specs.WordsRefusal.{IsRefusedFor};
ghost use Rattle.command_words.specs.declared.words.WordsRefusal.TheVariants.{OutOfMemory as NoCommand};

use numerals::parse_numeral;
use rdf_terms::{OutOfMemory, Text};
use std::alloc::Global;
use thiserror::Error;

/// The greatest budget of search steps, which is taken where the words name none.
const GREATEST_BUDGET: u64 = (1 << 63) - 1;

/// What the words ask for.
#[derive(Drop)]
pub enum Command {
    /// Report how the data breaks the shapes, by the names of the two documents.
    Validate {
        shapes: Text,
        present: Text,
    },
    /// Find a minimal pair of additions among the offered triples and deletions among the data, by
    /// the names of the three documents, with at most so many search steps: from 1 to 2^63 - 1.
    Explain {
        shapes: Text,
        present: Text,
        offered: Text,
        conflicts: u64,
    },
    /// Apply the pair that a document claims to the data, by the names of the two.
    Apply {
        present: Text,
        document: Text,
    },
    /// Judge a saved document, by the names of the three documents that it speaks of and its own.
    Check {
        shapes: Text,
        present: Text,
        offered: Text,
        document: Text,
    },
}

/// Why no command was read.
#[derive(Clone, Copy, Debug, PartialEq, Eq, Error)]
pub enum WordsRefusal {
    /// The first wrong word, counted from 0; the number of words where one is missing.
    #[error("word {position} is wrong or missing")]
    Word { position: usize },
    /// Memory could not be had.
    #[error("out of memory")]
    OutOfMemory,
}

impl From<OutOfMemory> for WordsRefusal {
    ghost from_gives = { λ _ refusal. refusal ≡ NoCommand };

    fn from(_: OutOfMemory) -> WordsRefusal {
        WordsRefusal::OutOfMemory
    }
}

/// Reads the words after the program's name: `validate SHAPES DATA`, `explain SHAPES DATA OFFERED`,
/// `explain SHAPES DATA OFFERED --conflicts N`, `apply DATA DOCUMENT` or `check SHAPES DATA OFFERED DOCUMENT`. A budget
/// N of search steps is from 1 to 2^63 - 1, in decimal digits without a leading zero; the greatest is taken where none
/// is named.
///
/// `Word` comes exactly where the words are no command.
pub fn read_words(alloc: Global, words: &[String]) -> Result<Command, WordsRefusal>
    ensures budget { IfOk result HasBudget }
    ensures ok { IfOk result (λ command. words_of (map string_bytes words.now) ≡ Ok command) }
    ensures err { IfErr result (λ refusal. IsRefusedFor (words_of (map string_bytes words.now)) refusal) }
{
    let [first, names @ ..] = words else {
        return Err(WordsRefusal::Word { position: 0 });
    };
    match first.as_str() {
        "validate" => read_validate(alloc, names),
        "explain" => read_explain(alloc, names),
        "apply" => read_apply(alloc, names),
        "check" => read_check(alloc, names),
        _ => Err(WordsRefusal::Word { position: 0 }),
    }
}

/// Reads the words after `validate`.
fn read_validate(alloc: Global, names: &[String]) -> Result<Command, WordsRefusal>
    ensures ok { IfOk result (λ command. validate_of (map string_bytes names.now) ≡ Ok command) }
    ensures err { IfErr result (λ refusal. IsRefusedFor (validate_of (map string_bytes names.now)) refusal) }
{
    match names {
        [shapes, present] => Ok(Command::Validate {
            shapes: Text::from_str(alloc, shapes.as_str())?,
            present: Text::from_str(alloc, present.as_str())?,
        }),
        _ => Err(WordsRefusal::Word {
            position: names.len().min(2) + 1,
        }),
    }
}

/// Reads the words after `explain`.
fn read_explain(alloc: Global, names: &[String]) -> Result<Command, WordsRefusal>
    ensures budget { IfOk result HasBudget }
    ensures ok { IfOk result (λ command. explain_of (map string_bytes names.now) ≡ Ok command) }
    ensures err { IfErr result (λ refusal. IsRefusedFor (explain_of (map string_bytes names.now)) refusal) }
{
    match names {
        [shapes, present, offered, options @ ..] => {
            let conflicts = read_conflicts(options).map_err(|position| WordsRefusal::Word {
                position,
            })?;
            Ok(Command::Explain {
                shapes: Text::from_str(alloc, shapes.as_str())?,
                present: Text::from_str(alloc, present.as_str())?,
                offered: Text::from_str(alloc, offered.as_str())?,
                conflicts,
            })
        }
        _ => Err(WordsRefusal::Word {
            position: names.len() + 1,
        }),
    }
}

/// Reads the words after the three documents of `explain`. The error is the position of the first wrong one.
fn read_conflicts(options: &[String]) -> Result<u64, usize>
    ensures budget { IfOk result IsBudget }
    ensures value { result ≡ conflicts_of (map string_bytes options.now) }
{
    let [option, words @ ..] = options else {
        return Ok(GREATEST_BUDGET);
    };
    match option.as_str() {
        "--conflicts" => read_budget(words),
        _ => Err(4),
    }
}

/// Reads the words after `--conflicts`. The error is the position of the first wrong one.
fn read_budget(words: &[String]) -> Result<u64, usize>
    ensures budget { IfOk result IsBudget }
    ensures value { result ≡ named_budget (map string_bytes words.now) }
{
    let [budget, rest @ ..] = words else {
        return Err(5);
    };
    match (parse_budget(budget.as_str()), rest) {
        (None, _) => Err(5),
        (Some(budget), []) => Ok(budget),
        (Some(_), _) => Err(6),
    }
}

/// The budget that a text spells, if it spells one.
fn parse_budget(text: &str) -> Option<u64>
    ensures value { result ≡ budget_of text.now }
    ensures budget { IfSome result IsBudget }
{
    match parse_numeral(text) {
        Some(n) if 0 < n && n <= GREATEST_BUDGET => Some(n),
        _ => None,
    }
}

/// Reads the words after `apply`.
fn read_apply(alloc: Global, names: &[String]) -> Result<Command, WordsRefusal>
    ensures ok { IfOk result (λ command. apply_of (map string_bytes names.now) ≡ Ok command) }
    ensures err { IfErr result (λ refusal. IsRefusedFor (apply_of (map string_bytes names.now)) refusal) }
{
    match names {
        [present, document] => Ok(Command::Apply {
            present: Text::from_str(alloc, present.as_str())?,
            document: Text::from_str(alloc, document.as_str())?,
        }),
        _ => Err(WordsRefusal::Word {
            position: names.len().min(2) + 1,
        }),
    }
}

/// Reads the words after `check`.
fn read_check(alloc: Global, names: &[String]) -> Result<Command, WordsRefusal>
    ensures ok { IfOk result (λ command. check_of (map string_bytes names.now) ≡ Ok command) }
    ensures err { IfErr result (λ refusal. IsRefusedFor (check_of (map string_bytes names.now)) refusal) }
{
    match names {
        [shapes, present, offered, document] => Ok(Command::Check {
            shapes: Text::from_str(alloc, shapes.as_str())?,
            present: Text::from_str(alloc, present.as_str())?,
            offered: Text::from_str(alloc, offered.as_str())?,
            document: Text::from_str(alloc, document.as_str())?,
        }),
        _ => Err(WordsRefusal::Word {
            position: names.len().min(4) + 1,
        }),
    }
}
