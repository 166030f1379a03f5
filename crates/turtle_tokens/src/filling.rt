ghost use Rattle.std.specs.Prelude.{◌≡◌, ◌≤◌, length};
ghost use Rattle.std.specs.Str.{chars};
ghost use Rattle.turtle_tokens.specs.Fronts.{SkipsTo};
ghost use Rattle.turtle_tokens.specs.Filling.{filling_step, filling_char, filling_out, filling_at, has_ending, rest_of};

use crate::groups::{CharGroup, group_of};
use rdf_grammar::first_char;

/// What has been read of white space and comments.
#[derive(Clone, Copy)]
pub enum FillingState {
    /// White space and whole comments.
    Between,
    /// A comment whose line has not ended.
    Comment,
}

/// The state after one more character, or `None` where it is no part of filling.
#[tactic(auto, unfolding(crate::specs::Filling::filling_step))]
pub fn filling_step(state: FillingState, group: CharGroup) -> Option<FillingState>
    ensures { filling_step state group ≡ result }
{
    match state {
        FillingState::Between => match group {
            CharGroup::Blank | CharGroup::LineEnd => Some(FillingState::Between),
            CharGroup::Hash => Some(FillingState::Comment),
            _ => None,
        },
        FillingState::Comment => match group {
            CharGroup::LineEnd => Some(FillingState::Between),
            _ => Some(FillingState::Comment),
        },
    }
}

fn next_filling_state(state: FillingState, c: char) -> Option<FillingState>
    ensures { filling_char state c ≡ result }
{
    filling_step(state, group_of(c))
}

/// Whether what was read is filling, if it ends here.
#[tactic(auto, unfolding(crate::specs::Filling::filling_out))]
fn may_end(state: FillingState, at_end: bool) -> bool
    ensures { result ≡ has_ending (filling_out at_end state) }
{
    match state {
        FillingState::Between => true,
        FillingState::Comment => at_end,
    }
}

/// As `skip_filling`, by the machine.
fn filling_rest(text: &str, at_end: bool) -> &str
    ensures { rest_of (filling_at at_end (chars text.now)) ≡ chars result.now }
{
    let mut state = FillingState::Between;
    let mut rest = text;
    let mut behind = text;
    'characters: while let Some((c, after)) = first_char(rest) {
        match next_filling_state(state, c) {
            Some(further) => state = further,
            None => return behind,
        }
        rest = after;
        if may_end(state, at_end) {
            behind = rest;
        }
    }
    behind
}

/// The text behind all white space and comments at its front. A comment runs to the end of its line. One whose line
/// does not end in the text is skipped only where the document ends with the text (`at_end`), and not where bytes
/// follow that are no UTF-8.
pub fn skip_filling(text: &str, at_end: bool) -> &str
    ensures skips { SkipsTo at_end (chars text.now) (chars result.now) }
    ensures shorter { length result.now ≤ length text.now }
{
    filling_rest(text, at_end)
}
