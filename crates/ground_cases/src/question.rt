//! What is asked of the ground of a case.

/// What is asked.
#[derive(Clone, Copy)]
pub enum Question {
    /// All premises.
    Ground,
    /// How many premises, atoms and literals there are.
    Counts,
}

/// The question that the words ask, if they ask one.
pub fn parse_question(words: &str) -> Option<Question> {
    match words {
        "ground" => Some(Question::Ground),
        "counts" => Some(Question::Counts),
        _ => None,
    }
}
