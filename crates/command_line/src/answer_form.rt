//! How an answer about a pickle is printed.

/// How `check`, `types` and `formats` print what they find.
#[derive(Clone, Copy, Debug, Drop, PartialEq, Eq)]
pub enum AnswerForm {
    /// In words and columns.
    Text,
    /// As JSON objects, also for a pickle that is refused.
    Json,
}
