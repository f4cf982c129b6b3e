//! The law of the JSON text. This function does nothing: its contract is the law.

ghost use Rattle.identity_text.specs.Laws.{AnswerReads};

/// The text of formats in JSON reads as the object of the first, or with `all` as the list of the objects of all.
pub fn answer_reads()
    ensures law { AnswerReads }
{}
