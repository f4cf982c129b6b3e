//! How a refusal or a fault is reported.

/// How the line that reports a refusal or a fault is written.
#[derive(Clone, Copy, Debug, Drop, PartialEq, Eq)]
pub enum FaultForm {
    /// In words: `fault End at 32#b`.
    Text,
    /// As a JSON object: `{"fault":"End","at":32}`.
    Json,
}
