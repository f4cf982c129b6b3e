//! What is wrong with a head.

ghost use Rattle.std.specs.Prelude.{◌≡◌, codes};
ghost use Rattle.pickle_heads.specs.Heads.{fault_name};

use thiserror::Error;

/// The first line of a head that isn't in its form. It displays its name.
#[derive(Clone, Copy, Debug, Drop, PartialEq, Eq, Error)]
#[error("{}", self.name())]
pub enum HeadFault {
    /// `// main: TYPE` or `// main: TYPE, options: OPTIONS`. The options are `--endian little`, `--endian big`,
    /// `--whole`, or an order and `--whole`.
    Main,
    /// `// Identified by: TYPE`, which one or two byte orders may follow, or `// Identified by: nothing`.
    Identified,
    /// `// Form of: NAME`.
    Form,
    /// `// Inside: TYPE` or `// Inside: nothing, because REASON.`
    Inside,
    /// `// Records: TYPE PATH`.
    Records,
    /// One of the last four lines is there twice, or after one that has to follow it.
    Order,
}

impl HeadFault {
    /// What the line begins with, after `// `.
    pub fn name(self) -> &'static str
        ensures { result.now ≡ fault_name self }
    {
        match self {
            HeadFault::Main => "main",
            HeadFault::Identified => "Identified by",
            HeadFault::Form => "Form of",
            HeadFault::Inside => "Inside",
            HeadFault::Records => "Records",
            HeadFault::Order => "order of lines",
        }
    }
}
