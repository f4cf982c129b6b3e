//! How the parts of a printed value look.

/// How numbers are printed.
#[derive(Clone, Copy, Debug, Drop, PartialEq, Eq)]
pub enum Numbers {
    Decimal,
    Hexadecimal,
    /// Decimal digits alone, without the type.
    Digits,
}

/// How an array is printed whose element was declared as `char`.
#[derive(Clone, Copy, Debug, Drop, PartialEq, Eq)]
pub enum Chars {
    /// As an array of numbers.
    Numbers,
    /// As a text in double quotes, without the zero bytes at its end.
    Text,
}

/// How the parts of a printed value look, in every mode. [`Style::plain`] is the default.
#[derive(Clone, Copy, Debug, Drop, PartialEq, Eq)]
pub struct Style {
    pub numbers: Numbers,
    pub chars: Chars,
    /// The most elements that are printed of an array. `None` prints all of them.
    pub elements: Option<u64>,
}

impl Style {
    ghost use Rattle.std.specs.Prelude.{◌≡◌, None};
    ghost use Rattle.text_output.specs.Styles.{plain};

    /// Decimal numbers, `char` as any other number, and all elements.
    pub fn plain() -> Style
        ensures { result ≡ plain }
    {
        Style {
            numbers: Numbers::Decimal,
            chars: Chars::Numbers,
            elements: None,
        }
    }
}

/// How a value is shown to the eye.
#[derive(Clone, Copy, Debug, Drop, PartialEq, Eq)]
pub struct Look {
    /// How numbers are shown, without their types. `None` shows them in decimal and, from 10 on, in hexadecimal too.
    pub numbers: Option<Numbers>,
    /// How an array is shown whose element was declared as `char`: as a text, or as a dump of its bytes.
    pub chars: Chars,
    /// The most elements of an array, and lines of an array of bytes. `None` shows all of them.
    pub elements: Option<u64>,
    /// The most levels of parts below the value. Parts below those are left out. `None` shows all levels.
    pub depth: Option<u64>,
    /// Whether types are written in a dim colour.
    pub dim: bool,
    /// What is shown beside each part.
    pub beside: Beside,
}

/// What is shown beside each part of a value, after its place.
#[derive(Clone, Copy, Debug, Drop, PartialEq, Eq)]
pub struct Beside {
    /// Whether its size is.
    pub sizes: bool,
    /// Whether its first bytes in the file are.
    pub bytes: bool,
}
