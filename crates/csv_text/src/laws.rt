//! The laws of records and of their cells. These functions do nothing: the contract of each is a law.

ghost use Rattle.csv_text.specs.CellLaws.{CellsHoldValues};
ghost use Rattle.csv_text.specs.TextLaws.{HasSize, HasCharacter, EscapesReadBack, EscapesDiffer, RecordsReadBack};

/// The size of the character at the start of a text is that of its bytes in UTF-8. Where there is a size, there is such a
/// character.
pub fn characters_are_utf8()
    ensures size { HasSize }
    ensures only { HasCharacter }
{}

/// A text with its escapes reads as the bytes that it is of, and is of no other bytes.
pub fn escapes_read_back()
    ensures back { EscapesReadBack }
    ensures differ { EscapesDiffer }
{}

/// The cell of a value reads as what it holds: a number, a text with its escapes, or JSON.
pub fn cells_hold_values()
    ensures law { CellsHoldValues }
{}

/// A record reads as its cells, whatever follows it.
pub fn records_read_back()
    ensures law { RecordsReadBack }
{}
