//! Comparisons of what is found with what a row of a table tells. A failure isn't `Drop`, so that no test can lose it.

ghost use Rattle.std.specs.Prelude.{◌≡◌, true, OkIff};

use std::fmt::{Debug, InlineText};
use std::test::Fail;

/// Fails unless the two are equal. Then it shows the row and the two, each cut at 160 bytes.
pub fn same<T: PartialEq + Debug + Drop>(found: T, told: T, row: &str) -> Result<(), Fail>
    ensures { OkIff result (T.eq found told ≡ true) tt }
{
    if found == told {
        return Ok(());
    }
    let found = InlineText::<160>::of(format_args!("{found:?}"));
    let told = InlineText::<160>::of(format_args!("{told:?}"));
    let row = InlineText::<160>::of(row);
    Err(Fail::new(format_args!(
        "{}\n found: {}\n  told: {}",
        row.as_str(),
        found.as_str(),
        told.as_str()
    )))
}

/// Fails unless the two are equal. Then it shows the row, and the two from the first difference on, each cut at 140
/// bytes.
pub fn same_bytes(found: &[u8], told: &[u8], row: &str) -> Result<(), Fail>
    ensures { OkIff result (found.now ≡ told.now) tt }
{
    if found == told {
        return Ok(());
    }
    let at = first_difference(found, told);
    let found = InlineText::<140>::of(found.get(at..).unwrap_or(b"").escape_ascii());
    let told = InlineText::<140>::of(told.get(at..).unwrap_or(b"").escape_ascii());
    let row = InlineText::<140>::of(row);
    Err(Fail::new(format_args!(
        "{}\nfrom byte {at} on\n found: {}\n  told: {}",
        row.as_str(),
        found.as_str(),
        told.as_str()
    )))
}

/// The same of texts.
pub fn same_text(found: &str, told: &str, row: &str) -> Result<(), Fail>
    ensures { OkIff result (found.now ≡ told.now) tt }
{
    same_bytes(found.as_bytes(), told.as_bytes(), row)
}

fn first_difference(found: &[u8], told: &[u8]) -> usize {
    for (at, (one, other)) in found.iter().zip(told).enumerate() {
        if one != other {
            return at;
        }
    }
    found.len().min(told.len())
}

/// Fails unless a condition holds. Then it shows the row.
pub fn holds(condition: bool, row: &str) -> Result<(), Fail>
    ensures { OkIff result (condition ≡ true) tt }
{
    if condition {
        return Ok(());
    }
    Err(Fail::new(row))
}
