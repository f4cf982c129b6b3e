//! Lines and columns of a pickle.

ghost use Rattle.std.specs.Prelude.{◌≡◌, ◌+◌, ◌≤◌, ◌<◌, ◌^◌, length};
ghost use Rattle.pickle_source.specs.Places.{line_behind, column_behind, next_column};

/// A place in a pickle: its line, and its column in bytes, both counted from 1.
#[derive(Clone, Copy, Debug, Drop, PartialEq, Eq)]
pub struct LineColumn {
    pub line: usize,
    pub column: usize,
}

/// The place after some bytes. A line feed ends a line.
pub fn place_behind(before: &[u8]) -> LineColumn
    ensures line { result.line ≡ line_behind before.now }
    ensures column { result.column ≡ column_behind before.now }
{
    LineColumn {
        line: 1 + line_feeds(before),
        column: column_behind(before),
    }
}

fn line_feeds(before: &[u8]) -> usize
    ensures value { 1 + result ≡ line_behind before.now }
    ensures few { result ≤ length before.now }
{
    before.iter().filter(|byte| **byte == b'\n').count()
}

fn column_behind(before: &[u8]) -> usize
    ensures value { result ≡ column_behind before.now }
{
    let mut column = 1;
    for byte in before {
        column = next_column(column, *byte);
    }
    column
}

fn next_column(column: usize, byte: u8) -> usize
    requires { column < 2 ^ 63 }
    ensures value { result ≡ next_column column byte }
    ensures few { result ≤ column + 1 }
{
    if byte == b'\n' { 1 } else { column + 1 }
}
