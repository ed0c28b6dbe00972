//! Lines and columns.

ghost use Rattle.std.specs.Prelude.{◌≡◌, ◌<◌, take};
ghost use Rattle.kube_server_parser.specs.Position as spec;

/// A place in a text as editors count: the first line is 1, the first column is 1, and each code point is a column.
#[derive(Clone, Copy, Debug, PartialEq, Eq)]
pub struct Position {
    pub line: usize,
    pub column: usize,
}

/// Whether the byte continues a code point.
fn continues(byte: u8) -> bool
    ensures { result ≡ spec.continues byte }
{
    128 <= byte && byte < 192
}

/// The first bytes of a text.
fn first(text: &[u8], offset: usize) -> &[u8]
    ensures { result.now ≡ take offset text.now }
{
    if offset < text.len() {
        &text[..offset]
    } else {
        text
    }
}

/// The position behind a byte.
fn advance(position: Position, byte: u8) -> Position
    requires line { position.line < usize.MAX }
    requires column { position.column < usize.MAX }
    ensures line { result.line ≡ spec.line_after position.line byte }
    ensures column { result.column ≡ spec.column_after position.column byte }
{
    let Position { line, column } = position;
    if byte == b'\n' {
        Position {
            line: line + 1,
            column: 1,
        }
    } else if continues(byte) {
        position
    } else {
        Position {
            line,
            column: column + 1,
        }
    }
}

/// Returns where an offset of bytes is in a text.
pub fn line_and_column(text: &str, offset: usize) -> Position
    ensures line { result.line ≡ spec.line_at text.now offset }
    ensures column { result.column ≡ spec.column_at text.now offset }
{
    let mut position = Position { line: 1, column: 1 };
    for byte in first(text.as_bytes(), offset) {
        position = advance(position, *byte);
    }
    position
}
