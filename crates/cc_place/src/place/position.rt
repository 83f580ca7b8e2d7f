//! The line and the column of a place in a text.
ghost use Rattle.std.specs.Prelude.{◌≡◌, ◌+◌, ◌<◌, ◌^◌, take, if◌then◌else◌};
ghost use Rattle.cc_place.specs.Position.{begins_character, column_after, is_line_feed, line_after};

/// The line and the column of the byte at a place, both from 1: a line ends with a line feed, and a column is a character.
pub fn line_and_column(text: &[u8], place: usize) -> (usize, usize)
    ensures line { result.0 ≡ line_after (take place text.now) }
    ensures column { result.1 ≡ column_after (take place text.now) }
{
    if place < text.len() {
        after(&text[..place])
    } else {
        after(text)
    }
}

/// The line and the column after a text.
fn after(front: &[u8]) -> (usize, usize)
    ensures line { result.0 ≡ line_after front.now }
    ensures column { result.1 ≡ column_after front.now }
{
    let (mut line, mut column) = (1usize, 1usize);
    for byte in front {
        line = next_line(line, *byte);
        column = next_column(column, *byte);
    }
    (line, column)
}

/// The line after one byte more.
fn next_line(line: usize, byte: u8) -> usize
    requires { line + 1 < 2 ^ 64 }
    ensures { result ≡ line + (if is_line_feed byte then 1 else 0) }
{
    if byte == b'\n' { line + 1 } else { line }
}

/// The column after one byte more.
fn next_column(column: usize, byte: u8) -> usize
    requires { column + 1 < 2 ^ 64 }
    ensures { result ≡ (if is_line_feed byte then 1 else column + (if begins_character byte then 1 else 0)) }
{
    if byte == b'\n' {
        1
    } else if byte < 0x80 || byte >= 0xc0 {
        column + 1
    } else {
        column
    }
}
