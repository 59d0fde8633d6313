// 01, Rows: rows of 38 bytes, a tag in 4 columns, numbers a, b, c in 11 columns each, then byte 10. Reading at a place, writing.
#![tactic(auto)]

ghost use Rattle.std.specs.Prelude.{◌≡◌, ◌≤◌, length};
ghost use Rattle.lists.specs.Over.{over};
ghost use Rattle.row.specs.Row.{row_bytes, width, greatest, row_length};
ghost use Rattle.row.specs.Reading.{found_at, line_at, read_at};

// The last byte of a row.
const NEWLINE: u8 = 10;

#[derive(Clone, Copy)]
pub struct Row {
    pub tag: u64,
    pub a: u64,
    pub b: u64,
    pub c: u64,
}

// Where reading goes on, in bytes.
#[derive(Clone, Copy)]
pub struct Place {
    pub at: usize,
}

// What a read finds, three outcomes that every caller tells apart: a row and the place after it, bytes that are no row (a torn one among them), or the end.
#[derive(Clone, Copy)]
pub enum Read {
    Next(Row, Place),
    Malformed,
    End,
}

// What a line is to a reader, and where it goes on.
fn found(line: Option<Row>, next: usize) -> Read
    ensures { result ≡ found_at next line }
{
    match line {
        Some(row) => Read::Next(row, Place { at: next }),
        None => Read::Malformed,
    }
}

impl Row {
    // The largest number in a column.
    pub const GREATEST: u64 = 2147483647;

    // The columns of a number, where those of a, b and c start, where the last byte stands, and the length.
    pub const WIDTH: usize = 11;

    pub const A: usize = 4;

    pub const B: usize = Row::A + Row::WIDTH;

    pub const C: usize = Row::B + Row::WIDTH;

    pub const LAST: usize = Row::C + Row::WIDTH;

    pub const LENGTH: usize = Row::LAST + 1;

    // The row in bytes of its length, if each number is in the form and the last byte is.
    pub fn read(bytes: &[u8]) -> Option<Row>
        requires { length bytes.now ≡ row_length width }
        ensures { result ≡ line_at greatest width bytes.now }
    {
        let tag = number::read_number(Row::GREATEST, &bytes[0..Row::A])?;
        let a = number::read_number(Row::GREATEST, &bytes[Row::A..Row::B])?;
        let b = number::read_number(Row::GREATEST, &bytes[Row::B..Row::C])?;
        let c = number::read_number(Row::GREATEST, &bytes[Row::C..Row::LAST])?;
        if bytes[Row::LAST] != NEWLINE {
            return None;
        }
        Some(Row { tag, a, b, c })
    }

    // Writes the row into the first bytes of out.
    pub fn write(self, out: &mut [u8])
        requires { row_length width ≤ length out.old }
        ensures { out.new ≡ over (row_bytes width self) out.old }
    {
        number::write_number(out, Row::A, self.tag);
        number::write_number(&mut out[Row::A..], Row::WIDTH, self.a);
        number::write_number(&mut out[Row::B..], Row::WIDTH, self.b);
        number::write_number(&mut out[Row::C..], Row::WIDTH, self.c);
        out[Row::LAST] = NEWLINE;
    }
}

impl Place {
    // The place of the first row.
    pub fn start() -> Self
        ensures { result.at ≡ 0 }
    {
        Self { at: 0 }
    }

    // 01: "The reading place moves on by one row at each read."
    pub fn read(self, bytes: &[u8]) -> Read
        ensures { result ≡ read_at greatest width bytes.now self.at }
    {
        let at = self.at;
        if bytes.len() <= at {
            return Read::End;
        }
        if bytes.len() - at < Row::LENGTH {
            return Read::Malformed;
        }
        let next = at + Row::LENGTH;
        found(Row::read(&bytes[at..next]), next)
    }
}
