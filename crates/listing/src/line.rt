// One line, built from the left. Each function adds a text that the line has room for.
ghost use Rattle.std.specs.Prelude.{◌≡◌, ◌∷◌, ◌++◌, ◌+◌, ◌≤◌, length};
ghost use Rattle.refusal.specs.Table.{placed};
ghost use Rattle.cases.specs.Digits.{decimal};
ghost use Rattle.listing.specs.Texts.{answered, column_of, printed};

use cases::{Buffer, decimal_of};

pub(crate) type Line = Buffer<16>;

// What stands in a column: nothing, printed as a dash; a number; or an answer, a number with its place.
#[derive(Clone, Copy)]
pub(crate) enum Column {
    Nothing,
    Number(u8),
    Answer(u8, u16),
}

fn put_number(line: &mut Line, n: u16)
    requires { length line.old + length (decimal n) ≤ 16 }
    ensures { line.new ≡ line.old ++ decimal n }
{
    line.push(decimal_of(n).as_slice());
}

// Has the number a place?
fn has_place(n: u8) -> bool
    ensures { result ≡ placed n }
{
    matches!(n, 1 | 2)
}

// The number, and with 1 and 2 a colon and the place.
fn put_answer(line: &mut Line, n: u8, place: u16)
    requires { length line.old + length (answered n place) ≤ 16 }
    ensures { line.new ≡ line.old ++ answered n place }
{
    put_number(line, n as u16);
    if has_place(n) {
        line.push(b":");
        put_number(line, place);
    }
}

// A space, and what stands in the column.
fn put_column(line: &mut Line, column: Column)
    requires { length line.old + 1 + length (column_of column) ≤ 16 }
    ensures { line.new ≡ line.old ++ (32 ∷ column_of column) }
{
    line.push(b" ");
    match column {
        Column::Nothing => line.push(b"-"),
        Column::Number(n) => put_number(line, n as u16),
        Column::Answer(n, place) => put_answer(line, n, place),
    }
}

// A message's number and three columns, and the end of the line.
pub(crate) fn line_of(number: u8, kind: Column, log: Column, hello: Column) -> Line
    requires { length (column_of kind) + length (column_of log) + length (column_of hello) ≤ 9 }
    ensures value { result ≡ printed number kind log hello }
    ensures short { length result ≤ 16 }
{
    let mut line = Buffer::empty();
    put_number(&mut line, number as u16);
    put_column(&mut line, kind);
    put_column(&mut line, log);
    put_column(&mut line, hello);
    line.push(b"\n");
    line
}
