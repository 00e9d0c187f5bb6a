// PRINT: every line is tried before any is written, so that trouble leaves the paper as it was.
#![tactic(auto)]

ghost use Rattle.std.specs.Prelude.{◌≡◌, true, ◌-◌, ◌≤◌, ◌<◌, length, take};
ghost use Rattle.rules_formats.specs.Format.{I};
ghost use Rattle.rules_formats.specs.Walk.{room_of};
ghost use Rattle.rules_object.specs.Operations.{transfer_right};
ghost use Rattle.object_contents.specs.Book.{book_of};
ghost use Rattle.run_registers.specs.Devices.{paper_of};
ghost use Rattle.run_formats.specs.Scan.{field_of, Scanning};
ghost use Rattle.run_lists.specs.Cursors.{Stored, Reached};
ghost use Rattle.run_lists.specs.Troubles.{Fine, Tried};
ghost use Rattle.run_prints.specs.Puts.{Filled, Does, Puts};
ghost use Rattle.run_prints.specs.Lines.{lines_at, Writes, printed, Prints};

use object_contents::Object;
use object_opcodes::Halt;
use run_formats::{Field, Word};
use run_lists::{Cursor, Start, Step};

const WIDTH: usize = 132;

// The list's next number, across so many columns of a line that is filled to a column.
fn put_number(
    o: &Object,
    store: &[i64],
    c: Cursor,
    line: &mut [u8],
    column: usize,
    width: usize,
) -> Result<Step, Halt>
    requires stored { Stored o.now store.now }
    requires reached { Reached (book_of o.now) c }
    requires filled { Filled line.old column }
    ensures { Does (book_of o.now) store.now c (take column line.old) (I width) line.new result }
{
    let Some((cell, rest)) = run_lists::next_number(o, store, c)? else {
        return Ok(Step::StatementEnds);
    };
    if WIDTH - column < width {
        return Err(Halt::BadField);
    }
    run_fields::print_field(store[cell], &mut line[column..column + width]);
    Ok(Step::On(column + width, rest))
}

// One field.
fn put_field(
    o: &Object,
    store: &[i64],
    c: Cursor,
    line: &mut [u8],
    column: usize,
    f: Field,
) -> Result<Step, Halt>
    requires stored { Stored o.now store.now }
    requires reached { Reached (book_of o.now) c }
    requires filled { Filled line.old column }
    ensures { Does (book_of o.now) store.now c (take column line.old) (field_of f) line.new result }
{
    match f {
        Field::Number(width) => put_number(o, store, c, line, column, width),
        Field::Skip(n) => {
            if WIDTH - column < n {
                return Err(Halt::BadField);
            }
            Ok(Step::On(column + n, c))
        }
        Field::Text(t) => {
            if column == WIDTH {
                return Err(Halt::BadField);
            }
            line[column] = t;
            Ok(Step::On(column + 1, c))
        }
        Field::Slash => Ok(Step::RecordEnds),
    }
}

// One line; answers where the next begins, unless the line is the last.
fn put_line(o: &Object, store: &[i64], line: &mut [u8], start: Start) -> Result<Option<Start>, Halt>
    requires stored { Stored o.now store.now }
    requires reached { Reached (book_of o.now) start.list }
    requires scanning { Scanning (book_of o.now).formats start.word }
    requires line_len { length line.old ≡ 132 }
    ensures { Puts (book_of o.now) store.now start line.new result }
{
    line.fill(b' ');
    let mut at = start;
    let mut column = 0;
    loop {
        match run_formats::word_at(o, at.word) {
            Word::End(again) => {
                if run_lists::any_left(at.list) {
                    return Ok(Some(Start { word: again, ..at }));
                }
                return Ok(None);
            }
            Word::Of(f) => match put_field(o, store, at.list, line, column, f)? {
                Step::RecordEnds => {
                    return Ok(Some(Start {
                        word: at.word + 1,
                        ..at
                    }));
                }
                Step::StatementEnds => return Ok(None),
                Step::On(next, list) => {
                    column = next;
                    at = Start {
                        word: at.word + 1,
                        list,
                    };
                }
            },
        }
    }
}

// Whether the lines come to a halt. The line that is lent is written over.
fn try_lines(
    o: &Object,
    store: &[i64],
    line: &mut [u8],
    start: Start,
    room: usize,
) -> Result<(), Halt>
    requires stored { Stored o.now store.now }
    requires reached { Reached (book_of o.now) start.list }
    requires scanning { Scanning (book_of o.now).formats start.word }
    requires line_len { length line.old ≡ 132 }
    ensures { Tried (lines_at (book_of o.now) store.now room start) result }
{
    let mut at = start;
    for _ in 0..room {
        let Some(next) = put_line(o, store, line, at)? else {
            return Ok(());
        };
        at = next;
    }
    put_line(o, store, line, at)?;
    Err(Halt::RanOut)
}

// Lines that were tried, written below those that are there already; answers how many there are then.
fn put_lines(
    o: &Object,
    store: &[i64],
    lines: &mut [u8],
    written: usize,
    start: Start,
) -> Result<usize, Halt>
    requires stored { Stored o.now store.now }
    requires reached { Reached (book_of o.now) start.list }
    requires scanning { Scanning (book_of o.now).formats start.word }
    requires written_bound { written ≤ room_of lines.old }
    requires tried { Fine (lines_at (book_of o.now) store.now (room_of lines.old - written) start) }
    ensures { Writes (lines_at (book_of o.now) store.now (room_of lines.old - written) start) lines.old lines.new written result }
{
    let mut at = start;
    let mut n = written;
    loop {
        let next = put_line(o, store, &mut lines[WIDTH * n..WIDTH * n + WIDTH], at)?;
        n += 1;
        let Some(rest) = next else {
            return Ok(n);
        };
        at = rest;
    }
}

// PRINT by the transfer x, on paper of which the first lines are written; answers how many there are then.
pub fn print(
    o: &Object,
    x: usize,
    store: &[i64],
    lines: &mut [u8],
    written: usize,
) -> Result<usize, Halt>
    requires stored { Stored o.now store.now }
    requires x_bound { x < o.now.layout.transfer_count }
    requires x_value { transfer_right (book_of o.now) x ≡ true }
    requires written_bound { written ≤ room_of lines.old }
    ensures { Prints lines.old written (printed (book_of o.now) x store.now (paper_of written lines.old)) lines.new result }
{
    let start = run_lists::start_of(o, x);
    let mut scratch = [b' '; WIDTH];
    try_lines(o, store, &mut scratch, start, lines.len() / WIDTH - written)?;
    put_lines(o, store, lines, written, start)
}
