// The lines that the program prints, written into a lent output from a place on. Each function answers the place after what it wrote.
#![tactic(auto)]

ghost use Rattle.std.specs.Prelude.{◌≡◌, ◌+◌, ◌*◌, ◌≤◌, length};
ghost use Rattle.rules_object.specs.Check.{span};
ghost use Rattle.rules_text.specs.Cards.{without_blanks};
ghost use Rattle.rules_program.specs.Text.{halt_line, refused_line, value_line, value_lines, name_lines};
ghost use Rattle.rules_program.specs.Tidy.{values};
ghost use Rattle.object_contents.specs.Layout.{named_at, object_at};
ghost use Rattle.print_numbers.specs.Puts.{Room, Puts};
ghost use Rattle.print_lines.specs.Entries.{named_in, Reads, Inside, AllInside};

use object_contents::Layout;
use object_words::load;

pub fn put_halt(out: &mut [u8], at: usize, halt: u32, steps: u32, sequence: u32) -> usize
    requires { Room (halt_line halt steps sequence) at out.old }
    ensures { Puts (halt_line halt steps sequence) at out.old out.new result }
{
    let a = print_numbers::put_stated(out, at, b"HALT ", u64::from(halt));
    let b = print_numbers::put_stated(out, a, b" STEPS ", u64::from(steps));
    let c = print_numbers::put_stated(out, b, b" DROP ", u64::from(sequence));
    print_numbers::put_words(out, c, b"\n")
}

pub fn put_refused(out: &mut [u8], at: usize, number: u32, place: u32) -> usize
    requires { Room (refused_line number place) at out.old }
    ensures { Puts (refused_line number place) at out.old out.new result }
{
    let a = print_numbers::put_stated(out, at, b"REFUSED ", u64::from(number));
    let b = print_numbers::put_stated(out, a, b" ", u64::from(place));
    print_numbers::put_words(out, b, b"\n")
}

// ---- names with values

// A name of body 7: its eight bytes, its first cell, its rows and columns.
#[derive(Clone, Copy)]
pub struct Entry<'a> {
    pub text: &'a [u8],
    pub first: usize,
    pub rows: usize,
    pub columns: usize,
}

fn name_at<'a>(object: &'a [u8], b: usize) -> Entry<'a>
    requires { b + 20 ≤ length object.now }
    ensures { named_in result ≡ named_at object.now b }
{
    Entry {
        text: &object[b..b + 8],
        first: load(object, b + 8) as usize,
        rows: load(object, b + 12) as usize,
        columns: load(object, b + 16) as usize,
    }
}

// A name's bytes, blanks gone.
fn put_name(out: &mut [u8], at: usize, text: &[u8]) -> usize
    requires { Room (without_blanks text.now) at out.old }
    ensures { Puts (without_blanks text.now) at out.old out.new result }
{
    let mut n = at;
    for c in text {
        if *c != b' ' {
            out[n] = *c;
            n += 1;
        }
    }
    n
}

// A line has at most 41 bytes: the name 8, the subscripts 11, the value 20, a blank and the line's end.
fn put_value(out: &mut [u8], at: usize, e: &Entry, store: &[i64], i: usize) -> usize
    requires { Reads e.now i store.now × (at + 41 ≤ length out.old) }
    ensures { Puts (value_line (named_in e.now) store.now i) at out.old out.new result × (result ≤ at + 41) }
{
    let v = store[e.first + i];
    let a = put_name(out, at, e.text);
    let b = print_numbers::put_subscripts(out, a, e.rows, e.columns, i);
    let c = print_numbers::put_words(out, b, b" ");
    let d = print_numbers::put_signed(out, c, v);
    print_numbers::put_words(out, d, b"\n")
}

// How many cells: one for a plain name.
fn size(rows: usize, columns: usize) -> usize
    requires { span rows columns ≤ 4096 }
    ensures { result ≡ span rows columns }
{
    match (rows, columns) {
        (0, _) => 1,
        (_, 0) => rows,
        _ => rows * columns,
    }
}

fn put_values(out: &mut [u8], at: usize, e: &Entry, store: &[i64]) -> usize
    requires { Inside e.now store.now × (at + 41 * span e.now.rows e.now.columns ≤ length out.old) }
    ensures { Puts (value_lines (named_in e.now) store.now (span e.now.rows e.now.columns) 0) at out.old out.new result × (result ≤ at + 41 * span e.now.rows e.now.columns) }
{
    let mut n = at;
    for i in 0..size(e.rows, e.columns) {
        n = put_value(out, n, e, store, i);
    }
    n
}

// The names of body 7, each with all its values. No rule is needed, so that this takes the bytes with their layout.
pub fn put_names(out: &mut [u8], at: usize, object: &[u8], e: Layout, store: &[i64]) -> usize
    requires { AllInside e object.now store.now × (at + 41 * values (object_at e object.now).names ≤ length out.old) }
    ensures { Puts (name_lines (object_at e object.now).names store.now) at out.old out.new result × (result ≤ at + 41 * values (object_at e object.now).names) }
{
    let mut n = at;
    for i in 0..e.name_count {
        n = put_values(out, n, &name_at(object, e.names + 20 * i), store);
    }
    n
}
