// Rules 41 and 42 on an object's bytes.
#![tactic(auto)]

ghost use Rattle.std.specs.Prelude.{◌≡◌, Bool, List, ℕ, ◌+◌, ◌≤◌, ◌<◌, ltb, length, get_or, take, pos};
ghost use Rattle.number.specs.Number as number;
ghost use Rattle.number.specs.Code.{ruled};
ghost use Rattle.refusals.specs.Answers.{maybe};
ghost use Rattle.rules_object.specs.Bytes.{signed_of};
ghost use Rattle.rules_object.specs.Check.{counts_within, right41, right_constant, right_element, right_loop, right_line};
ghost use Rattle.rules_object.specs.Operations.{no_element, no_loop};
ghost use Rattle.rules_shared.specs.Lists.{first_from};
ghost use Rattle.rules_shared.specs.Refusals.{at_entry};
ghost use Rattle.rules_object.specs.Calls.{refused42};
ghost use Rattle.object_words.specs.Word.{word_at};
ghost use Rattle.object_bodies.specs.Edition.{every_kind, most_kinds};
ghost use Rattle.object_contents.specs.Layout.{Placed, object_at};
ghost use Rattle.object_contents.specs.Book.{book_of};
ghost use Rattle.check_entries.specs.Judge.{no_line, subscript_at, refusal_at};

use check_formats::{item_right, transfer_right};
use check_names::named_right;
use limits::DIGITS;
use object_bodies::MOST_KINDS;
use object_contents::{Layout, Object};
use object_words::load;

// The kind of the table, and the entry in it.
#[derive(Clone, Copy, PartialEq, Eq, Debug)]
pub struct Entry {
    pub kind: u32,
    pub index: usize,
}

const CELLS: u32 = limits::CELLS as u32;

// ---- 41

// No body of an edition with so many kinds has more entries than its kind may have.
fn tables_right(kinds: usize, counts: [usize; MOST_KINDS]) -> bool
    requires { kinds ≤ most_kinds }
    ensures { result ≡ counts_within (take kinds every_kind) counts }
{
    for kind in 0..kinds {
        if object_bodies::most_entries(kind) < counts[kind] {
            return false;
        }
    }
    true
}

pub fn limits_right(e: Layout) -> bool
    ensures { (s : List ℕ) → result ≡ right41 (object_at e s) }
{
    let counts = [
        e.constant_count,
        e.element_count,
        e.exit_count,
        e.do_count,
        e.code_count,
        e.line_count,
        e.name_count,
        e.format_count,
        e.item_count,
        e.transfer_count,
    ];
    1 <= e.digits
        && e.digits <= DIGITS
        && e.cells <= CELLS
        && tables_right(object_bodies::kinds_of(e.edition), counts)
}

// ---- 42

fn in_cells(o: &[u8], at: usize, cells: u32) -> bool
    requires { at + 4 ≤ length o.now }
    ensures { result ≡ ltb (word_at o.now at) cells }
{
    load(o, at) < cells
}

pub fn in_code(o: &[u8], at: usize, n: usize) -> bool
    requires { at + 4 ≤ length o.now }
    ensures { result ≡ ltb (word_at o.now at) n }
{
    (load(o, at) as usize) < n
}

fn fits(o: &Object, at: usize) -> bool
    requires { at + 4 ≤ length o.now.bytes.now }
    ensures { result ≡ number.fits (ruled o.now.rule) (pos (word_at o.now.bytes.now at)) }
{
    o.rule.below(u64::from(load(o.bytes, at)))
}

#[tactic(auto, using(crate::proofs::Says::signed_cast))]
fn signed_fits(o: &Object, at: usize) -> bool
    requires { at + 4 ≤ length o.now.bytes.now }
    ensures { result ≡ number.fits (ruled o.now.rule) (signed_of (word_at o.now.bytes.now at)) }
{
    let z = i64::from(load(o.bytes, at).cast_signed());
    o.rule.fits(z)
}

pub fn constant_right(o: &Object, i: usize) -> bool
    requires { i < o.now.layout.constant_count }
    ensures { result ≡ right_constant (book_of o.now) (get_or (book_of o.now).constants i 0) }
{
    fits(o, o.layout.constants + 4 * i)
}

// Multiplier, cell and addend.
#[tactic(auto, using(std::proofs::lemmas::Bool::Decides::nat_tests), unfolding(crate::specs::Judge::subscript_at))]
fn subscript_right(o: &Object, b: usize) -> bool
    requires { b + 12 ≤ length o.now.bytes.now }
    ensures { result ≡ subscript_at o.now.bytes.now b o.now.layout.cells (ruled o.now.rule) }
{
    fits(o, b) && signed_fits(o, b + 8) && in_cells(o.bytes, b + 4, o.layout.cells)
}

pub fn element_right(o: &Object, i: usize) -> bool
    requires { i < o.now.layout.element_count }
    ensures { result ≡ right_element (book_of o.now) (get_or (book_of o.now).elements i no_element) }
{
    let b = o.layout.elements + 36 * i;
    let rows = load(o.bytes, b + 4);
    let columns = load(o.bytes, b + 8);
    1 <= rows
        && 1 <= columns
        && check_names::inside(load(o.bytes, b), rows, columns, o.layout.cells)
        && subscript_right(o, b + 12)
        && subscript_right(o, b + 24)
}

// On bytes and places, as `line_right`: docs/TRACE.md names them, so that they may ask no more than where the bodies stand.
pub fn loop_right(o: &[u8], e: &Layout, i: usize) -> bool
    requires { Placed e.now o.now × (i < e.now.do_count) }
    ensures { result ≡ right_loop (object_at e.now o.now) (get_or (object_at e.now o.now).dos i no_loop) }
{
    let b = e.dos + 16 * i;
    in_cells(o, b, e.cells)
        && in_cells(o, b + 4, e.cells)
        && in_cells(o, b + 8, e.cells)
        && in_code(o, b + 12, e.code_count)
}

pub fn line_right(o: &[u8], e: &Layout, i: usize) -> bool
    requires { Placed e.now o.now × (i < e.now.line_count) }
    ensures { result ≡ right_line (object_at e.now o.now) (get_or (object_at e.now o.now).lines i no_line) }
{
    in_code(o, e.lines + 12 * i + 8, e.code_count)
}

// The first of the `n` entries of a kind that is not right.
pub fn first_bad<F: Fn(usize) -> bool>(kind: u32, n: usize, right: F) -> Option<Entry>
    requires { (i : ℕ) → i < n → F.pre right i }
    ensures { (number : ℕ) (test : ℕ → Bool) → ((i : ℕ) (b : Bool) → i < n → F.post right i b → b ≡ test i) → maybe (refusal_at number) result ≡ at_entry number kind (first_from test n 0) }
{
    for index in 0..n {
        if !right(index) {
            return Some(Entry { kind, index });
        }
    }
    None
}

// The lowest kind first. Exits and code are judged by 43.
pub fn entries(o: &Object) -> Option<Entry>
    ensures { maybe (refusal_at 42) result ≡ refused42 (book_of o.now) }
{
    let e = o.layout;
    let constants = first_bad(1, e.constant_count, |i| constant_right(o, i));
    let elements = first_bad(2, e.element_count, |i| element_right(o, i));
    let dos = first_bad(4, e.do_count, |i| loop_right(o.bytes, &o.layout, i));
    let lines = first_bad(6, e.line_count, |i| line_right(o.bytes, &o.layout, i));
    let names = first_bad(7, e.name_count, |i| named_right(o.bytes, &o.layout, i));
    let formats = check_formats::first_bad(o.bytes, &o.layout).map(|index| Entry {
        kind: 8,
        index,
    });
    let items = first_bad(9, e.item_count, |i| item_right(o.bytes, &o.layout, i));
    let transfers = first_bad(
        10,
        e.transfer_count,
        |i| transfer_right(o.bytes, &o.layout, i),
    );
    constants
        .or(elements)
        .or(dos)
        .or(lines)
        .or(names)
        .or(formats)
        .or(items)
        .or(transfers)
}
