// 42 of the entries of bodies 8 to 10: words of FORMATs, list items and transfers.
#![tactic(auto)]

ghost use Rattle.std.specs.Prelude.{◌≡◌, ◌+◌, ◌≤◌, ◌<◌, eqb, get_or, drop};
ghost use Rattle.refusals.specs.Answers.{maybe};
ghost use Rattle.rules_shared.specs.Lists.{first_from};
ghost use Rattle.rules_formats.specs.Punched.{right_number};
ghost use Rattle.rules_formats.specs.Words.{word_kind, word_operand, is_end};
ghost use Rattle.rules_object.specs.Check.{character, right_field, format_word, format_start, right_format, right_item, has_number, right_transfer};
ghost use Rattle.rules_object.specs.Operations.{no_transfer, format_right};
ghost use Rattle.object_contents.specs.Layout.{Placed, object_at};
ghost use Rattle.object_contents.specs.Book.{book_of};
ghost use Rattle.check_formats.specs.Formats.{no_item};

use object_contents::{Layout, Object};
use object_words::{load, operand, operation};

// The kinds of a FORMAT's words, which are any numbers until they are judged: no enum.
const NUMBER: u32 = 1;

const SKIP: u32 = 2;

const CHARACTER: u32 = 3;

const SLASH: u32 = 4;

const END: u32 = 5;

const LARGEST_NUMBER: u32 = 99999;

// ---- body 8

// On bytes and places, as are those below but for `whole_right`: docs/TRACE.md names `first_bad`, `item_right` and `transfer_right`, so that they may ask no more than where the bodies stand.
pub fn format_word(o: &[u8], e: &Layout, i: usize) -> u32
    requires { Placed e.now o.now × (i < e.now.format_count) }
    ensures { result ≡ format_word (object_at e.now o.now) i }
{
    load(o, e.formats + 4 * i)
}

#[tactic(auto, unfolding(rules_formats::specs::Words::is_end))]
pub fn is_end(w: u32) -> bool
    ensures { result ≡ is_end w }
{
    operation(w) == END
}

fn number_right(n: u32) -> bool
    ensures { result ≡ right_number n }
{
    1 <= n && n <= LARGEST_NUMBER
}

// Blanks, letters, digits and . ) + $ * - / , ( =
#[tactic(auto, using(std::proofs::lemmas::Bool::Decides::nat_tests), unfolding(rules_object::specs::Check::character))]
fn is_character(c: u32) -> bool
    ensures { result ≡ character c }
{
    matches!(c, 32 | 36 | 40..=57 | 61 | 65..=90)
}

#[tactic(auto, using(std::proofs::lemmas::Bool::Decides::nat_tests), unfolding(rules_object::specs::Check::right_field))]
fn field_right(w: u32) -> bool
    ensures { result ≡ right_field (word_kind w) (word_operand w) }
{
    let n = operand(w);
    match operation(w) {
        NUMBER | SKIP => number_right(n),
        CHARACTER => is_character(n),
        SLASH => n == 0,
        _ => false,
    }
}

// The word at i of a FORMAT that begins at `start`.
pub fn format_right(o: &[u8], e: &Layout, start: usize, i: usize) -> bool
    requires { Placed e.now o.now × (i < e.now.format_count) × (start ≡ format_start (object_at e.now o.now) i) }
    ensures { result ≡ right_format (object_at e.now o.now) i }
{
    let w = format_word(o, e, i);
    if is_end(w) {
        let back = operand(w) as usize;
        start <= back && back < i
    } else {
        field_right(w) && i + 1 < e.format_count
    }
}

// The first word that fails.
pub fn first_bad(o: &[u8], e: &Layout) -> Option<usize>
    requires { Placed e.now o.now }
    ensures { maybe (λ i. i) result ≡ first_from (right_format (object_at e.now o.now)) e.now.format_count 0 }
{
    let mut start = 0;
    for i in 0..e.format_count {
        if !format_right(o, e, start, i) {
            return Some(i);
        }
        if is_end(format_word(o, e, i)) {
            start = i + 1;
        }
    }
    None
}

// Every word of the FORMAT that begins at `first`, its end too.
pub fn whole_right(o: &Object, first: usize) -> bool
    requires { (first < o.now.layout.format_count) × (first ≡ format_start (book_of o.now) first) }
    ensures { result ≡ format_right (book_of o.now) first (drop first (book_of o.now).formats) }
{
    for i in first..o.layout.format_count {
        if !format_right(o.bytes, &o.layout, first, i) {
            return false;
        }
        if is_end(format_word(o.bytes, &o.layout, i)) {
            return true;
        }
    }
    true
}

// ---- body 9

pub fn item_right(o: &[u8], e: &Layout, i: usize) -> bool
    requires { Placed e.now o.now × (i < e.now.item_count) }
    ensures { result ≡ right_item (object_at e.now o.now) (get_or (object_at e.now o.now).items i no_item) }
{
    let b = e.items + 8 * i;
    let first = load(o, b);
    let count = load(o, b + 4);
    if count == 0 {
        (first as usize) < e.element_count
    } else {
        u64::from(first) + u64::from(count) <= u64::from(e.cells)
    }
}

// ---- body 10

// A FORMAT begins at the first word of all, and after each end.
fn begins_format(o: &[u8], e: &Layout, i: usize) -> bool
    requires { Placed e.now o.now × (i < e.now.format_count) }
    ensures { result ≡ eqb (format_start (object_at e.now o.now) i) i }
{
    i == 0 || is_end(format_word(o, e, i - 1))
}

// Whether an I stands before the FORMAT's end, from the word at `from` on.
fn has_number(o: &[u8], e: &Layout, from: usize) -> bool
    requires { Placed e.now o.now × (from ≤ e.now.format_count) }
    ensures { result ≡ has_number (drop from (object_at e.now o.now).formats) }
{
    for i in from..e.format_count {
        let w = format_word(o, e, i);
        if is_end(w) {
            return false;
        }
        if operation(w) == NUMBER {
            return true;
        }
    }
    false
}

pub fn transfer_right(o: &[u8], e: &Layout, i: usize) -> bool
    requires { Placed e.now o.now × (i < e.now.transfer_count) }
    ensures { result ≡ right_transfer (object_at e.now o.now) (get_or (object_at e.now o.now).transfers i no_transfer) }
{
    let b = e.transfers + 12 * i;
    let format = load(o, b) as usize;
    let first = load(o, b + 4) as usize;
    let count = load(o, b + 8) as usize;
    format < e.format_count
        && begins_format(o, e, format)
        && first + count <= e.item_count
        && (count == 0 || has_number(o, e, format))
}
