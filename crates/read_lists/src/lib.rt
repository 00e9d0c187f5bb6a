// Forms with a list: GOTO(n,..,n),v and DIMENSIONv(c),v(c,c)..
#![tactic(auto)]

ghost use Rattle.std.specs.Prelude.{◌≡◌, [], ◌∷◌, ◌++◌, ◌+◌, ◌*◌, ◌≤◌, length, drop};
ghost use Rattle.rules_text.specs.Tokens.{listed, number};
ghost use Rattle.rules_text.specs.Grammar.{array_shape, read_computed, read_dimension};
ghost use Rattle.read_tokens.specs.Words.{name_words};
ghost use Rattle.read_items.specs.Parsed.{Put};
ghost use Rattle.read_forms.specs.Statements.{Reads};
ghost use Rattle.read_lists.specs.Lists.{ReadsArray, ReadsColumns, ReadsNumbers, ReadsArrays, EndsComputed};

use limits::{FEWEST_EXITS, MOST_EXITS};
use read_forms::{Computed, Dimension, Statement};
use read_tokens::{Name, Read, Sizes};

// Word for word as it stands in the table: one dimension has 0 columns.
#[derive(Clone, Copy, Debug, PartialEq, Eq)]
pub struct Array {
    pub dimensions: u64,
    pub name: Name,
    pub rows: u64,
    pub columns: u64,
}

fn read_array(text: &[u8], from: usize) -> Option<Read<Array>>
    requires { from ≤ length text.now }
    ensures { ReadsArray text.now from (array_shape (drop from text.now)) result }
{
    let name = read_tokens::read_name(text, from)?;
    if read_tokens::byte(text, name.at) != b'(' {
        return None;
    }
    let rows = read_tokens::read_number(text, name.at + 1)?;
    let row = Array {
        dimensions: 1,
        name: name.value,
        rows: rows.value,
        columns: 0,
    };
    read_columns(
        text,
        Read {
            at: rows.at,
            value: row,
            sizes: name.sizes.join(rows.sizes),
        },
    )
}

// What follows an array's rows, columns or none and the closing parenthesis, after an array of one dimension.
fn read_columns(text: &[u8], row: Read<Array>) -> Option<Read<Array>>
    requires within { row.at ≤ length text.now }
    requires one { (row.value.dimensions ≡ 1) × (row.value.columns ≡ 0) }
    ensures { ReadsColumns text.now row.at row.value.name row.value.rows row.sizes result }
{
    if read_tokens::byte(text, row.at) == b')' {
        return Some(Read {
            at: row.at + 1,
            ..row
        });
    }
    let columns = read_forms::read_next(text, row.at)?;
    if read_tokens::byte(text, columns.at) != b')' {
        return None;
    }
    Some(Read {
        at: columns.at + 1,
        value: Array {
            dimensions: 2,
            columns: columns.value,
            ..row.value
        },
        sizes: row.sizes.join(columns.sizes),
    })
}

fn put_array(items: &mut [u64], n: usize, array: Array) -> usize
    requires { n + 7 ≤ length items.old }
    ensures { Put items.old items.new n (array.dimensions ∷ (name_words array.name ++ (array.rows ∷ array.columns ∷ []))) result }
{
    let b = read_items::put_named(items, n, array.dimensions, array.name);
    read_items::put_two(items, b, array.rows, array.columns)
}

// Numbers with commas between them, each a word of the table: how many they are. One function with `read_arrays` would be no plainer:
// numbers have no sizes and one word each, and both rest on one record of what a list keeps.
fn read_numbers(text: &[u8], from: usize, items: &mut [u64]) -> Option<Read<usize>>
    requires { (from ≤ length text.now) × (5 * length text.now ≤ length items.old) }
    ensures { ReadsNumbers text.now items.new from (listed number (drop from text.now)) result }
{
    let mut at = from;
    let mut n = 0;
    loop {
        let number = read_tokens::read_number(text, at)?;
        items[n] = number.value;
        n += 1;
        if read_tokens::byte(text, number.at) != b',' {
            return Some(Read {
                at: number.at,
                value: n,
                sizes: Sizes::default(),
            });
        }
        at = number.at + 1;
    }
}

// Arrays with commas between them, each seven words of the table: how many they are.
fn read_arrays(text: &[u8], from: usize, items: &mut [u64]) -> Option<Read<usize>>
    requires { (from ≤ length text.now) × (5 * length text.now ≤ length items.old) }
    ensures { ReadsArrays text.now items.new from (listed array_shape (drop from text.now)) result }
{
    let mut at = from;
    let mut n = 0;
    let mut count = 0;
    let mut sizes = Sizes::default();
    loop {
        let array = read_array(text, at)?;
        n = put_array(items, n, array.value);
        count += 1;
        sizes = sizes.join(array.sizes);
        if read_tokens::byte(text, array.at) != b',' {
            return Some(Read {
                at: array.at,
                value: count,
                sizes,
            });
        }
        at = array.at + 1;
    }
}

// From the closing parenthesis on: the comma and the name, to the end of the text.
fn read_choice(text: &[u8], from: usize, exits: usize) -> Option<Statement>
    requires { from ≤ length text.now }
    ensures { EndsComputed text.now from exits result }
{
    if read_tokens::byte(text, from) != b')' {
        return None;
    }
    let a = from + 1;
    if read_tokens::byte(text, a) != b',' {
        return None;
    }
    let name = read_tokens::read_name(text, a + 1)?;
    if name.at != text.len() {
        return None;
    }
    if exits < FEWEST_EXITS {
        return None;
    }
    if MOST_EXITS < exits {
        return None;
    }
    Some(Statement::Computed(Computed {
        exits,
        name: name.value,
        sizes: name.sizes,
    }))
}

pub fn read_computed(text: &[u8], items: &mut [u64]) -> Option<Statement>
    requires { 5 * length text.now ≤ length items.old }
    ensures { Reads items.new (read_computed text.now) result }
{
    if !text.starts_with(b"GOTO") {
        return None;
    }
    if read_tokens::byte(text, 4) != b'(' {
        return None;
    }
    let numbers = read_numbers(text, 5, items)?;
    read_choice(text, numbers.at, numbers.value)
}

pub fn read_dimension(text: &[u8], items: &mut [u64]) -> Option<Statement>
    requires { 5 * length text.now ≤ length items.old }
    ensures { Reads items.new (read_dimension text.now) result }
{
    if !text.starts_with(b"DIMENSION") {
        return None;
    }
    let arrays = read_arrays(text, 9, items)?;
    if arrays.at != text.len() {
        return None;
    }
    Some(Statement::Dimension(Dimension {
        arrays: arrays.value,
        sizes: arrays.sizes,
    }))
}
