// A DIMENSION's arrays, seven words each: dimensions, name, rows and columns. 15, and the cells that they take.
#![tactic(auto)]

ghost use Rattle.std.specs.Prelude.{◌≡◌, ◌+◌, ◌*◌, ◌%◌, ◌≤◌, length};
ghost use Rattle.take_arrays.specs.One.{EndsInF, is_named, some_words, IsNew, RightArray, TakesArray};
ghost use Rattle.take_arrays.specs.Arrays.{Dimensions, Declares};

use limits::NAMES;
use read_tokens::{NAME_WORDS, Name, name_at};
use take_draft::NAMES_WORDS;
use take_name_table::{Extent, Names};

pub const ARRAY_WORDS: usize = NAME_WORDS + 3;

// Where an array has its rows and its columns.
const ROWS: usize = NAME_WORDS + 1;

const COLUMNS: usize = NAME_WORDS + 2;

const CELLS: u64 = limits::CELLS as u64;

// ---- 15

// The last byte before the blanks.
fn ends_in_f(name: Name) -> bool
    ensures { EndsInF name result }
{
    let mut word = name.0;
    while word % 256 == 32 {
        word /= 256;
    }
    word % 256 == 70
}

// Whether one of the first n arrays has this name. A slice of them would have n by a division.
fn named(arrays: &[u64], n: usize, name: Name) -> bool
    requires { 7 * n ≤ length arrays.now }
    ensures { result ≡ is_named name n arrays.now }
{
    for i in 0..n {
        if name_at(arrays, ARRAY_WORDS * i + 1) == name {
            return true;
        }
    }
    false
}

// Rows, and columns where there are two dimensions.
fn some_cells(dimensions: u64, rows: u64, columns: u64) -> bool
    ensures { result ≡ some_words dimensions rows columns }
{
    1 <= rows && (dimensions == 1 || 1 <= columns)
}

fn is_new(arrays: &[u64], i: usize, names: &Names, name: Name) -> bool
    requires { 7 * i ≤ length arrays.now }
    ensures { IsNew arrays.now i names.now.words.now names.now.count name result }
{
    !names.holds(name, false) && !names.holds(name, true) && !named(arrays, i, name)
}

// Of the array at index i.
fn right_array(arrays: &[u64], i: usize, names: &Names) -> bool
    requires { 7 * i + 7 ≤ length arrays.now }
    ensures { RightArray arrays.now i names.now.words.now names.now.count result }
{
    let at = ARRAY_WORDS * i;
    let name = name_at(arrays, at + 1);
    some_cells(arrays[at], arrays[at + ROWS], arrays[at + COLUMNS])
        && is_new(arrays, i, names, name)
        && !ends_in_f(name)
}

// 15: no dimension is 0, and no array's name is seen before it or ends in F.
pub fn arrays_right(arrays: &[u64], names: &Names) -> bool
    requires { length arrays.now % 7 ≡ 0 }
    ensures { Dimensions arrays.now names.now.words.now names.now.count result }
{
    for i in 0..arrays.len() / ARRAY_WORDS {
        if !right_array(arrays, i, names) {
            return false;
        }
    }
    true
}

// ---- cells

fn take_array(
    table: &mut [u64; NAMES_WORDS],
    n: Extent,
    name: Name,
    rows: u64,
    columns: u64,
) -> Option<Extent>
    ensures { TakesArray table.old table.new n name rows columns result }
{
    if CELLS < rows || CELLS < columns || n.names == NAMES {
        return None;
    }
    let taken = n.cells as u64 + rows * columns.max(1);
    if CELLS < taken {
        return None;
    }
    take_name_table::put_entry(table, n.names, name, n.cells as u64, rows, columns);
    Some(Extent {
        names: n.names + 1,
        cells: taken as usize,
    })
}

// The arrays of a DIMENSION that passes 15, each taking its cells.
pub fn declare(arrays: &[u64], table: &mut [u64; NAMES_WORDS], n: Extent) -> Option<Extent>
    requires { length arrays.now % 7 ≡ 0 }
    ensures { Declares arrays.now table.old table.new n result }
{
    let mut m = n;
    for i in 0..arrays.len() / ARRAY_WORDS {
        let at = ARRAY_WORDS * i;
        let name = name_at(arrays, at + 1);
        m = take_array(table, m, name, arrays[at + ROWS], arrays[at + COLUMNS])?;
    }
    Some(m)
}
