// The table of names, seven words an entry: a name's four, its first cell, rows and columns. Lookups, and an entry written.
#![tactic(auto)]

mod counted;
mod listed;

ghost use Rattle.std.specs.Prelude.{[], ◌∷◌, ◌++◌, ◌≡◌, ◌+◌, ◌*◌, ◌≤◌, ◌<◌, length, drop};
ghost use Rattle.read_tokens.specs.Words.{name_words};
ghost use Rattle.read_items.specs.Parsed.{Put};
ghost use Rattle.take_name_table.specs.Find.{is_entry, Finds, item_length};
ghost use Rattle.take_name_table.specs.Lookups.{Holds, CellOf, ArrayOf};

pub use counted::Extent;
use limits::CELLS;
pub use listed::Names;
use read_items::{ELEMENT_ITEM, NAME_ITEM};
use read_tokens::{NAME_WORDS, Name};

pub const ENTRY_WORDS: usize = NAME_WORDS + 3;

// Where an element's item has how many subscripts there are, and each of the two.
pub const COUNT_AT: usize = NAME_ITEM;

pub const FIRST_AT: usize = COUNT_AT + 1;

pub const SECOND_AT: usize = FIRST_AT + NAME_WORDS + 3;

// Where an entry has its first cell, its rows and its columns.
pub const FIRST: usize = NAME_WORDS;

pub const ROWS: usize = NAME_WORDS + 1;

pub const COLUMNS: usize = NAME_WORDS + 2;

// An array's first cell and dimensions; 0 columns for one dimension.
#[derive(Clone, Copy, Default)]
pub struct Entry {
    pub first: u32,
    pub rows: u32,
    pub columns: u32,
}

impl Names<'_> {
    // Rows tell an array from a plain name.
    fn is_entry(&self, i: usize, name: Name, arrays: bool) -> bool
        requires { i < self.now.count }
        ensures { result ≡ is_entry arrays name (drop (7 * i) self.now.words.now) }
    {
        let at = ENTRY_WORDS * i;
        // Most entries differ in their first word, and a test of all four takes longer.
        self.words[at] == name.0
            && read_tokens::name_at(self.words, at) == name
            && (1 <= self.words[at + ROWS]) == arrays
    }

    // The index of the first entry of the name as an array, or as a plain name.
    pub fn find(&self, name: Name, arrays: bool) -> Option<usize>
        ensures { Finds self.now.words.now self.now.count name arrays result }
    {
        for i in 0..self.count {
            if self.is_entry(i, name, arrays) {
                return Some(i);
            }
        }
        None
    }

    pub fn holds(&self, name: Name, arrays: bool) -> bool
        ensures { Holds self.now.words.now self.now.count name arrays result }
    {
        self.find(name, arrays).is_some()
    }

    // The cell of a plain name that the table holds; 0 if it does not, since an Option would be one more way out for callers that know it is there.
    pub fn cell_of(&self, name: Name) -> u32
        ensures { CellOf self.now.words.now self.now.count name result }
    {
        let Some(i) = self.find(name, false) else {
            return 0;
        };
        self.words[ENTRY_WORDS * i + FIRST].min(CELLS as u64 - 1) as u32
    }

    // The array of a reference that passes 16.
    pub fn array_of(&self, name: Name) -> Entry
        ensures { ArrayOf self.now.words.now self.now.count name result }
    {
        let Some(i) = self.find(name, true) else {
            return Entry::default();
        };
        let at = ENTRY_WORDS * i;
        let first = self.words[at + FIRST].min(CELLS as u64) as u32;
        let rows = self.words[at + ROWS].min(CELLS as u64) as u32;
        let columns = self.words[at + COLUMNS].min(CELLS as u64) as u32;
        Entry {
            first,
            rows,
            columns,
        }
    }
}

// How many words an item has, by its first.
pub fn item_length(kind: u64) -> usize
    ensures { result ≡ item_length kind }
{
    match kind {
        4 => ELEMENT_ITEM,
        2 => NAME_ITEM,
        1 => 2,
        _ => 1,
    }
}

// Writes the entry at index n, which is a place and no count of what stands in the table.
pub fn put_entry(table: &mut [u64], n: usize, name: Name, first: u64, rows: u64, columns: u64)
    requires { 7 * n + 7 ≤ length table.old }
    ensures { Put table.old table.new (7 * n) (name_words name ++ (first ∷ rows ∷ columns ∷ [])) (7 * n + 7) }
{
    let a = read_items::put_name(table, ENTRY_WORDS * n, name);
    let b = read_items::put_two(table, a, first, rows);
    table[b] = columns;
}
