// What compiling has kept of the statements so far, counted. The tables themselves are lent: see specs/Kept.antt.
#![tactic(auto)]

// No ghost field says that they fit: a struct with one has no Default and no struct update, by which everyone changes a count.
#[derive(Clone, Copy, PartialEq, Eq, Default)]
pub struct Counts {
    pub names: usize,
    pub cells: usize,
    pub constants: usize,
    pub elements: usize,
    pub exits: usize,
    pub dos: usize,
    // words of code, without the DOEs
    pub code: usize,
    pub jumps: usize,
    pub statements: usize,
}

// Words of the tables: seven for a name, nine for an element, four and two for a DO, five for a statement's row.
pub const NAMES_WORDS: usize = 7 * limits::NAMES;

pub const ELEMENT_WORDS: usize = 9 * limits::ELEMENTS;

pub const DO_WORDS: usize = 4 * limits::DOS;

pub const LOOP_WORDS: usize = 2 * limits::DOS;

pub const ROW_WORDS: usize = 5 * limits::STATEMENTS;

// The tables, lent for as long as a deck is compiled; Counts says how much of each is kept.
#[derive(Drop)]
pub struct Tables<'a> {
    pub names: &'a mut [u64; NAMES_WORDS],
    pub constants: &'a mut [u32; limits::CONSTANTS],
    pub elements: &'a mut [u32; ELEMENT_WORDS],
    pub dos: &'a mut [u32; DO_WORDS],
    pub loops: &'a mut [u32; LOOP_WORDS],
    pub code: &'a mut [u32; limits::CODE],
    pub rows: &'a mut [u64; ROW_WORDS],
    pub jumps: &'a mut [u32; limits::JUMPS],
}
