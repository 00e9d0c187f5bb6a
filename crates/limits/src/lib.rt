// 01's and 02's limits by name, for tables and comparisons in code. The book's are in `rules_shared`, in `Limits.antt` and `House.antt`.
#![tactic(auto)]

// ---- of a deck's text

pub const CARDS: usize = 512;

pub const STATEMENTS: usize = 400;

pub const FEWEST_EXITS: usize = 2;

pub const MOST_EXITS: usize = 10;

pub const PARENTHESES: usize = 16;

pub const NESTING: usize = 8;

// Columns 7-72 of a first card and nine continuations.
pub const TEXT: usize = 66 * 10;

// ---- of numbers and of the object's tables

pub const DIGITS: u32 = 9;

pub const NAMES: usize = 100;

pub const DOS: usize = 64;

pub const CONSTANTS: usize = 256;

pub const ELEMENTS: usize = 256;

pub const EXITS: usize = 1024;

pub const CODE: usize = 4096;

pub const CELLS: usize = 4096;

pub const FORMAT_WORDS: usize = 4096;

pub const LIST_ITEMS: usize = 1024;

pub const TRANSFERS: usize = 400;

// A statement jumps to one number, or to as many as it has exits.
pub const JUMPS: usize = STATEMENTS + EXITS;

// ---- of the machine

pub const STACK: usize = 40;
