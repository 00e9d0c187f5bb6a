// A deck's statement numbers and sequence numbers in tables of their own types, by value, made from the words that drafting keeps.
#![tactic(auto)]

ghost use Rattle.std.specs.Prelude.{◌≡◌, suc, ◌+◌, ◌*◌, ◌^◌, ◌≤◌, ◌<◌, length, take};
ghost use Rattle.whole_tables.specs.Rows.{number_at, kind_at, set_at, jumps_at, sets_at};
ghost use Rattle.whole_tables.specs.Tables.{RowsFit, NumbersOf, Wanted, LoopsFit, LoopsOf};

use limits::{DOS, JUMPS, STATEMENTS};
use read_cards::{Number, Sequence};

// ---- a statement's place: positions from 0 on, sequence numbers from 1 on

pub fn position_of(place: Sequence) -> usize
    requires { 1 ≤ place.0 }
    ensures { suc result ≡ place.0 }
{
    place.0 as usize - 1
}

pub fn sequence_of(position: usize) -> Sequence
    requires { position < 400 }
    ensures { result.0 ≡ suc position }
{
    Sequence(position as u32 + 1)
}

// ---- a statement's row: number, kind, name set, words of code, how many jumps

pub fn number_of(rows: &[u64], q: usize) -> Number
    requires { (5 * q + 5 ≤ length rows.now) × (number_at rows.now q < 2 ^ 32) }
    ensures { result.0 ≡ number_at rows.now q }
{
    Number(rows[5 * q] as u32)
}

pub fn kind_of(rows: &[u64], q: usize) -> u64
    requires { 5 * q + 5 ≤ length rows.now }
    ensures { result ≡ kind_at rows.now q }
{
    rows[5 * q + 1]
}

pub fn set_of(rows: &[u64], q: usize) -> u64
    requires { 5 * q + 5 ≤ length rows.now }
    ensures { result ≡ set_at rows.now q }
{
    rows[5 * q + 2]
}

// Whether a statement sets a name.
pub fn sets(rows: &[u64], q: usize, name: u64) -> bool
    requires { 5 * q + 5 ≤ length rows.now }
    ensures { result ≡ sets_at rows.now q name }
{
    name == rows[5 * q + 2]
}

pub fn jumps_of(rows: &[u64], q: usize) -> usize
    requires { 5 * q + 5 ≤ length rows.now }
    ensures { result ≡ jumps_at rows.now q }
{
    rows[5 * q + 4] as usize
}

// ---- tables

// Each statement's number, 0 where none is punched.
pub fn numbers(rows: &[u64], count: usize) -> [Number; STATEMENTS]
    requires { RowsFit rows.now count }
    ensures { NumbersOf rows.now count (take count result) }
{
    let mut table = [Number(0); STATEMENTS];
    for q in 0..count {
        table[q] = number_of(rows, q);
    }
    table
}

// The numbers that statements jump to, a DO's last among them.
pub fn wanted(words: &[u32], many: usize) -> [Number; JUMPS]
    requires { (many ≤ 1424) × (many ≤ length words.now) }
    ensures { Wanted words.now many (take many result) }
{
    let mut table = [Number(0); JUMPS];
    for k in 0..many {
        table[k] = Number(words[k]);
    }
    table
}

// A DO, and the last statement of its range.
#[derive(Clone, Copy, PartialEq, Eq, Debug)]
pub struct DoRange {
    pub first: Sequence,
    pub last: Sequence,
}

// Two words a DO: its position, and the index of its last statement among the jumps.
pub fn loops_of(words: &[u32], dos: usize, places: &[Sequence; JUMPS]) -> [DoRange; DOS]
    requires { LoopsFit words.now dos }
    ensures { LoopsOf words.now dos places.now (take dos result) }
{
    let none = DoRange {
        first: Sequence(0),
        last: Sequence(0),
    };
    let mut table = [none; DOS];
    for i in 0..dos {
        let k = words[2 * i + 1] as usize;
        table[i] = DoRange {
            first: sequence_of(words[2 * i] as usize),
            last: places[k],
        };
    }
    table
}
