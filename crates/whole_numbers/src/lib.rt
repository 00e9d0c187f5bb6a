// 20 to 22 on what was kept of a deck's statements; the numbers that are jumped to become places.
#![tactic(auto)]

ghost use Rattle.std.specs.Prelude.{◌≡◌, suc, ◌*◌, ◌≤◌, ◌<◌, length};
ghost use Rattle.whole_tables.specs.Rows.{start_of};
ghost use Rattle.whole_numbers.specs.Numbers.{first_from, found_of, place_of, end_right, last_ends, misplaced_end, own_right, number_right, past, Resolves};

use limits::JUMPS;
use read_cards::{Number, Sequence};
use take_kinds::Kind;

// The first statement with this number.
fn place_of(numbers: &[Number], number: Number) -> Option<Sequence>
    requires { length numbers.now ≤ 400 }
    ensures { found_of result ≡ place_of numbers.now (length numbers.now) number.0 }
{
    for q in 0..numbers.len() {
        if numbers[q] == number {
            return Some(whole_tables::sequence_of(q));
        }
    }
    None
}

// ---- 20

#[tactic(auto, unfolding(crate::specs::Numbers::end_right))]
fn end_right(rows: &[u64], count: usize, q: usize) -> bool
    requires { (5 * count ≤ length rows.now) × (q < count) }
    ensures { result ≡ end_right rows.now count q }
{
    (whole_tables::kind_of(rows, q) != Kind::End.word()) | (q + 1 == count)
}

fn first_early_end(rows: &[u64], count: usize) -> Option<Sequence>
    requires { (5 * count ≤ length rows.now) × (count ≤ 400) }
    ensures { found_of result ≡ first_from (end_right rows.now count) suc count 0 }
{
    for q in 0..count {
        if !end_right(rows, count, q) {
            return Some(whole_tables::sequence_of(q));
        }
    }
    None
}

fn last_ends(rows: &[u64], count: usize) -> bool
    requires { 5 * count ≤ length rows.now }
    ensures { result ≡ last_ends rows.now count }
{
    count > 0 && whole_tables::kind_of(rows, count - 1) == Kind::End.word()
}

// The first early END, else the last statement; 0 for a deck of no statement.
pub fn misplaced_end(rows: &[u64], count: usize) -> Option<Sequence>
    requires { (5 * count ≤ length rows.now) × (count ≤ 400) }
    ensures { found_of result ≡ misplaced_end rows.now count }
{
    if let Some(place) = first_early_end(rows, count) {
        return Some(place);
    }
    if last_ends(rows, count) {
        return None;
    }
    Some(Sequence(count as u32))
}

// ---- 21

// Of a numbered statement: it is the first with its number, and of a kind that may have one.
fn own_right(first: Option<Sequence>, here: Sequence, kind: u64) -> bool
    ensures { result ≡ own_right (found_of first) here.0 kind }
{
    match first {
        None => false,
        Some(place) => {
            (place.0 == here.0) & ((kind != Kind::Dimension.word()) & (kind != Kind::End.word()))
        }
    }
}

pub fn misnumbered(rows: &[u64], numbers: &[Number]) -> Option<Sequence>
    requires { (5 * length numbers.now ≤ length rows.now) × (length numbers.now ≤ 400) }
    ensures { found_of result ≡ first_from (number_right rows.now numbers.now (length numbers.now)) suc (length numbers.now) 0 }
{
    for q in 0..numbers.len() {
        let number = numbers[q];
        if number.0 != 0 {
            let here = whole_tables::sequence_of(q);
            let first = place_of(numbers, number);
            if !own_right(first, here, whole_tables::kind_of(rows, q)) {
                return Some(here);
            }
        }
    }
    None
}

// ---- 22

// The statement of each number that is jumped to, up to the first that no statement has.
#[derive(Drop)]
pub struct Resolved {
    pub places: [Sequence; JUMPS],
    pub known: usize,
}

// The only way from a number to a place.
pub fn resolve(numbers: &[Number], jumps: &[Number]) -> Resolved
    requires { (length numbers.now ≤ 400) × (length jumps.now ≤ 1424) }
    ensures { Resolves numbers.now (length numbers.now) jumps.now (length jumps.now) result }
{
    let mut places = [Sequence(0); JUMPS];
    for k in 0..jumps.len() {
        let Some(place) = place_of(numbers, jumps[k]) else {
            return Resolved { places, known: k };
        };
        places[k] = place;
    }
    Resolved {
        places,
        known: jumps.len(),
    }
}

// The statement that has the jump at this index.
pub fn user_of(rows: &[u64], count: usize, k: usize) -> Option<Sequence>
    requires count_in_bounds { (5 * count ≤ length rows.now) × (count ≤ 400) }
    requires count_bound { start_of rows.now count ≤ 1424 }
    ensures { found_of result ≡ first_from (past rows.now k) suc count 0 }
{
    let mut end = 0;
    for q in 0..count {
        end += whole_tables::jumps_of(rows, q);
        if k < end {
            return Some(whole_tables::sequence_of(q));
        }
    }
    None
}
