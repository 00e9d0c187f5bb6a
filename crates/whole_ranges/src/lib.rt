// 23 to 25 on what was kept of a deck's statements, by places.
#![tactic(auto)]

ghost use Rattle.std.specs.Prelude.{◌≡◌, suc, ◌+◌, ◌*◌, ◌≤◌, ◌<◌, length};
ghost use Rattle.whole_tables.specs.Tables.{do_at};
ghost use Rattle.whole_numbers.specs.Numbers.{all_from, count_from, first_from, found_of};
ghost use Rattle.whole_ranges.specs.Ranges.{Ranged, covers, apart, do_right, exits_at, stays_out, jumps_right, set_right};

use limits::{JUMPS, NESTING};
use read_cards::Sequence;
use take_kinds::Kind;
use whole_tables::DoRange;

// ---- 23

fn crosses_none(loops: &[DoRange], range: DoRange) -> bool
    ensures { result ≡ all_from (apart loops.now range.first.0 range.last.0) (length loops.now) 0 }
{
    loops
        .iter()
        .all(|outer| whole_range::is_apart(range, *outer))
}

// In how many ranges a statement stands.
fn depth_at(loops: &[DoRange], at: Sequence) -> usize
    ensures { result ≡ count_from (covers loops.now at.0) (length loops.now) 0 }
{
    let around = loops
        .iter()
        .filter(|range| whole_range::in_range(**range, at));
    around.count()
}

fn do_right(rows: &[u64], count: usize, loops: &[DoRange], i: usize) -> bool
    requires { Ranged rows.now count loops.now × (i < length loops.now) }
    ensures { result ≡ do_right rows.now loops.now i }
{
    let range = loops[i];
    let kind = whole_tables::kind_of(rows, whole_tables::position_of(range.last));
    let ends = whole_range::may_end(kind);
    let apart = crosses_none(loops, range);
    let deep = depth_at(loops, range.first);
    (range.first.0 < range.last.0) & (ends & (apart & (deep < NESTING)))
}

// The place is the DO.
pub fn wrong_do(rows: &[u64], count: usize, loops: &[DoRange]) -> Option<Sequence>
    requires { Ranged rows.now count loops.now }
    ensures { found_of result ≡ first_from (do_right rows.now loops.now) (do_at loops.now) (length loops.now) 0 }
{
    for i in 0..loops.len() {
        if !do_right(rows, count, loops, i) {
            return Some(loops[i].first);
        }
    }
    None
}

// ---- 24

// A jump goes into no range from outside.
fn stays_out_of_all(loops: &[DoRange], from: Sequence, target: Sequence) -> bool
    ensures { result ≡ all_from (stays_out loops.now from.0 target.0) (length loops.now) 0 }
{
    loops
        .iter()
        .all(|range| whole_range::stays_out(*range, from, target))
}

// How many jumps a statement has to test: a DO has its last statement there and no jump.
fn exits_of(rows: &[u64], q: usize) -> usize
    requires { 5 * q + 5 ≤ length rows.now }
    ensures { result ≡ exits_at rows.now q }
{
    if whole_tables::kind_of(rows, q) == Kind::Do.word() {
        return 0;
    }
    whole_tables::jumps_of(rows, q)
}

pub fn wrong_jump(
    rows: &[u64],
    count: usize,
    loops: &[DoRange],
    places: &[Sequence; JUMPS],
) -> Option<Sequence>
    requires { Ranged rows.now count loops.now }
    ensures { found_of result ≡ first_from (jumps_right rows.now loops.now places.now) suc count 0 }
{
    let mut at = 0;
    for q in 0..count {
        let here = whole_tables::sequence_of(q);
        let end = at + exits_of(rows, q);
        for k in at..end {
            if !stays_out_of_all(loops, here, places[k]) {
                return Some(here);
            }
        }
        at += whole_tables::jumps_of(rows, q);
    }
    None
}

// ---- 25

fn set_right(rows: &[u64], count: usize, loops: &[DoRange], at: Sequence) -> bool
    requires { Ranged rows.now count loops.now × ((1 ≤ at.0) × (at.0 ≤ count)) }
    ensures { result ≡ set_right rows.now loops.now at.0 }
{
    for range in loops {
        if !whole_range::leaves_be(rows, *range, at) {
            return false;
        }
    }
    true
}

pub fn wrong_set(rows: &[u64], count: usize, loops: &[DoRange]) -> Option<Sequence>
    requires { Ranged rows.now count loops.now }
    ensures { found_of result ≡ first_from (λ q. set_right rows.now loops.now (suc q)) suc count 0 }
{
    for q in 0..count {
        let here = whole_tables::sequence_of(q);
        if !set_right(rows, count, loops, here) {
            return Some(here);
        }
    }
    None
}
