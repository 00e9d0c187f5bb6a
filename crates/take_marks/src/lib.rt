// What the whole deck is judged by, of one statement: its row, the numbers that it jumps to, and a DO's entries.
#![tactic(auto)]

ghost use Rattle.std.specs.Prelude.{◌≡◌, [], ◌∷◌, ◌+◌, ◌*◌, ◌≤◌, ◌<◌, length};
ghost use Rattle.rules_shared.specs.Lists.{Each};
ghost use Rattle.read_items.specs.Parsed.{Put};
ghost use Rattle.take_marks.specs.Marks.{numbers_of, Low, Jumping, cell_name, set_of};

use read_cards::Number;
use read_elements::Target;
use read_tokens::Name;
use take_kinds::Kind;
use take_plans::Plan;

// ---- a DO

// Its variable's cell, its limit's and its step's; its body is not known yet.
#[tactic(auto)]
pub fn put_do(dos: &mut [u32], d: usize, variable: u32, limit: u32) -> usize
    requires { (4 * d + 4 ≤ length dos.old) × (limit < 4096) }
    ensures { Put dos.old dos.new (4 * d) (variable ∷ limit ∷ (limit + 1) ∷ 0 ∷ []) result }
{
    let at = 4 * d;
    dos[at..at + 4].copy_from_slice(&[variable, limit, limit + 1, 0]);
    at + 4
}

// Its position, and where its last statement's number stands in the jumps.
#[tactic(auto)]
pub fn put_loop(loops: &mut [u32], d: usize, position: usize, jump: usize) -> usize
    requires { (2 * d + 2 ≤ length loops.old) × ((position ≤ 400) × (jump ≤ 1424)) }
    ensures { Put loops.old loops.new (2 * d) (position ∷ jump ∷ []) result }
{
    let at = 2 * d;
    loops[at..at + 2].copy_from_slice(&[position as u32, jump as u32]);
    at + 2
}

// ---- statement numbers

// Those that the reader left as words.
#[tactic(auto, using(crate::proofs::Puts::low_at, crate::proofs::Puts::put_none, read_items::proofs::Tables::put_more))]
fn put_numbers(numbers: &[u64], jumps: &mut [u32], from: usize) -> usize
    requires { (from + length numbers.now ≤ length jumps.old) × Each Low numbers.now }
    ensures { Put jumps.old jumps.new from numbers.now result }
{
    let mut at = from;
    for &number in numbers {
        at = read_items::put(jumps, at, number as u32);
    }
    at
}

// The numbers that a statement jumps to, or a DO's last.
#[tactic(auto, using(crate::proofs::Puts::put_none), unfolding(crate::specs::Marks::numbers_of))]
pub fn put_jumps(p: Plan, items: &[u64], jumps: &mut [u32], from: usize) -> usize
    requires { Jumping p items.now jumps.old from }
    ensures { Put jumps.old jumps.new from (numbers_of p items.now) result }
{
    match p.kind {
        Kind::Computed => put_numbers(&items[..p.listed], jumps, from),
        Kind::If => {
            jumps[from..from + 3].copy_from_slice(&[p.below.0, p.at.0, p.above.0]);
            from + 3
        }
        Kind::GoTo | Kind::Do => read_items::put(jumps, from, p.below.0),
        _ => from,
    }
}

// ---- the row

#[tactic(auto, unfolding(crate::specs::Marks::cell_name))]
pub fn cell_name(target: Target) -> Name
    ensures { result ≡ cell_name target }
{
    match target {
        Target::Cell(name) => name,
        Target::Element(_) => read_tokens::no_name(),
    }
}

// The first word of the name that a statement sets, 0 for none.
#[tactic(auto, unfolding(crate::specs::Marks::set_of))]
pub fn set_of(p: Plan) -> u64
    ensures { result ≡ set_of p }
{
    match p.kind {
        Kind::Assignment | Kind::Do => cell_name(p.target).0,
        _ => 0,
    }
}

#[tactic(auto)]
pub fn put_row(
    rows: &mut [u64],
    q: usize,
    number: Number,
    kind: u64,
    set: u64,
    words: u64,
    jumps: u64,
) -> usize
    requires { 5 * q + 5 ≤ length rows.old }
    ensures { Put rows.old rows.new (5 * q) (number.0 ∷ kind ∷ set ∷ words ∷ jumps ∷ []) result }
{
    let at = 5 * q;
    rows[at..at + 5].copy_from_slice(&[u64::from(number.0), kind, set, words, jumps]);
    at + 5
}
