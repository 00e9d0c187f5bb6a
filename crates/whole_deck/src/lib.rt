// A deck as a whole, 20 to 25, judged on what was kept of its statements.
#![tactic(auto)]

ghost use Rattle.std.specs.Prelude.{◌≡◌, List, ◌≤◌, length};
ghost use Rattle.rules_text.specs.Trees.{Statement};
ghost use Rattle.rules_deck.specs.Whole.{refused_at};
ghost use Rattle.refusals.specs.Numbers.{number_of};
ghost use Rattle.whole_tables.specs.Rows.{start_of};
ghost use Rattle.whole_tables.specs.Tables.{RowsFit};
ghost use Rattle.whole_numbers.specs.Numbers.{found_of};
ghost use Rattle.whole_ranges.specs.Ranges.{Ranged};
ghost use Rattle.whole_deck.specs.Whole.{Sketched, Whole, Judged};
ghost use Rattle.whole_deck.specs.Parts.{refused, ByNumber, ranges_refused, Inside, Positioned};

use limits::JUMPS;
use read_cards::{Number, Sequence};
use refusals::Reason;
use refused_statements::AtStatement;
use whole_tables::DoRange;

// Refused by a reason at the statement that is found.
fn none_found(reason: Reason, found: Option<Sequence>) -> Result<(), AtStatement>
    ensures { refused result ≡ refused_at (number_of reason) (found_of found) }
{
    match found {
        None => Ok(()),
        Some(place) => Err(AtStatement { reason, place }),
    }
}

// 20 to 22, the lowest first; the place of every number that is jumped to.
fn judge_numbers(
    rows: &[u64],
    numbers: &[Number],
    jumps: &[Number],
) -> Result<[Sequence; JUMPS], AtStatement>
    requires { RowsFit rows.now (length numbers.now) × ((length jumps.now ≡ start_of rows.now (length numbers.now)) × (length jumps.now ≤ 1424)) }
    ensures { ByNumber rows.now numbers.now (length numbers.now) jumps.now result }
{
    let count = numbers.len();
    none_found(Reason::End, whole_numbers::misplaced_end(rows, count))?;
    none_found(
        Reason::DefinedTwice,
        whole_numbers::misnumbered(rows, numbers),
    )?;
    let resolved = whole_numbers::resolve(numbers, jumps);
    none_found(
        Reason::Undefined,
        whole_numbers::user_of(rows, count, resolved.known),
    )?;
    Ok(resolved.places)
}

// 23 to 25.
fn judge_ranges(
    rows: &[u64],
    count: usize,
    loops: &[DoRange],
    places: &[Sequence; JUMPS],
) -> Result<(), AtStatement>
    requires { Ranged rows.now count loops.now }
    ensures { refused result ≡ ranges_refused rows.now count loops.now places.now }
{
    none_found(Reason::Range, whole_ranges::wrong_do(rows, count, loops))?;
    none_found(
        Reason::Jump,
        whole_ranges::wrong_jump(rows, count, loops, places),
    )?;
    none_found(
        Reason::Variable,
        whole_ranges::wrong_set(rows, count, loops),
    )
}

// Ranges are judged by places, which there are once 22 has passed.
// (docs/EXCEPTIONS.md names it: a struct of all tables would ask for more than these three and how much of each is kept.)
pub fn judge(
    rows: &[u64],
    count: usize,
    loops: &[u32],
    dos: usize,
    jumps: &[u32],
    many: usize,
) -> Result<[Sequence; JUMPS], AtStatement>
    requires { Whole rows.now count loops.now dos jumps.now many }
    ensures { (deck : List Statement) → Sketched deck rows.now count loops.now dos jumps.now many → Judged deck result }
{
    let numbers = whole_tables::numbers(rows, count);
    let wanted = whole_tables::wanted(jumps, many);
    let places = judge_numbers(rows, &numbers[..count], &wanted[..many])?;
    let ranges = whole_tables::loops_of(loops, dos, &places);
    judge_ranges(rows, count, &ranges[..dos], &places)?;
    Ok(places)
}

// The places as words, from 0 on: what the code is settled by.
pub fn put_positions(places: &[Sequence; JUMPS], many: usize, words: &mut [u32; JUMPS])
    requires { Inside places.now many }
    ensures { Positioned places.now many words.new }
{
    for k in 0..many {
        words[k] = whole_tables::position_of(places[k]) as u32;
    }
}
