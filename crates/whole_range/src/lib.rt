// 23 to 25 for one DO and its range, by sequence numbers.
#![tactic(auto)]

ghost use Rattle.std.specs.Prelude.{◌≡◌, ◌*◌, ◌≤◌, ◌<◌, length};
ghost use Rattle.whole_range.specs.Range.{covering, may_end_kind, uncrossed, outside, leaves};

use read_cards::Sequence;
use take_kinds::Kind;
use whole_tables::DoRange;

// Whether a DO's range holds a statement: after the DO, through its last statement.
#[tactic(auto, unfolding(crate::specs::Range::covering))]
pub fn in_range(range: DoRange, at: Sequence) -> bool
    ensures { result ≡ covering range.first.0 range.last.0 at.0 }
{
    (range.first.0 < at.0) & (at.0 <= range.last.0)
}

#[tactic(auto, unfolding(crate::specs::Range::may_end_kind))]
pub fn may_end(kind: u64) -> bool
    ensures { result ≡ may_end_kind kind }
{
    (kind == Kind::Assignment.word())
        | ((kind == Kind::Continue.word())
            | ((kind == Kind::End.word()) | (kind == Kind::Dimension.word())))
}

// An outer DO around a DO does not end before it.
#[tactic(auto, unfolding(crate::specs::Range::uncrossed))]
pub fn is_apart(range: DoRange, outer: DoRange) -> bool
    ensures { result ≡ uncrossed range.first.0 range.last.0 outer.first.0 outer.last.0 }
{
    !(in_range(outer, range.first) & (outer.last.0 < range.last.0))
}

#[tactic(auto, unfolding(crate::specs::Range::outside))]
pub fn stays_out(range: DoRange, from: Sequence, target: Sequence) -> bool
    ensures { result ≡ outside range.first.0 range.last.0 from.0 target.0 }
{
    !in_range(range, target) | in_range(range, from)
}

// What is set at a place is not the variable of a DO around it: its name is set in the DO's own row.
pub fn leaves_be(rows: &[u64], range: DoRange, at: Sequence) -> bool
    requires { ((1 ≤ range.first.0) × (5 * range.first.0 ≤ length rows.now)) × ((1 ≤ at.0) × (5 * at.0 ≤ length rows.now)) }
    ensures { result ≡ leaves rows.now range.first.0 range.last.0 at.0 }
{
    let own = whole_tables::set_of(rows, whole_tables::position_of(range.first));
    let set = whole_tables::sets(rows, whole_tables::position_of(at), own);
    !(in_range(range, at) & set)
}
