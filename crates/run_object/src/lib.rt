// An object run from the state that is lent, or on the bench. Whatever is lent gets one outcome, the book's.
#![tactic(auto)]

ghost use Rattle.std.specs.Prelude.{◌≡◌, List, ℕ, ◌≤◌, take, ℤ};
ghost use Rattle.std.proofs.Math.Option.{some};
ghost use Rattle.refusals.specs.Numbers.{number_of};
ghost use Rattle.rules_object.specs.Calls.{passed, run_checked, running, bench_object, benching};
ghost use Rattle.rules_object.specs.Passed.{Passed};
ghost use Rattle.object_contents.specs.Layout.{Placed, object_at};
ghost use Rattle.object_contents.specs.Book.{book_of};
ghost use Rattle.check_heights.specs.Judged.{Fresh};
ghost use Rattle.run_registers.specs.Devices.{trays_of};
ghost use Rattle.run_lent.specs.Lending.{lent};
ghost use Rattle.run_machine.specs.Running.{answer};
ghost use Rattle.run_object.specs.Outcomes.{ran_of, refused_ran, Ends};

use check_meeting::{NEVER, Table};
use limits::{CODE, STACK};
use number::Rule;
use object_contents::Layout;
use object_contents::placed::Object;
use refusals::Reason;
use run_registers::Regs;

// `cards` are those taken, `lines` those written, by this run.
#[repr(C)]
#[derive(Drop)]
pub struct Ran {
    pub number: u32,
    pub place: u32,
    pub kind: u32,
    pub halt: u32,
    pub steps: u32,
    pub sequence: u32,
    pub cards: usize,
    pub lines: usize,
}

// ---- either

fn not_run(reason: Reason, place: u32, kind: u32) -> Ran
    ensures { result ≡ refused_ran (number_of reason) place kind }
{
    Ran {
        number: reason.number(),
        place,
        kind,
        halt: 0,
        steps: 0,
        sequence: 0,
        cards: 0,
        lines: 0,
    }
}

// The state after a run goes back to where it was lent.
fn finish(o: &Object, q: run_machine::Ran, index: &mut u32, height: &mut u32, mark: &mut u32) -> Ran
    requires { (q.regs.index ≤ 4096) × (q.regs.height ≤ 4096) }
    ensures { (places store : List ℤ) (lines : List ℕ) → ran_of result (lent index.new height.new mark.new places) store lines ≡ answer (book_of o.now) q places store lines }
{
    run_lent::give_back(q.regs, index, height, mark);
    Ran {
        number: 0,
        place: 0,
        kind: 0,
        halt: q.halt.number(),
        steps: q.steps,
        sequence: run_machine::sequence(o.bytes, &o.layout, q.regs.mark),
        cards: q.trays.taken,
        lines: q.trays.written,
    }
}

// ---- run

// An object that passed the check.
fn run_passed(
    o: &Object,
    table: &Table,
    store: &mut [i64],
    index: &mut u32,
    height: &mut u32,
    mark: &mut u32,
    places: &mut [i64; STACK],
    cards: &[u8],
    lines: &mut [u8],
    allowance: u32,
) -> Ran
    requires { (s : List ℕ) × Passed s (book_of o.now) (take o.now.layout.code_count table.now) }
    ensures { Ends (run_checked (passed (book_of o.now) (take o.now.layout.code_count table.now)) store.old (lent index.old height.old mark.old places.old) (trays_of cards.now lines.old) allowance) result (lent index.new height.new mark.new places.new) store.new lines.new }
{
    let judged = run_lent::lent_wrong(
        &o.layout, o.rule, table, store, *index, *height, *mark, places,
    );
    if let Err(reason) = judged {
        return not_run(reason, 0, 0);
    }
    let start = Regs {
        index: *index as usize,
        height: *height as usize,
        mark: *mark,
    };
    run_lent::clear(places, start.height);
    let q = run_machine::run(o, start, places, store, cards, lines, allowance);
    finish(o, q, index, height, mark)
}

fn run_with(
    object: &[u8],
    store: &mut [i64],
    index: &mut u32,
    height: &mut u32,
    mark: &mut u32,
    places: &mut [i64; STACK],
    cards: &[u8],
    lines: &mut [u8],
    allowance: u32,
    table: &mut Table,
) -> Ran
    requires { Fresh table.old }
    ensures { Ends (running object.now store.old (lent index.old height.old mark.old places.old) (trays_of cards.now lines.old) allowance) result (lent index.new height.new mark.new places.new) store.new lines.new }
{
    match check_object::check(object, table) {
        Ok(o) => run_passed(
            &o, table, store, index, height, mark, places, cards, lines, allowance,
        ),
        Err(refusal) => not_run(refusal.reason, refusal.place, refusal.kind),
    }
}

// From the state that is lent; what it leaves is a state to go on from.
pub fn run(
    object: &[u8],
    store: &mut [i64],
    index: &mut u32,
    height: &mut u32,
    mark: &mut u32,
    places: &mut [i64; STACK],
    cards: &[u8],
    lines: &mut [u8],
    allowance: u32,
) -> Ran
    ensures { Ends (running object.now store.old (lent index.old height.old mark.old places.old) (trays_of cards.now lines.old) allowance) result (lent index.new height.new mark.new places.new) store.new lines.new }
{
    let mut table = [NEVER; CODE];
    run_with(
        object, store, index, height, mark, places, cards, lines, allowance, &mut table,
    )
}

// ---- bench

// An object that has its bodies.
fn bench_read(
    object: &[u8],
    layout: Layout,
    store: &mut [i64],
    index: &mut u32,
    height: &mut u32,
    mark: &mut u32,
    places: &mut [i64; STACK],
    cards: &[u8],
    lines: &mut [u8],
    allowance: u32,
) -> Ran
    requires { Placed layout object.now }
    ensures { Ends (bench_object (some (object_at layout object.now)) store.old (lent index.old height.old mark.old places.old) (trays_of cards.now lines.old) allowance) result (lent index.new height.new mark.new places.new) store.new lines.new }
{
    if !check_entries::limits_right(layout) {
        return not_run(Reason::Limits, 0, 0);
    }
    let rule = Rule::of_digits(layout.digits as usize);
    let o = Object {
        bytes: object,
        layout,
        rule,
    };
    if let Err(wrong) = run_lent::store_wrong(&o.layout, rule, store) {
        return not_run(wrong, 0, 0);
    }
    run_lent::clear(places, 0);
    let start = Regs {
        index: 0,
        height: 0,
        mark: 0,
    };
    let q = run_machine::bench(&o, start, places, store, cards, lines, allowance);
    finish(&o, q, index, height, mark)
}

// Starts fresh, and tests each instruction before it is done: 42 to 44 are not asked.
pub fn bench(
    object: &[u8],
    store: &mut [i64],
    index: &mut u32,
    height: &mut u32,
    mark: &mut u32,
    places: &mut [i64; STACK],
    cards: &[u8],
    lines: &mut [u8],
    allowance: u32,
) -> Ran
    ensures { Ends (benching object.now store.old (lent index.old height.old mark.old places.old) (trays_of cards.now lines.old) allowance) result (lent index.new height.new mark.new places.new) store.new lines.new }
{
    match object_contents::contents_of(object) {
        Some(layout) => bench_read(
            object, layout, store, index, height, mark, places, cards, lines, allowance,
        ),
        None => not_run(Reason::Contents, 0, 0),
    }
}
