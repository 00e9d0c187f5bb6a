// The words that one statement of an accepted deck gets: its own code with its target's address, its DOEs, its exits.
#![tactic(auto)]

ghost use Rattle.std.specs.Prelude.{◌≡◌, map, ◌+◌, ◌<◌, ◌≤◌, length};
ghost use Rattle.read_items.specs.Parsed.{Put};
ghost use Rattle.final_addresses.specs.Ends.{ends_at};
ghost use Rattle.final_statement.specs.Words.{Aimed, own_words, end_word, end_of, targets, exit_words};

use final_addresses::Dos;
use take_kinds::Kind;

// As many words, one after the other. (`read_items::put_words` is the same, private there; docs/EXCEPTIONS.md names this one.)
pub fn copy(out: &mut [u32], top: usize, words: &[u32]) -> usize
    requires { top + length words.now ≤ length out.old }
    ensures { Put out.old out.new top words.now result }
{
    let end = top + words.len();
    out[top..end].copy_from_slice(words);
    end
}

// The DOE of the d-th DO, if its last statement is the one at position i.
pub fn put_end(out: &mut [u32], top: usize, last: usize, i: usize, d: usize) -> usize
    requires { (d < 64) × (top + length (end_of last i d) ≤ length out.old) }
    ensures { Put out.old out.new top (end_of last i d) result }
{
    if last != i {
        return top;
    }
    read_items::put(out, top, object_words::pack(object_opcodes::DOE, d as u32))
}

// The DOEs of the DOs that end with the statement at position i, the innermost first: the latest.
pub fn put_ends(out: &mut [u32], top: usize, dos: &Dos, i: usize) -> usize
    requires { (dos.now.count ≤ 64) × (top + length (ends_at dos.now.loops.now dos.now.jumps.now i dos.now.count) ≤ length out.old) }
    ensures { Put out.old out.new top (map end_word (ends_at dos.now.loops.now dos.now.jumps.now i dos.now.count)) result }
{
    let mut at = top;
    for d in (0..dos.count).rev() {
        at = put_end(out, at, dos.last(d), i, d);
    }
    at
}

// A statement's own code, by its kind as a row's word: docs/EXCEPTIONS.md names this, and `put_exits`, and they may ask no more.
pub fn put_own(
    out: &mut [u32],
    top: usize,
    kind: u64,
    draft: &[u32],
    jumps: &[u32],
    starts: &[u32],
) -> usize
    requires { (top + length draft.now ≤ length out.old) × (kind ≡ 1 → (1 ≤ length draft.now) × (1 ≤ length jumps.now) × Aimed jumps.now starts.now) }
    ensures { Put out.old out.new top (own_words kind draft.now jumps.now starts.now) result }
{
    if kind != Kind::GoTo.word() {
        return copy(out, top, draft);
    }
    let address = starts[jumps[0] as usize];
    read_items::put(out, top, object_words::pack(object_opcodes::JMP, address))
}

// The addresses that the jumps lead to.
pub fn put_targets(out: &mut [u32], top: usize, jumps: &[u32], starts: &[u32]) -> usize
    requires { (top + length jumps.now ≤ length out.old) × Aimed jumps.now starts.now }
    ensures { Put out.old out.new top (targets jumps.now starts.now) result }
{
    let mut at = top;
    for &jump in jumps {
        at = read_items::put(out, at, starts[jump as usize]);
    }
    at
}

// A statement's exits.
pub fn put_exits(out: &mut [u32], top: usize, kind: u64, jumps: &[u32], starts: &[u32]) -> usize
    requires { (top + length (exit_words kind jumps.now starts.now) ≤ 1024) × (1024 ≤ length out.old) × Aimed jumps.now starts.now }
    ensures { Put out.old out.new top (exit_words kind jumps.now starts.now) result }
{
    if kind == Kind::Computed.word() {
        let next = read_items::put(out, top, jumps.len() as u32);
        return put_targets(out, next, jumps, starts);
    }
    if kind == Kind::If.word() {
        return put_targets(out, top, jumps, starts);
    }
    top
}
