// The words of one entry of bodies 6 and 7: a statement's line, a name.
#![tactic(auto)]

ghost use Rattle.std.specs.Prelude.{◌≡◌, [], ◌∷◌, ◌+◌, ◌*◌, ◌/◌, ◌≤◌, length};
ghost use Rattle.read_items.specs.Parsed.{Put};
ghost use Rattle.final_entries.specs.Lines.{line_of};
ghost use Rattle.final_entries.specs.Turned.{turned};

use object_bodies::{LINE, NAME};
use take_kinds::Kind;

// One line's three words; how many words there are then.
pub fn put_line(out: &mut [u32], top: usize, sequence: u32, number: u32, address: u32) -> usize
    requires { top + 3 ≤ length out.old }
    ensures { Put out.old out.new top (sequence ∷ number ∷ address ∷ []) result }
{
    let end = top + LINE;
    out[top..end].copy_from_slice(&[sequence, number, address]);
    end
}

// A statement's line, if it is one; its kind is a row's word, since docs/EXCEPTIONS.md names this, and it may ask no more.
pub fn put_statement(
    out: &mut [u32],
    top: usize,
    kind: u64,
    sequence: u32,
    number: u32,
    address: u32,
) -> usize
    requires { top + 3 ≤ length out.old }
    ensures { Put out.old out.new top (line_of kind sequence number address) result }
{
    if kind == Kind::Dimension.word() {
        return top;
    }
    put_line(out, top, sequence, number, address)
}

// Four bytes of a name, the first lowest.
pub fn turned(w: u64) -> u32
    ensures { result ≡ turned w }
{
    let [_, _, _, _, a, b, c, d] = w.to_be_bytes();
    u32::from_le_bytes([a, b, c, d])
}

// One name's five words; how many words there are then.
pub fn put_name(
    out: &mut [u32],
    top: usize,
    name: u64,
    first: u32,
    rows: u32,
    columns: u32,
) -> usize
    requires { top + 5 ≤ length out.old }
    ensures { Put out.old out.new top (turned (name / 4294967296) ∷ turned name ∷ first ∷ rows ∷ columns ∷ []) result }
{
    let end = top + NAME;
    out[top..end].copy_from_slice(&[turned(name >> 32), turned(name), first, rows, columns]);
    end
}
