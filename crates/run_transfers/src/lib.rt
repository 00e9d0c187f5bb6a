// A READ or a PRINT, with the cards and the paper.
#![tactic(auto)]

ghost use Rattle.object_contents.specs.Book.{book_of};
ghost use Rattle.run_registers.specs.Devices.{trays_of, Counted};
ghost use Rattle.run_transfers.specs.Transfers.{Ready, Transfers};

use object_contents::placed::Object;
use object_opcodes::Halt;

// How many cards are taken and lines written.
#[derive(Clone, Copy, PartialEq, Eq, Debug, Default)]
pub struct Trays {
    pub taken: usize,
    pub written: usize,
}

// The instruction at `index`.
pub fn transfer(
    o: &Object,
    index: usize,
    store: &mut [i64],
    kept: &mut [i64],
    cards: &[u8],
    lines: &mut [u8],
    trays: Trays,
) -> Result<Trays, Halt>
    requires ready { Ready o.now index store.old kept.old }
    requires counted { Counted (trays_of cards.now lines.old) trays.taken lines.old trays.written }
    ensures { Transfers (book_of o.now) index store.old cards.now lines.old trays result store.new lines.new }
{
    let w = object_words::load(o.bytes, o.layout.code + 4 * index);
    let x = object_words::operand(w) as usize;
    if object_words::operation(w) == object_opcodes::READ {
        let taken = run_reads::read(o, x, store, kept, cards, trays.taken)?;
        return Ok(Trays { taken, ..trays });
    }
    let written = run_prints::print(o, x, store, lines, trays.written)?;
    Ok(Trays { written, ..trays })
}
