// The machine's operations, each with what its operand stands for. Nothing is tested here that the check of an object has settled.
// READ and PRINT are left to the caller, which has the cards and the paper.
#![tactic(auto)]

ghost use Rattle.std.specs.Prelude.{◌≡◌, ◌^◌, ◌<◌};
ghost use Rattle.rules_object.specs.Object.{rule_of};
ghost use Rattle.rules_object.specs.Operations.{meant};
ghost use Rattle.object_contents.specs.Book.{book_of};
ghost use Rattle.run_arithmetic.specs.Performed.{after, performed};
ghost use Rattle.run_operations.specs.Ready.{Held, Ready};

use limits::STACK;
use object_contents::placed::Object;
use object_opcodes::Halt;
use run_registers::{Regs, Turn};

// The operation `op` with operand `x`.
pub fn perform(
    op: u32,
    x: usize,
    o: &Object,
    r: Regs,
    stack: &mut [i64; STACK],
    store: &mut [i64],
) -> Turn
    requires held { Held o.now r stack.old store.old }
    requires ready { Ready (book_of o.now) op x r.height }
    requires index_bound { (r.index < 4096) × (x < 2 ^ 24) }
    ensures { after result stack.new store.new ≡ performed (rule_of (book_of o.now)) (meant (book_of o.now) op x) r stack.old store.old }
{
    let e = &o.layout;
    let rule = o.rule;
    match op {
        object_opcodes::CON => {
            let v = object_words::load(o.bytes, e.constants + 4 * x);
            Turn::Next(run_arithmetic::push(r, stack, i64::from(v)))
        }
        object_opcodes::LOD => {
            let v = store[x];
            Turn::Next(run_arithmetic::push(r, stack, v))
        }
        object_opcodes::STO => Turn::Next(run_arithmetic::store_top(r, stack, store, x)),
        object_opcodes::LDE => run_entries::do_lde(o.bytes, e.elements + 36 * x, r, stack, store),
        object_opcodes::STE => run_entries::do_ste(o.bytes, e.elements + 36 * x, r, stack, store),
        object_opcodes::ADD => run_arithmetic::join(r, stack, |x, y| Some(rule.add(x, y))),
        object_opcodes::SUB => run_arithmetic::join(r, stack, |x, y| Some(rule.sub(x, y))),
        object_opcodes::MUL => run_arithmetic::join(r, stack, |x, y| Some(rule.mul(x, y))),
        object_opcodes::DIV => run_arithmetic::join(r, stack, |x, y| rule.div(x, y)),
        object_opcodes::NEG => Turn::Next(run_arithmetic::do_neg(r, stack)),
        object_opcodes::JMP => Turn::Next(r.going_to(x, r.height)),
        object_opcodes::BR3 => Turn::Next(run_entries::do_br3(o.bytes, e.exits + 4 * x, r, stack)),
        object_opcodes::BRC => run_entries::do_brc(o.bytes, e.exits + 4 * x, r, stack),
        object_opcodes::DOI => run_entries::do_doi(o.bytes, e.dos + 16 * x, r, stack, store),
        object_opcodes::DOE => run_entries::do_doe(o.bytes, e.dos + 16 * x, r, store),
        object_opcodes::READ | object_opcodes::PRINT => Turn::Transfer,
        _ => Turn::Halt(if x == 0 { Halt::Stop } else { Halt::End }),
    }
}
