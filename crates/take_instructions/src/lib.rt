// Instructions put at the end of a draft's code: any one, and those that end a form and have no operand.
#![tactic(auto)]

ghost use Rattle.std.specs.Prelude.{◌<◌};
ghost use Rattle.take_draft.specs.Kept.{Fit};
ghost use Rattle.take_instructions.specs.Emits.{Grows, Appends};
ghost use Rattle.take_instructions.specs.Emitting.{EmitsJump, EmitsHalt, EmitsThree, EmitsChoose, EmitsEnter};

use limits::{CODE, EXITS};
use read_cards::Number;
use take_draft::Counts;

// One word; the low 24 bits of the operand. The counts then; none where there is no room for it.
pub fn append(code: &mut [u32; CODE], n: Counts, operation: u32, operand: u32) -> Option<Counts>
    requires { Fit n × (operation < 256) }
    ensures { Appends code.old code.new n operation operand result }
{
    if CODE <= n.code + n.dos {
        return None;
    }
    code[n.code] = object_words::pack(operation, object_words::operand(operand));
    Some(Counts {
        code: n.code + 1,
        ..n
    })
}

// To a statement number, which stands for its address.
pub fn jump(number: Number, code: &mut [u32; CODE], n: Counts) -> Option<Counts>
    requires { Fit n }
    ensures { Grows 0 n result × EmitsJump number.0 code.old code.new n result }
{
    append(code, n, object_opcodes::JMP, number.0)
}

// 0 for STOP, 1 for END.
pub fn halt(x: u32, code: &mut [u32; CODE], n: Counts) -> Option<Counts>
    requires { Fit n }
    ensures { Grows 0 n result × EmitsHalt x code.old code.new n result }
{
    append(code, n, object_opcodes::HLT, x)
}

// An IF's branch, with three exits.
pub fn three(code: &mut [u32; CODE], n: Counts) -> Option<Counts>
    requires { Fit n }
    ensures { Grows 0 n result × EmitsThree code.old code.new n result }
{
    if EXITS < n.exits + 3 {
        return None;
    }
    let m = Counts {
        exits: n.exits + 3,
        ..n
    };
    append(code, m, object_opcodes::BR3, n.exits as u32)
}

// A computed GO TO's branch; its exits come after their count.
pub fn choose(count: usize, code: &mut [u32; CODE], n: Counts) -> Option<Counts>
    requires { Fit n }
    ensures { Grows 0 n result × EmitsChoose count code.old code.new n result }
{
    if EXITS - n.exits <= count {
        return None;
    }
    let m = Counts {
        exits: n.exits + count + 1,
        ..n
    };
    append(code, m, object_opcodes::BRC, n.exits as u32)
}

// The DOI of the next DO. The caller counts the DO; its DOE has room.
pub fn enter(code: &mut [u32; CODE], n: Counts) -> Option<Counts>
    requires { Fit n }
    ensures { Grows 1 n result × EmitsEnter code.old code.new n result }
{
    if CODE <= n.code + n.dos + 1 {
        return None;
    }
    append(code, n, object_opcodes::DOI, n.dos as u32)
}
