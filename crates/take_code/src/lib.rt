// A form's plan as code: its items, and what ends it.
#![tactic(auto)]

ghost use Rattle.std.specs.Prelude.{◌≡◌, List, ℕ};
ghost use Rattle.take_kinds.specs.declared.Kind.TheVariants as kind;
ghost use Rattle.take_draft.specs.Kept.{Fit};
ghost use Rattle.take_instructions.specs.Emits.{Grows};
ghost use Rattle.take_code.specs.Endings.{does_of, Emitting, EmitsEnding, EmitsPlan};

use limits::{CODE, CONSTANTS};
use take_draft::{Counts, ELEMENT_WORDS, NAMES_WORDS};
use take_kinds::Kind;
use take_plans::Plan;

// A computed GO TO's variable and branch.
fn choose_exit(
    p: Plan,
    names: &[u64; NAMES_WORDS],
    code: &mut [u32; CODE],
    n: Counts,
) -> Option<Counts>
    requires { Fit n × (p.kind ≡ kind.Computed) }
    ensures { Grows 0 n result × ((elements : List ℕ) → EmitsEnding p names.now elements code.old elements code.new n result) }
{
    let m = take_operands::load(take_marks::cell_name(p.target), names, code, n)?;
    take_instructions::choose(p.listed, code, m)
}

fn end(
    p: Plan,
    names: &[u64; NAMES_WORDS],
    elements: &mut [u32; ELEMENT_WORDS],
    code: &mut [u32; CODE],
    n: Counts,
) -> Option<Counts>
    requires { Fit n }
    ensures { Grows (does_of p) n result × EmitsEnding p names.now elements.old code.old elements.new code.new n result }
{
    match p.kind {
        Kind::Assignment => take_operands::store(p.target, names, elements, code, n),
        Kind::GoTo => take_instructions::jump(p.below, code, n),
        Kind::Computed => choose_exit(p, names, code, n),
        Kind::If => take_instructions::three(code, n),
        Kind::Do => take_instructions::enter(code, n),
        Kind::Stop => take_instructions::halt(0, code, n),
        Kind::End => take_instructions::halt(1, code, n),
        Kind::Continue | Kind::Dimension => Some(n),
    }
}

pub fn emit_plan(
    p: Plan,
    items: &[u64],
    names: &[u64; NAMES_WORDS],
    constants: &mut [u32; CONSTANTS],
    elements: &mut [u32; ELEMENT_WORDS],
    code: &mut [u32; CODE],
    n: Counts,
) -> Option<Counts>
    requires { Emitting p items.now n }
    ensures { Grows (does_of p) n result × EmitsPlan p items.now names.now constants.old elements.old code.old constants.new elements.new code.new n result }
{
    let m = take_operands::emit(&items[..p.count], names, constants, elements, code, n)?;
    end(p, names, elements, code, m)
}
