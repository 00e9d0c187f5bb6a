// The whole check of an object: 40, 41, 42, 43 and 44, in this order.
#![tactic(auto)]

ghost use Rattle.std.specs.Prelude.{◌≡◌, true, ◌<◌};
ghost use Rattle.refusals.specs.Answers.{refusal_of};
ghost use Rattle.refusals.specs.Numbers.{number_of};
ghost use Rattle.rules_object.specs.Check.{right41};
ghost use Rattle.rules_shared.specs.Refusals.{refusal};
ghost use Rattle.rules_object.specs.Calls.{checked};
ghost use Rattle.object_contents.specs.Book.{book_of};
ghost use Rattle.check_heights.specs.Judged.{Fresh};
ghost use Rattle.check_object.specs.Verdicts.{Says, Judges};

use check_entries::Entry;
use check_meeting::Table;
use number::Rule;
use object_contents::Object;
use refusals::{Reason, Refusal};

fn at(reason: Reason, entry: Entry) -> Refusal
    requires { entry.index < 4096 }
    ensures { refusal_of result ≡ refusal (number_of reason) entry.index entry.kind }
{
    Refusal {
        reason,
        place: entry.index as u32,
        kind: entry.kind,
    }
}

// 42 to 44.
fn judge(o: &Object, table: &mut Table) -> Result<(), Refusal>
    requires right { right41 (book_of o.now) ≡ true }
    requires fresh { Fresh table.old }
    ensures { Judges result o.now table.new }
{
    if let Some(entry) = check_entries::entries(o) {
        return Err(at(Reason::Entry, entry));
    }
    if let Some(entry) = check_operands::words(o.bytes, &o.layout) {
        return Err(at(Reason::Instruction, entry));
    }
    if !check_heights::heights_of(o.bytes, o.layout, table) {
        return Err(Refusal::of(Reason::Heights));
    }
    Ok(())
}

// Any bytes. The table is lent all NEVER; an object that passes leaves in it the height of each instruction.
pub fn check<'a>(bytes: &'a [u8], table: &mut Table) -> Result<Object<'a>, Refusal>
    requires { Fresh table.old }
    ensures { Says result bytes.now table.new (checked bytes.now) }
{
    let Some(layout) = object_contents::contents_of(bytes) else {
        return Err(Refusal::of(Reason::Contents));
    };
    if !check_entries::limits_right(layout) {
        return Err(Refusal::of(Reason::Limits));
    }
    let rule = Rule::of_digits(layout.digits as usize);
    let object = Object {
        bytes,
        layout,
        rule,
    };
    judge(&object, table)?;
    Ok(object)
}
