// An object judged, and its map written. Whatever is lent gets one outcome, the book's.
#![tactic(auto)]

ghost use Rattle.std.specs.Prelude.{◌≡◌, ◌^◌, ◌<◌, length};
ghost use Rattle.check_heights.specs.Judged.{Fresh};
ghost use Rattle.check_verdicts.specs.Outcomes.{told, told_written, Checks, Writes, Maps};

use check_meeting::{NEVER, Table};
use limits::CODE;
use object_contents::Object;
use refusals::Reason;

#[repr(C)]
#[derive(Drop)]
pub struct Refusal {
    pub number: u32,
    pub place: u32,
    pub kind: u32,
}

#[repr(C)]
#[derive(Drop)]
pub struct Written {
    pub number: u32,
    pub place: u32,
    pub kind: u32,
    pub length: u32,
}

impl From<Result<Object<'_>, refusals::Refusal>> for Refusal {
    ghost from_gives = { λ r c. c ≡ told r };

    fn from(verdict: Result<Object<'_>, refusals::Refusal>) -> Refusal {
        match verdict {
            Ok(_) => Refusal {
                number: 0,
                place: 0,
                kind: 0,
            },
            Err(refusal) => Refusal {
                number: refusal.reason.number(),
                place: refusal.place,
                kind: refusal.kind,
            },
        }
    }
}

impl From<Result<u32, refusals::Refusal>> for Written {
    ghost from_gives = { λ r c. c ≡ told_written r };

    fn from(written: Result<u32, refusals::Refusal>) -> Written {
        match written {
            Ok(length) => Written {
                number: 0,
                place: 0,
                kind: 0,
                length,
            },
            Err(refusal) => Written {
                number: refusal.reason.number(),
                place: refusal.place,
                kind: refusal.kind,
                length: 0,
            },
        }
    }
}

// ---- check

pub fn check(object: &[u8]) -> Refusal
    ensures { Checks object.now result }
{
    let mut table = [NEVER; CODE];
    Refusal::from(check_object::check(object, &mut table))
}

// ---- map

// Bytes at the start of the output, if there is room; bytes past them stay.
fn write(bytes: &[u8], output: &mut [u8]) -> Result<u32, refusals::Refusal>
    requires { length bytes.now < 2 ^ 32 }
    ensures { Writes bytes.now output.old output.new (told_written result) }
{
    let n = bytes.len();
    if output.len() < n {
        return Err(refusals::Refusal::of(Reason::Room));
    }
    for (i, byte) in bytes.iter().enumerate() {
        output[i] = *byte;
    }
    Ok(n as u32)
}

fn map_with(object: &[u8], output: &mut [u8], table: &mut Table) -> Result<u32, refusals::Refusal>
    requires { Fresh table.old }
    ensures { Maps object.now output.old output.new (told_written result) }
{
    let o = check_object::check(object, table)?;
    let at = o.layout.names;
    write(&object[at..at + 20 * o.layout.name_count], output)
}

// Body 7, an entry of twenty bytes for each name; bytes past it stay.
pub fn map(object: &[u8], table: &mut [u8]) -> Written
    ensures { Maps object.now table.old table.new result }
{
    let mut heights = [NEVER; CODE];
    Written::from(map_with(object, table, &mut heights))
}
