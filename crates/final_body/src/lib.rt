// An object's bodies as bytes, one after the other, each in its own part of the output.
#![tactic(auto)]

ghost use Rattle.std.specs.Prelude.{◌≡◌, ◌+◌, ◌*◌, ◌≤◌, length};
ghost use Rattle.rules_object.specs.Bytes.{bytes_of, concat};
ghost use Rattle.object_bodies.specs.Edition.{head};
ghost use Rattle.final_body.specs.Bodies.{over, PutBody, tables};

use object_bodies::{HEAD, KINDS};

// The body's writer, into a part that its words fill.
fn put_words(part: &mut [u8], words: &[u32])
    requires { 4 * length words.now ≡ length part.old }
    ensures { part.new ≡ bytes_of words.now }
{
    let mut at = 0;
    for &word in words {
        object_words::store(part, at, word);
        at += 4;
    }
}

// One body, into the part that starts at its first byte; the answer is the byte after it.
pub fn put_body(out: &mut [u8], at: usize, words: &[u32]) -> usize
    requires { at + 4 * length words.now ≤ length out.old }
    ensures { PutBody out.old at words.now out.new result }
{
    let next = at + 4 * words.len();
    put_words(&mut out[at..next], words);
    next
}

// Every body in the order of its kind.
pub fn put_bodies(out: &mut [u8], bodies: &[&[u32]; KINDS])
    requires { head + 4 * length (concat (tables bodies.now)) ≤ length out.old }
    ensures { out.new ≡ over head (bytes_of (concat (tables bodies.now))) out.old }
{
    let mut at = HEAD;
    for body in bodies {
        at = put_body(out, at, body);
    }
}
