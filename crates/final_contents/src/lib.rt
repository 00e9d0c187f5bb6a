// An object's contents: what stands before its bodies.
#![tactic(auto)]

ghost use Rattle.std.specs.Prelude.{◌≡◌, ◌+◌, ◌*◌, ◌^◌, ◌<◌, ◌≤◌, length};
ghost use Rattle.rules_object.specs.Bytes.{concat};
ghost use Rattle.object_bodies.specs.Edition.{head};
ghost use Rattle.final_body.specs.Bodies.{PutBody, tables};
ghost use Rattle.final_contents.specs.Contents.{contents_words};

use final_body::put_body;
use object_bodies::{EDITION, HEAD, KINDS};

// Where an object ends that has these bodies.
pub fn end_of(bodies: &[&[u32]; KINDS]) -> usize
    requires { head + 4 * length (concat (tables bodies.now)) < 2 ^ 32 }
    ensures { result ≡ head + 4 * length (concat (tables bodies.now)) }
{
    let mut end = HEAD;
    for body in bodies {
        end += 4 * body.len();
    }
    end
}

// Edition, k, cells and how many bodies; then of each body its kind, first byte and length in bytes.
pub fn put_contents(out: &mut [u8], k: u32, cells: u32, bodies: &[&[u32]; KINDS])
    requires room { head ≤ length out.old }
    requires words { head + 4 * length (concat (tables bodies.now)) < 2 ^ 32 }
    ensures { PutBody out.old 0 (contents_words k cells (tables bodies.now)) out.new head }
{
    let mut at = put_body(out, 0, &[EDITION, k, cells, KINDS as u32]);
    let mut first = HEAD;
    for kind in 0..KINDS {
        let length = 4 * bodies[kind].len();
        at = put_body(out, at, &[kind as u32 + 1, first as u32, length as u32]);
        first += length;
    }
}
