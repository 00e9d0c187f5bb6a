// The object writer: the contents, then the bodies.
#![tactic(auto)]

ghost use Rattle.std.specs.Prelude.{◌≡◌, ◌+◌, ◌*◌, ◌^◌, ◌<◌, length};
ghost use Rattle.rules_object.specs.Bytes.{bytes_of, concat};
ghost use Rattle.rules_shared.specs.Refusals.{no_room};
ghost use Rattle.rules_shared.specs.Output.{write};
ghost use Rattle.object_bodies.specs.Edition.{head};
ghost use Rattle.final_body.specs.Bodies.{tables};
ghost use Rattle.final_contents.specs.Contents.{words_of_bodies};
ghost use Rattle.final_writer.specs.Answer.{answer, Low};

use object_bodies::KINDS;
use refusals::Reason;

// The object of k digits that has these bodies; how many bytes it is. Nothing is written unless all of it fits, and the bytes past it stay.
pub fn write(out: &mut [u8], k: u32, cells: u32, bodies: &[&[u32]; KINDS]) -> Result<usize, Reason>
    requires { head + 4 * length (concat (tables bodies.now)) < 2 ^ 32 }
    ensures { (answer result out.new ≡ write no_room (bytes_of (words_of_bodies k cells (tables bodies.now))) out.old) × Low result }
{
    let end = final_contents::end_of(bodies);
    if out.len() < end {
        return Err(Reason::Room);
    }
    final_contents::put_contents(out, k, cells, bodies);
    final_body::put_bodies(out, bodies);
    Ok(end)
}
