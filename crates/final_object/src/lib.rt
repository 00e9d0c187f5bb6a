// The object of a deck that nothing refuses, from its draft: addresses, code, exits, DO bodies, lines and names, and then all its bytes.
#![tactic(auto)]

ghost use Rattle.std.specs.Prelude.{◌≡◌, ◌≤◌, List, length};
ghost use Rattle.rules_object.specs.Bytes.{bytes_of, object_bytes};
ghost use Rattle.rules_shared.specs.Refusals.{no_room};
ghost use Rattle.rules_shared.specs.Output.{write};
ghost use Rattle.rules_shared.specs.House.{house1401};
ghost use Rattle.rules_text.specs.Trees.{Statement};
ghost use Rattle.rules_deck.specs.Translation.{translate};
ghost use Rattle.take_draft.specs.Kept.{words_of, Fit};
ghost use Rattle.final_contents.specs.Contents.{words_of_bodies};
ghost use Rattle.final_writer.specs.Answer.{answer, Low};
ghost use Rattle.final_object.specs.Finishing.{Finishes, Finished, with_dos, parts};

use final_addresses::Dos;
use limits::{CODE, EXITS, NAMES, STATEMENTS};
use object_bodies::{ELEMENT, LINE, LOOP, NAME};
use refusals::Reason;
use take_draft::{Counts, Tables};

// Words of the bodies of statements and of names.
const LINE_WORDS: usize = LINE * STATEMENTS;

const NAME_WORDS: usize = NAME * NAMES;

// Its bodies in the order of their kinds. (Tried in `finish`, and no proof: the borrow checker has no rule for an array of references to parts of its own tables.)
fn write(
    k: u32,
    n: Counts,
    t: &Tables,
    exits: &[u32],
    dos: &[u32],
    code: &[u32],
    lines: &[u32],
    names: &[u32],
    output: &mut [u8],
) -> Result<usize, Reason>
    requires fit { Fit n }
    requires short { (length exits.now ≤ 1024) × (length dos.now ≡ 256) × (length code.now ≤ 4096) × (length lines.now ≤ 1200) × (length names.now ≤ 500) }
    ensures { (answer result output.new ≡ write no_room (bytes_of (words_of_bodies k n.cells (parts n (with_dos (words_of t.now) dos.now) exits.now code.now lines.now names.now))) output.old) × Low result }
{
    final_writer::write(
        output,
        k,
        n.cells as u32,
        &[
            &t.constants[..n.constants],
            &t.elements[..ELEMENT * n.elements],
            exits,
            &dos[..LOOP * n.dos],
            code,
            lines,
            names,
        ],
    )
}

// The draft's tables, with positions for the numbers in the jumps; how many bytes the object is.
pub fn finish(k: u32, n: Counts, t: &Tables, output: &mut [u8]) -> Result<usize, Reason>
    requires { Finishes k n (words_of t.now) }
    ensures { ((deck : List Statement) → Finished k deck n (words_of t.now) → answer result output.new ≡ write no_room (object_bytes (translate (house1401 k) deck)) output.old) × Low result }
{
    let dos = Dos {
        loops: t.loops,
        count: n.dos,
        jumps: t.jumps,
    };
    let mut starts = [0u32; STATEMENTS + 1];
    final_addresses::addresses(t.rows, n.statements, &dos, &mut starts);
    let mut code = [0u32; CODE];
    let words = final_code::code(t.rows, n.statements, &dos, &starts, t.code, &mut code);
    let mut exits = [0u32; EXITS];
    let exit_words = final_code::exits(t.rows, n.statements, t.jumps, &starts, &mut exits);
    let mut entries = *t.dos;
    final_lines::bodies(t.loops, n.dos, &starts, &mut entries);
    let mut lines = [0u32; LINE_WORDS];
    let line_words = final_lines::lines(t.rows, n.statements, &starts, &mut lines);
    let mut names = [0u32; NAME_WORDS];
    final_lines::names(t.names, n.names, &mut names);
    write(
        k,
        n,
        t,
        &exits[..exit_words],
        &entries,
        &code[..words],
        &lines[..line_words],
        &names[..NAME * n.names],
        output,
    )
}
