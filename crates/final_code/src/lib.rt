// Bodies 3 and 5 of the object: the exits, and the code with its addresses and DOEs. A row's words are take_draft's `row_words`: 1 the kind, 3 how many words of code, 4 how many jumps.
#![tactic(auto)]

ghost use Rattle.std.specs.Prelude.{List, ◌<◌, ◌≤◌, length};
ghost use Rattle.rules_shared.specs.House.{House};
ghost use Rattle.rules_text.specs.Trees.{Statement};
ghost use Rattle.rules_deck.specs.Translation.{translate};
ghost use Rattle.final_addresses.specs.Given.{Holds};
ghost use Rattle.final_code.specs.Settling.{Settling, Ready, Leading, Led};

use final_addresses::Dos;

// The code of an accepted deck; how many words it is.
pub fn code(
    rows: &[u64],
    count: usize,
    dos: &Dos,
    starts: &[u32],
    draft: &[u32],
    out: &mut [u32],
) -> usize
    requires { Ready rows.now count dos.now.loops.now dos.now.count dos.now.jumps.now starts.now draft.now × (400 < length starts.now) × (4096 ≤ length out.old) }
    ensures { (house : House) (deck : List Statement) → Settling house deck rows.now count dos.now.loops.now dos.now.count dos.now.jumps.now starts.now draft.now → Holds out.new result (translate house deck).code }
{
    let mut from = 0;
    let mut j = 0;
    let mut top = 0;
    for i in 0..count {
        let own = rows[5 * i + 3] as usize;
        let many = rows[5 * i + 4] as usize;
        top = final_statement::put_own(
            out,
            top,
            rows[5 * i + 1],
            &draft[from..from + own],
            &dos.jumps[j..j + many],
            starts,
        );
        top = final_statement::put_ends(out, top, dos, i);
        from += own;
        j += many;
    }
    top
}

// The exits of an accepted deck; how many words they are.
pub fn exits(rows: &[u64], count: usize, jumps: &[u32], starts: &[u32], out: &mut [u32]) -> usize
    requires { Led rows.now count jumps.now starts.now × (400 < length starts.now) × (1024 ≤ length out.old) }
    ensures { (house : House) (deck : List Statement) → Leading house deck rows.now count jumps.now starts.now → Holds out.new result (translate house deck).exits }
{
    let mut j = 0;
    let mut top = 0;
    for i in 0..count {
        let many = rows[5 * i + 4] as usize;
        top = final_statement::put_exits(out, top, rows[5 * i + 1], &jumps[j..j + many], starts);
        j += many;
    }
    top
}
