// Bodies 4, 6 and 7 of the object: the DOs with their bodies' addresses, the statements, the names.
#![tactic(auto)]

ghost use Rattle.std.specs.Prelude.{◌≡◌, List, map, ◌+◌, ◌*◌, ◌/◌, ◌<◌, ◌≤◌, length, take};
ghost use Rattle.rules_shared.specs.House.{House};
ghost use Rattle.rules_object.specs.Bytes.{concat, loop_words, line_words, name_words};
ghost use Rattle.rules_text.specs.Trees.{Statement};
ghost use Rattle.rules_deck.specs.Deck.{dos_of};
ghost use Rattle.rules_deck.specs.Translation.{held_of, loop_entry, lines_from, names_from};
ghost use Rattle.final_addresses.specs.Given.{Rows, Loops, Rowed, Looped, Starts, Holds};
ghost use Rattle.final_lines.specs.Names.{Names, Listed};
ghost use Rattle.take_draft.specs.Sketch.{open_entry};

use object_bodies::NAME;
use take_name_table::{COLUMNS, ENTRY_WORDS, FIRST, ROWS};

// Each DO's body is the statement after it. (The clauses count the DOs, and so the entries of `dos`: a slice of `loops` would say no more.)
pub fn bodies(loops: &[u32], n: usize, starts: &[u32], dos: &mut [u32])
    requires { Looped loops.now n × (400 < length starts.now) × (4 * n ≤ length dos.old) }
    ensures { (house : House) (deck : List Statement) → Loops house deck loops.now n → Starts deck starts.now → take (4 * n) dos.old ≡ concat (map loop_words (map (open_entry deck) (dos_of deck))) → take (4 * n) dos.new ≡ concat (map loop_words (map (loop_entry deck) (dos_of deck))) }
{
    for i in 0..n {
        dos[4 * i + 3] = starts[loops[2 * i] as usize + 1];
    }
}

// Sequence, number and address of every statement but DIMENSION; how many words they are.
pub fn lines(rows: &[u64], count: usize, starts: &[u32], out: &mut [u32]) -> usize
    requires { Rowed rows.now count × (count ≤ length starts.now) × (3 * count ≤ length out.old) }
    ensures { (house : House) (deck : List Statement) → Rows house deck rows.now count → Starts deck starts.now → Holds out.new result (concat (map line_words (lines_from deck 0 deck))) }
{
    let mut top = 0;
    for i in 0..count {
        top = final_entries::put_statement(
            out,
            top,
            rows[5 * i + 1],
            i as u32 + 1,
            rows[5 * i] as u32,
            starts[i],
        );
    }
    top
}

// The first n names, five words an entry: eight bytes, which a name's first word has, first cell, rows and columns. (The clauses count the names, of `table` and of `out`.)
pub fn names(table: &[u64], n: usize, out: &mut [u32])
    requires { Listed table.now n × (5 * n ≤ length out.old) }
    ensures { (house : House) (deck : List Statement) → Names house deck table.now n → take (5 * n) out.new ≡ concat (map name_words (names_from house 0 (held_of deck))) }
{
    for i in 0..n {
        let at = ENTRY_WORDS * i;
        let first = table[at + FIRST] as u32;
        let rows = table[at + ROWS] as u32;
        let columns = table[at + COLUMNS] as u32;
        final_entries::put_name(out, NAME * i, table[at], first, rows, columns);
    }
}
