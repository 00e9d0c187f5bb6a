// What is lent: 50 to 52, places made 0, the state that goes back, and bytes that are written.
#![tactic(auto)]

ghost use Rattle.std.specs.Prelude.{◌≡◌, List, ◌++◌, ℕ, ◌+◌, ◌≤◌, length, take, drop, ℤ};
ghost use Rattle.std.specs.List.{list_all};
ghost use Rattle.number.specs.Number.{fits};
ghost use Rattle.number.specs.Code.{ruled};
ghost use Rattle.rules_object.specs.Object.{rule_of};
ghost use Rattle.rules_object.specs.Calls.{right52, refused50to52};
ghost use Rattle.object_contents.specs.Layout.{object_at};
ghost use Rattle.run_registers.specs.Registers.{lent_of};
ghost use Rattle.run_lent.specs.Lending.{lent, refused_by, refused_store, Cleared};

use check_meeting::Table;
use limits::STACK;
use number::Rule;
use object_contents::Layout;
use refusals::Reason;
use run_registers::Regs;

fn fit(numbers: &[i64], rule: Rule) -> bool
    ensures { result ≡ list_all (fits (ruled rule)) numbers.now }
{
    numbers.iter().all(|&z| rule.fits(z))
}

// 50 and 51.
pub fn store_wrong(e: &Layout, rule: Rule, store: &[i64]) -> Result<(), Reason>
    ensures { (s : List ℕ) → ruled rule ≡ rule_of (object_at e.now s) → refused_by result ≡ refused_store (object_at e.now s) store.now }
{
    let n = e.cells as usize;
    if store.len() < n {
        return Err(Reason::StoreLength);
    }
    if fit(&store[..n], rule) {
        Ok(())
    } else {
        Err(Reason::StoreNumber)
    }
}

// 52.
fn state_right(
    e: &Layout,
    rule: Rule,
    table: &Table,
    index: u32,
    height: u32,
    mark: u32,
    places: &[i64],
) -> bool
    requires { (e.now.code_count ≤ 4096) × (length places.now ≡ 40) }
    ensures { (s : List ℕ) → ruled rule ≡ rule_of (object_at e.now s) → result ≡ right52 (object_at e.now s) (take e.now.code_count table.now) (lent index height mark places.now) }
{
    // A ladder: tried as one `&&`, whose value the check knows only by a case for each part.
    if e.code_count <= index as usize {
        return false;
    }
    let h = u32::from(table[index as usize]);
    if h > STACK as u32 {
        return false;
    }
    if height != h {
        return false;
    }
    if !fit(&places[..height as usize], rule) {
        return false;
    }
    mark as usize <= e.code_count
}

// 50 to 52.
pub fn lent_wrong(
    e: &Layout,
    rule: Rule,
    table: &Table,
    store: &[i64],
    index: u32,
    height: u32,
    mark: u32,
    places: &[i64],
) -> Result<(), Reason>
    requires { (e.now.code_count ≤ 4096) × (length places.now ≡ 40) }
    ensures { (s : List ℕ) → ruled rule ≡ rule_of (object_at e.now s) → refused_by result ≡ refused50to52 (object_at e.now s) (take e.now.code_count table.now) store.now (lent index height mark places.now) }
{
    store_wrong(e, rule, store)?;
    if state_right(e, rule, table, index, height, mark, places) {
        Ok(())
    } else {
        Err(Reason::State)
    }
}

// Places from the height on are 0.
pub fn clear(places: &mut [i64], height: usize)
    requires { (height ≤ 40) × (length places.old ≡ 40) }
    ensures { Cleared places.old places.new height }
{
    places[height..].fill(0);
}

pub fn give_back(r: Regs, index: &mut u32, height: &mut u32, mark: &mut u32)
    requires { (r.index ≤ 4096) × (r.height ≤ 4096) }
    ensures { (places : List ℤ) → lent index.new height.new mark.new places ≡ lent_of r places }
{
    *index = r.index as u32;
    *height = r.height as u32;
    *mark = r.mark;
}

// n bytes from `at` on, to the start of `to`.
pub fn copy(from: &[u8], at: usize, to: &mut [u8], n: usize)
    requires { (at + n ≤ length from.now) × (n ≤ length to.old) }
    ensures { to.new ≡ take n (drop at from.now) ++ drop n to.old }
{
    to[..n].copy_from_slice(&from[at..at + n]);
}
