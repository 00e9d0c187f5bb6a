// The address of every statement: the words of code before it, a DOE among them for each DO that ends there.
#![tactic(auto)]

ghost use Rattle.std.specs.Prelude.{◌≡◌, List, ◌<◌, length};
ghost use Rattle.rules_shared.specs.House.{House};
ghost use Rattle.rules_text.specs.Trees.{Statement};
ghost use Rattle.final_addresses.specs.Given.{Judged, Given, Starts};
ghost use Rattle.final_addresses.specs.Ends.{last_at, ends_at};

mod dos;

pub use dos::Dos;

impl Dos<'_> {
    // The position of the last statement of the d-th.
    pub fn last(&self, d: usize) -> usize
        requires { d < self.now.count }
        ensures { result ≡ last_at self.now.loops.now self.now.jumps.now d }
    {
        self.jumps[self.loops[2 * d + 1] as usize] as usize
    }

    // How many end with the statement at position i.
    pub fn ending(&self, i: usize) -> usize
        ensures { result ≡ length (ends_at self.now.loops.now self.now.jumps.now i self.now.count) }
    {
        let mut many = 0;
        for d in 0..self.count {
            if self.last(d) == i {
                many += 1;
            }
        }
        many
    }
}

// Every statement's address, and the one after the last.
pub fn addresses(rows: &[u64], count: usize, dos: &Dos, starts: &mut [u32])
    requires { Given rows.now count dos.now.loops.now dos.now.count dos.now.jumps.now × (count < length starts.old) }
    ensures { (house : House) (deck : List Statement) → Judged house deck rows.now count dos.now.loops.now dos.now.count dos.now.jumps.now → Starts deck starts.new }
{
    let mut at = 0;
    starts[0] = 0;
    for i in 0..count {
        let own = rows[5 * i + 3] as usize;
        at = at + own + dos.ending(i);
        starts[i + 1] = at as u32;
    }
}
