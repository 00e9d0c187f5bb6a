// The cell of an element: its subscripts worked out exactly, each from 1 to its dimension. Nothing is tested here that the check of an object has settled.
#![tactic(auto)]

ghost use Rattle.std.specs.Prelude.{◌≡◌};
ghost use Rattle.refusals.specs.Answers.{maybe};
ghost use Rattle.rules_object.specs.Bytes.{signed_of};
ghost use Rattle.rules_shared.specs.Choose.{in_dimension, right};
ghost use Rattle.rules_object.specs.Machine.{subscript_of, place_of};
ghost use Rattle.object_contents.specs.Layout.{element_at};
ghost use Rattle.run_subscripts.specs.Elements.{subscript_at, SubscriptIn, ElementIn};

// Two's complement.
#[tactic(auto, using(crate::proofs::Laws::signed_cast))]
fn signed(w: u32) -> i64
    ensures { result ≡ signed_of w }
{
    i64::from(w.cast_signed())
}

fn within(dimension: usize, z: i64) -> Option<usize>
    ensures { maybe (λ n. n) result ≡ in_dimension dimension z }
{
    if z <= 0 {
        return None;
    }
    let n = z as usize - 1;
    if n < dimension { Some(n) } else { None }
}

fn subscript(o: &[u8], b: usize, store: &[i64], dimension: usize) -> Option<usize>
    requires { SubscriptIn o.now b store.now }
    ensures { maybe (λ n. n) result ≡ right dimension (subscript_of store.now (subscript_at o.now b)) }
{
    let times = i64::from(object_words::load(o, b));
    let variable = store[object_words::load(o, b + 4) as usize];
    within(
        dimension,
        times * variable + signed(object_words::load(o, b + 8)),
    )
}

// Elements lie by columns.
pub fn element_place(o: &[u8], b: usize, store: &[i64]) -> Option<usize>
    requires { ElementIn o.now b store.now }
    ensures { maybe (λ n. n) result ≡ place_of store.now (element_at o.now b) }
{
    let rows = object_words::load(o, b + 4) as usize;
    let columns = object_words::load(o, b + 8) as usize;
    let i = subscript(o, b + 12, store, rows)?;
    let j = subscript(o, b + 24, store, columns)?;
    Some(j * rows + i)
}
