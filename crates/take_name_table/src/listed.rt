// The first entries of a table of names, for lookups.

ghost use Rattle.std.specs.Prelude.{◌*◌, ◌≤◌, length};

#[derive(Clone, Copy)]
pub struct Names<'a> {
    pub words: &'a [u64],
    pub count: usize,
    pub ghost room: { 7 * count ≤ length words.now },
}
