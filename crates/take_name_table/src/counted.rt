// How many names and cells a table of names has so far.

ghost use Rattle.std.specs.Prelude.{◌≤◌};

#[derive(Clone, Copy)]
pub struct Extent {
    pub names: usize,
    pub cells: usize,
    pub ghost names_fit: { names ≤ 100 },
    pub ghost cells_fit: { cells ≤ 4096 },
}
