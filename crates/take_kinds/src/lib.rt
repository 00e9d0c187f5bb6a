// The kinds of statements, as a plan and a row have them.
#![tactic(auto)]

ghost use Rattle.std.specs.Prelude.{◌≡◌};
ghost use Rattle.take_kinds.specs.Kinds.{word_of};

#[derive(Clone, Copy, PartialEq, Eq, Debug)]
pub enum Kind {
    Assignment = 0,
    GoTo = 1,
    Computed = 2,
    If = 3,
    Do = 4,
    Continue = 5,
    Stop = 6,
    End = 7,
    Dimension = 8,
}

impl Kind {
    // As a row has it.
    pub fn word(self) -> u64
        ensures { result ≡ word_of self }
    {
        self as u64
    }
}
