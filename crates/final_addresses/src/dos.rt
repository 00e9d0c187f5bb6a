// The DOs of a deck: of each its position and where its last statement's number stands in the jumps, which have positions for the numbers.

ghost use Rattle.final_addresses.specs.Ends.{Lasts};
ghost use Rattle.final_addresses.specs.Proposition.{lasts_prop};

#[derive(Clone, Copy)]
pub struct Dos<'a> {
    pub loops: &'a [u32],
    pub count: usize,
    pub jumps: &'a [u32],
    ghost lasts: { Lasts loops.now count jumps.now } by { lasts_prop loops.now count jumps.now },
}
