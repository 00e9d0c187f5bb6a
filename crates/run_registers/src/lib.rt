// The registers of the machine, and how an instruction turns them.
#![tactic(auto)]

ghost use Rattle.std.specs.Prelude.{◌≡◌, ◌<◌};
ghost use Rattle.number.specs.Code.{loss_of};
ghost use Rattle.run_registers.specs.Registers.{going_to, onward, marking};

use number::Loss;
use object_opcodes::Halt;

// The instruction to be done, how many places of the stack are used, and the drop mark.
#[derive(Clone, Copy, PartialEq, Eq, Debug)]
pub struct Regs {
    pub index: usize,
    pub height: usize,
    pub mark: u32,
}

#[derive(Clone, Copy, PartialEq, Eq, Debug)]
pub enum Turn {
    Next(Regs),
    Halt(Halt),
    // a READ or PRINT, which is not done here
    Transfer,
}

impl Regs {
    pub fn going_to(self, index: usize, height: usize) -> Regs
        ensures { result ≡ going_to index height self }
    {
        Regs {
            index,
            height,
            ..self
        }
    }

    pub fn onward(self, height: usize) -> Regs
        requires { self.index < 4096 }
        ensures { result ≡ onward height self }
    {
        self.going_to(self.index + 1, height)
    }

    // Told what the instruction lost.
    pub fn marking(self, loss: Loss) -> Regs
        requires { self.index < 4096 }
        ensures { result ≡ marking (loss_of loss) self }
    {
        if loss.digits && self.mark == 0 {
            Regs {
                mark: self.index as u32 + 1,
                ..self
            }
        } else {
            self
        }
    }
}
