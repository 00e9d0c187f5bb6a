// The program of 01 "Worked examples": a control card and a deck on standard input; what they come to on standard output.
#![tactic(auto)]

ghost use Rattle.std.specs.Prelude.{◌≤◌, length, IfOk};

use std::io;
use std::io::{Read, Write};

// Fills the buffer from its start, until it is full or the input ends; answers how many bytes it put there.
fn read_full<R: Read>(input: &mut R, buffer: &mut [u8]) -> io::Result<usize>
    ensures { IfOk result (λ n. n ≤ length buffer.new) }
{
    let mut done = 0;
    while done < buffer.len() {
        let n = input.read(&mut buffer[done..])?;
        if n == 0 {
            break;
        }
        done += n;
    }
    Ok(done)
}

// More than a control card and the greatest deck: of a longer input the rest is not needed, for its length is wrong already.
fn main(rt: HostRuntime) -> io::Result<()> {
    let mut input = [0u8; 65536];
    let n = read_full(&mut rt.reader(), &mut input)?;
    let mut output = [0u8; 168000];
    let m = program::answer(&input[..n], &mut output);
    io::writer(&rt).write_all(&output[..m])
}
