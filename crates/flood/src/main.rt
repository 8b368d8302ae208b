// The run program (document 01, "The run program"): reads a state, a table and events from standard input and prints how the run ended and
// the present peers. It only reads and writes: what it prints is worked out by `console::answer`, which is proved to give 01's bytes.
//
// What it promises: where nothing fails it writes exactly the bytes of `flood_of` (console, specs/Console.antt) of all that it is given.
// That is proved of every reader and writer whose bytes are known, however few bytes a read gives at a time; what standard input gives and
// standard output takes, no proof knows. Nothing is allocated. A read that fails, also one that a signal interrupts, and a write that fails
// end the program with that error.
//
// Read on: proofs/FloodLaws.antt (what the reads put together; one byte more than is taken is enough; the whole answer is written).
#![tactic(auto)]

ghost use Rattle.std.specs.Prelude.{◌≡◌, take, length, OnOk, IfOk, IfSome};
ghost use Rattle.std.specs.Io.{ReadsAtMost};
ghost use Rattle.std.specs.Io.KnownBytes.{Appends};
ghost use Rattle.console.specs.Console.{flood_of};

use std::io;
use std::io::{Read, Write};

// Reads the input to its end, but at most as much as the buffer holds. (A read gives as many bytes as it likes, and the library's loops that read on
// ask for a Vec or for an exact number.)
fn read<R: Read>(input: &mut R, buf: &mut [u8]) -> io::Result<usize>
    ensures bound { ReadsAtMost result buf.new }
    ensures bytes { IfOk result (λ n. IfSome (R.remaining input.old) (λ bytes. take n buf.new ≡ take (length buf.old) bytes)) }
{
    let mut n: usize = 0;
    while n < buf.len() {
        let k = input.read(&mut buf[n..])?;
        if k == 0 {
            return Ok(n);
        }
        n += k;
    }
    Ok(n)
}

// Writes what is printed for an input.
fn print<W: Write>(input: &[u8], output: &mut W) -> io::Result<()>
    ensures { OnOk result (Appends (W.contents output.old) (W.contents output.new) (flood_of input.now)) }
{
    let mut out = [0u8; 1024];
    let length = console::answer(input, &mut out);
    output.write_all(&out[..length])
}

// Reads all, then writes what is printed for it. The buffer holds one byte more than is taken, so that a longer input is noticed and
// refused by 17.
fn run<R: Read, W: Write>(input: &mut R, output: &mut W) -> io::Result<()>
    ensures { OnOk result (IfSome (R.remaining input.old)
        (λ bytes. Appends (W.contents output.old) (W.contents output.new) (flood_of bytes))) }
{
    let mut bytes = [0u8; 65537];
    let n = read(input, &mut bytes)?;
    print(&bytes[..n], output)
}

fn main(rt: HostRuntime) -> io::Result<()> {
    run(&mut rt.stdin(), &mut rt.stdout())
}
