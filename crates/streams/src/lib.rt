// Standard input and output: the one crate that reads and writes. No contract can say which bytes the system gave or took, so what is said here is how many.
#![tactic(auto)]

ghost use Rattle.std.specs.Prelude.{◌+◌, ◌<◌, ◌^◌, ◌≡◌, true, ◌&&◌, length};
ghost use Rattle.io.specs.Counts.{IsPrefixLen};

use std::io::{Read, Stdin, Stdout, Write};

// The receipt for a text that was handed to standard output: how many bytes it has, and whether all were taken. Its fields are this crate's alone, so that a program
// has a receipt only for what it printed.
#[derive(Clone, Copy)]
pub struct Printed {
    bytes: usize,
    whole: bool,
}

// Reads once: how many bytes came to the start of the chunk, and none at the end of the input or where the read failed.
pub fn read_some(input: &mut Stdin, chunk: &mut [u8]) -> usize
    ensures { IsPrefixLen result chunk.new }
{
    // Kept: 0 for a read that failed too; the programs end on both, and the clause counts bytes.
    input.read(chunk).unwrap_or(0)
}

// Reads until the buffer is full or the input ends.
pub fn read_all(input: &mut Stdin, buffer: &mut [u8]) -> usize
    ensures { IsPrefixLen result buffer.new }
{
    let mut done = 0;
    // Kept: the step is what a read brings; `read_exact` and `read_to_end` say little of a read that fails.
    while done < buffer.len() {
        let n = read_some(input, &mut buffer[done..]);
        if n == 0 {
            break;
        }
        done += n;
    }
    done
}

// Hands a text to standard output.
pub fn print(output: &mut Stdout, text: &[u8]) -> Printed
    ensures { result.bytes ≡ length text.now }
{
    Printed {
        bytes: text.len(),
        whole: output.write_all(text).is_ok(),
    }
}

// The receipt for no text.
pub fn nothing() -> Printed
    ensures { (result.bytes ≡ 0) × (result.whole ≡ true) }
{
    Printed {
        bytes: 0,
        whole: true,
    }
}

// The receipt for two texts, one behind the other.
pub fn both(first: Printed, second: Printed) -> Printed
    requires { first.bytes + second.bytes < 2 ^ 64 }
    ensures { (result.bytes ≡ first.bytes + second.bytes) × (result.whole ≡ (first.whole && second.whole)) }
{
    Printed {
        bytes: first.bytes + second.bytes,
        whole: first.whole && second.whole,
    }
}

// All of the text was taken.
pub fn is_whole(p: Printed) -> bool
    ensures { result ≡ p.whole }
{
    p.whole
}
