// Reads the input of a program, and writes the output for it.
#![tactic(auto)]

ghost use Rattle.std.specs.Prelude.{ℕ, ◌≡◌, ◌≤◌, ◌<◌, true, List, length, take, IfSome, IfOk};
ghost use Rattle.std.specs.Counts.{IsPrefixLen};
ghost use Rattle.std.specs.Io.KnownBytes.{Appends, Consumes, IsAtEnd};
ghost use Rattle.streams.specs.Streams.{AppendsFront};

use std::io::{self, Read, Write};

// A buffer of N bytes.
pub fn buffer<const N: usize>() -> [u8; N]
    ensures { N ≡ length result }
{
    [0; N]
}

// Reads until the buffer is full or the input ends, and returns how many bytes there were; or fails as a read fails.
fn read_input<R: Read>(reader: &mut R, input: &mut [u8]) -> io::Result<usize>
    ensures in_bounds { IfOk result (λ count. IsPrefixLen count input.new) }
    ensures bytes { IfOk result (λ count. Consumes (R.remaining reader.old) (R.remaining reader.new) (take count input.new)) }
    ensures all { IfOk result (λ count. count < length input.new → IsAtEnd (R.remaining reader.new)) }
{
    // Not `read_to_end`: there is no heap.
    let mut at = 0;
    while at < input.len() {
        match reader.read(&mut input[at..])? {
            0 => break,
            more => at += more,
        }
    }
    Ok(at)
}

// Writes until a write fails or takes nothing, and returns how many bytes were written.
fn write_bytes<W: Write>(writer: &mut W, bytes: &[u8]) -> usize
    ensures in_bounds { IsPrefixLen result bytes.now }
    ensures written { Appends (W.contents writer.old) (W.contents writer.new) (take result bytes.now) }
{
    // Not `write_all`: it says nothing of how much was written where it fails.
    let mut done = 0;
    while done < bytes.len() {
        match writer.write(&bytes[done..]) {
            Ok(0) => break,
            Ok(more) => done += more,
            Err(_) => break,
        }
    }
    done
}

// A program from bytes to bytes.
pub trait Program {
    // the output for an input, and how long a buffer it needs
    ghost output: { List ℕ → List ℕ };

    ghost longest: { ℕ };

    // The output for an input, at the front of the buffer; its length.
    fn print(input: &[u8], buffer: &mut [u8]) -> usize
        requires { longest ≤ length buffer.old }
        ensures in_bounds { IsPrefixLen result buffer.new }
        ensures output { take result buffer.new ≡ output input.now };

    // inputs of more than 16,384 bytes all have the same
    ghost too_long: { (input other : List ℕ) → 16384 < length input → 16384 < length other → output input ≡ output other };
}

// Writes the output for an input, and tells whether all of it was written. Where the writer takes no more, the rest is not written.
fn answer<P: Program, W: Write>(writer: &mut W, input: &[u8], buffer: &mut [u8]) -> bool
    requires { P.longest ≤ length buffer.old }
    ensures front { AppendsFront (W.contents writer.old) (W.contents writer.new) (P.output input.now) }
    ensures whole { result ≡ true → Appends (W.contents writer.old) (W.contents writer.new) (P.output input.now) }
{
    let count = P::print(input, buffer);
    let output = &buffer[..count];
    write_bytes(writer, output) == count
}

// Reads an input and writes the output for it, and tells whether all was read and written. Where a read fails, nothing is written.
pub fn run<P: Program, R: Read, W: Write>(reader: &mut R, writer: &mut W, output: &mut [u8]) -> bool
    requires { P.longest ≤ length output.old }
    ensures front { IfSome (R.remaining reader.old) (λ input. AppendsFront (W.contents writer.old) (W.contents writer.new) (P.output input)) }
    ensures whole { result ≡ true → IfSome (R.remaining reader.old) (λ input. Appends (W.contents writer.old) (W.contents writer.new) (P.output input)) }
{
    // One byte more than an input may have: the rest of one that fills it is not read.
    let mut input = buffer::<16385>();
    match read_input(reader, &mut input) {
        Ok(count) => answer::<P, W>(writer, &input[..count], output),
        Err(_) => false,
    }
}
