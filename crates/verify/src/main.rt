// The program `verify`: reads standard input, and writes the output for it to standard output.
#![tactic(auto)]

ghost use Rattle.std.specs.Prelude.{◌≡◌, true, IfSome};
ghost use Rattle.std.proofs.Common.{sym, ◌∙◌};
ghost use Rattle.std.specs.Io.KnownBytes.{Appends};
ghost use Rattle.streams.specs.Streams.{AppendsFront};
ghost use Rattle.verification.specs.Verify.{verify_output, longest_line};
ghost use Rattle.verification.proofs.Lines.{too_long};

use std::io::{Read, Write};
use streams::Program;
use verification::LONGEST_LINE;

// What it prints.
struct Verify;

impl Program for Verify {
    ghost output = { verify_output };

    ghost longest = { longest_line };

    ghost too_long = { λ input other h k. too_long input h ∙ sym (too_long other k) };

    fn print(input: &[u8], buffer: &mut [u8]) -> usize {
        verification::verify(input, buffer).unwrap()
    }
}

// Reads an input and writes the output for it, and tells whether all was read and written. Where a read fails, nothing is written.
fn run<R: Read, W: Write>(reader: &mut R, writer: &mut W) -> bool
    ensures front { IfSome (R.remaining reader.old) (λ input. AppendsFront (W.contents writer.old) (W.contents writer.new) (verify_output input)) }
    ensures whole { result ≡ true → IfSome (R.remaining reader.old) (λ input. Appends (W.contents writer.old) (W.contents writer.new) (verify_output input)) }
{
    let mut output = streams::buffer::<LONGEST_LINE>();
    streams::run::<Verify, R, W>(reader, writer, &mut output)
}

fn main(rt: HostRuntime) {
    run(&mut rt.stdin(), &mut rt.stdout());
}
