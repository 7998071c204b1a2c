// The program `verify` as a function from bytes to bytes.
#![tactic(auto)]

ghost use Rattle.std.specs.Prelude.{◌≡◌, ◌+◌, ◌≤◌, length};
ghost use Rattle.buffer.specs.Sinks.{Puts};
ghost use Rattle.verification.specs.Verify.{answer_line, verify_output, write_line, buffer_after_line};

use answers::Refusal;
use buffer::{Sink, Writer};
use program::LONGEST_INPUT;

// What is answered of an input: 18, then what load refuses of the sheet, then what check drawing answers of the text that follows it.
#[tactic(auto, using(crate::proofs::Lines::too_long_line))]
fn check_input(input: &[u8]) -> Result<(), Refusal>
    ensures { answer_line result ≡ verify_output input.now }
{
    if LONGEST_INPUT < input.len() {
        return Err(Refusal::InputTooLong);
    }
    let loaded = program::load_input(input)?;
    let text = &input[loaded.taken..];
    checkdrawing::check_drawing(loaded.sheet, text)
}

// Puts the line that tells an answer.
fn put_answer(to: &mut Writer, answer: Result<(), Refusal>)
    requires { to.old.filled + length (answer_line answer) ≤ length to.old.out.now }
    ensures { Puts to.old (answer_line answer) to.new }
{
    match answer {
        Ok(()) => to.bytes(b"accepted\n"),
        Err(refusal) => program::put_refused(to, refusal),
    }
}

// No output has more bytes.
pub const LONGEST_LINE: usize = 11;

// The output of `verify` for an input, at the front of the buffer. Refused 17, the buffer is untouched.
pub fn verify(input: &[u8], buffer: &mut [u8]) -> Result<usize, Refusal>
    ensures { (result ≡ write_line input.now buffer.old) × (buffer.new ≡ buffer_after_line input.now buffer.old) }
{
    if buffer.len() < LONGEST_LINE {
        return Err(Refusal::BufferTooShort);
    }
    let mut text = Writer {
        out: buffer,
        filled: 0,
    };
    let answer = check_input(input);
    put_answer(&mut text, answer);
    Ok(text.filled)
}
