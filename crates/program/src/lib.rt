// The program `plate` as a function from bytes to bytes.
#![tactic(auto)]

ghost use Rattle.std.specs.Prelude.{◌≡◌, ◌+◌, ◌≤◌, length, drop};
ghost use Rattle.buffer.specs.Sinks.{Puts};
ghost use Rattle.preservation.specs.Laws.{Whole};
ghost use Rattle.drawing.specs.Write.{drawing_text_of};
ghost use Rattle.program.specs.Program.{refused_line, edits_output, after_line, input_form, load_input, plate_output, write_output, buffer_after_output};

use answers::Refusal;
use buffer::Writer;
use load::{Form, Loaded};
use sheet::Sheet;

// Puts a line `refused=` and number.
pub fn put_refused(to: &mut Writer, refusal: Refusal)
    requires { to.old.filled + length (refused_line refusal) ≤ length to.old.out.now }
    ensures { Puts to.old (refused_line refusal) to.new }
{
    buffer::put_line(to, b"refused=", &[refusal.number()]);
}

// Puts the drawing of a sound sheet.
fn put_drawing(to: &mut Writer, s: Sheet)
    requires sound { Whole s }
    requires room { to.old.filled + length (drawing_text_of s) ≤ length to.old.out.now }
    ensures { Puts to.old (drawing_text_of s) to.new }
{
    to.filled += writedrawing::write_drawing(s, &mut to.out[to.filled..]).unwrap();
}

// Edit lines from a place of the input to its end: puts a line for each refused edit, then the drawing. The loop goes from line to line: no `for` fits. A place,
// no slice: load tells where the edit lines begin.
fn put_edits(to: &mut Writer, input: &[u8], start: usize, s: Sheet)
    requires sound { Whole s }
    requires room { to.old.filled + length (edits_output (length input.now) s (drop start input.now)) ≤ length to.old.out.now }
    ensures { Puts to.old (edits_output (length input.now) s (drop start input.now)) to.new }
{
    let mut sheet = s;
    let mut at = start;
    while at < input.len() {
        let read = edit::read_edit(&input[at..]);
        match apply::apply(sheet, read.edit) {
            Ok(made) => sheet = made,
            Err(refusal) => put_refused(to, refusal),
        }
        at += read.taken;
    }
    put_drawing(to, sheet);
}

// What follows the first line of a text.
#[tactic(auto, using(crate::proofs::Edits::line_most))]
fn after_line(text: &[u8]) -> &[u8]
    ensures { result.now ≡ after_line text.now }
{
    &text[edit::line_length(text)..]
}

// The form of an input's sheet: of links where its third line begins with `link=`.
fn input_form(input: &[u8]) -> Form
    ensures { result ≡ input_form input.now }
{
    if after_line(after_line(input)).starts_with(b"link=") {
        Form::Undirected
    } else {
        Form::Directed
    }
}

// Reads the sheet of an input, by its form.
pub fn load_input(input: &[u8]) -> Result<Loaded, Refusal>
    ensures { result ≡ load_input input.now }
{
    match input_form(input) {
        Form::Directed => load::load(input),
        Form::Undirected => load::load_links(input),
    }
}

// No input may have more bytes.
pub const LONGEST_INPUT: usize = 16384;

// Puts the whole output.
fn put_output(to: &mut Writer, input: &[u8])
    requires { to.old.filled + length (plate_output input.now) ≤ length to.old.out.now }
    ensures { Puts to.old (plate_output input.now) to.new }
{
    if LONGEST_INPUT < input.len() {
        return put_refused(to, Refusal::InputTooLong);
    }
    match load_input(input) {
        Ok(loaded) => put_edits(to, input, loaded.taken, loaded.sheet),
        Err(refusal) => put_refused(to, refusal),
    }
}

// No output has more bytes.
pub const LONGEST_OUTPUT: usize = 187031;

// The output of `plate` for an input, at the front of the buffer. Refused 17, the buffer is untouched.
pub fn plate(input: &[u8], buffer: &mut [u8]) -> Result<usize, Refusal>
    ensures { (result ≡ write_output input.now buffer.old) × (buffer.new ≡ buffer_after_output input.now buffer.old) }
{
    if buffer.len() < LONGEST_OUTPUT {
        return Err(Refusal::BufferTooShort);
    }
    let mut text = Writer {
        out: buffer,
        filled: 0,
    };
    put_output(&mut text, input);
    Ok(text.filled)
}
