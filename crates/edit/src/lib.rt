// Edits of a sheet, as lines of text and as calls.
#![tactic(auto)]

ghost use Rattle.std.specs.Prelude.{◌≡◌};
ghost use Rattle.text.specs.Reading.{numbers_of, last_line_at};
ghost use Rattle.edit.specs.Calls.{sheet_after};
ghost use Rattle.edit.specs.Inner.{counted};
ghost use Rattle.edit.specs.Lines.{edit_of, edit_answer, line_length, read_edit};

use answers::Refusal;
use sheet::Sheet;
use text::Reader;

// An edit: put in (wire), run (bar, wire, bar, wire), take out a wire, take out a bar;
// or the refusal of a line that is not of the layout: a case of its own, since the specification names a refusal case of this enum.
#[derive(Clone, Copy)]
pub enum Edit {
    In(u16),
    Run(u16, u16, u16, u16),
    Out(u16),
    Off(u16),
    Refused,
}

// What read edit answers: the edit, or the refusal of the line, and how many bytes the line took.
#[derive(Clone, Copy)]
pub struct EditRead {
    pub edit: Edit,
    pub taken: usize,
}

impl Edit {
    // Read edit refuses by 1 alone: line not of the layout.
    pub fn answer(self) -> Result<(), Refusal>
        ensures { result ≡ edit_answer self }
    {
        match self {
            Edit::Refused => Err(Refusal::BadLayout),
            _ => Ok(()),
        }
    }
}

// How many bytes the line at the front of a text has, its byte 10 included.
pub fn line_length(text: &[u8]) -> usize
    ensures { result ≡ line_length text.now }
{
    text.iter()
        .position(|&b| b == b'\n')
        .map_or(text.len(), |i| i + 1)
}

// The numbers of the line at the front of a text, if it has the key and so many of them. Four by a count: an array of the length asked for
// would be a second one, copied out of the four through a conversion that may fail.
fn numbers(text: &[u8], key: &[u8], count: usize) -> Option<[u16; 4]>
    ensures { result ≡ counted count (numbers_of (last_line_at key.now text.now 0)) }
{
    let mut reader = Reader { text, at: 0 };
    let read = reader.last_line(key)?;
    if read.count != count {
        return None;
    }
    let values = read.values;
    Some(values)
}

// The edit that the line at the front of a text reads as.
// By values[0] and a second pattern: a pattern that takes an array apart inside `Some` gets no proof.
#[tactic(auto, using(crate::proofs::Reading::edit_steps))]
fn edit_of(text: &[u8]) -> Edit
    ensures { result ≡ edit_of text.now }
{
    if let Some(values) = numbers(text, b"in=", 1) {
        return Edit::In(values[0]);
    }
    if let Some(values) = numbers(text, b"run=", 4) {
        let [a, p, b, q] = values;
        return Edit::Run(a, p, b, q);
    }
    if let Some(values) = numbers(text, b"out=", 1) {
        return Edit::Out(values[0]);
    }
    if let Some(values) = numbers(text, b"off=", 1) {
        return Edit::Off(values[0]);
    }
    Edit::Refused
}

// Read edit: the edit of the line at the front of a text, or its refusal, and the bytes that the line takes.
#[tactic(auto, unfolding(crate::specs::Lines::read_edit))]
pub fn read_edit(text: &[u8]) -> EditRead
    ensures { result ≡ read_edit text.now }
{
    EditRead {
        edit: edit_of(text),
        taken: line_length(text),
    }
}

// The sheet after an edit of the sheet s: a refused edit hands back the sheet it got.
#[tactic(auto, unfolding(crate::specs::Calls::sheet_after))]
pub fn sheet_after(s: Sheet, answer: Result<Sheet, Refusal>) -> Sheet
    ensures { result ≡ sheet_after s answer }
{
    answer.unwrap_or(s)
}
