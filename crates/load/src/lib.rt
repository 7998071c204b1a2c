// Sheets as text: load, and the load of links.
#![tactic(auto)]

ghost use Rattle.std.specs.Prelude.{◌≡◌, ◌≤◌, option_map};
ghost use Rattle.text.specs.Reading.{line_at};
ghost use Rattle.text.specs.Shapes.{pair_of};
ghost use Rattle.digraph.specs.Inner.{Ends};
ghost use Rattle.load.specs.Load.{edge_key, directed, judge_of, load_lines, load_from, load, load_links, returned};

use answers::Refusal;
use sheet::Sheet;
use text::Reader;

mod around;
mod lines;

// What load answers where it accepts: the sheet, and how many bytes of the text it took.
#[derive(Clone, Copy)]
pub struct Loaded {
    pub sheet: Sheet,
    pub taken: usize,
}

// The form of a sheet's lines of edges: `wire=tail,head`, or `link=a,b`, which has no direction.
#[derive(Clone, Copy)]
pub enum Form {
    Directed,
    Undirected,
}

impl Form {
    // The two vertices of an edge's line.
    #[inline(always)]
    #[tactic(auto, unfolding(crate::specs::Load::edge_key))]
    fn edge_line(self, reader: &mut Reader) -> Option<(u16, u16)>
        ensures text { reader.new.text.now ≡ reader.old.text.now }
        ensures edge { option_map (λ r. (r.0, r.1, reader.new.at)) result ≡ pair_of (line_at (edge_key self) reader.old.text.now reader.old.at) }
    {
        match self {
            Form::Directed => reader.pair_line(b"wire="),
            Form::Undirected => reader.pair_line(b"link="),
        }
    }

    // Makes the sheet of these edges: links get their directions. In place: load copied a sheet for it, and took 8 to 13 % longer.
    #[inline(always)]
    #[tactic(auto, unfolding(crate::specs::Load::directed))]
    fn direct(self, sheet: &mut Sheet)
        requires { (sheet.old.vertices ≤ 128) × Ends 128 sheet.old.edges sheet.old.tails × Ends 128 sheet.old.edges sheet.old.heads }
        ensures { sheet.new ≡ directed self sheet.old }
    {
        match self {
            Form::Directed => {}
            Form::Undirected => *sheet = orientation::oriented(sheet),
        }
    }

    // What is refused after the last line.
    #[inline(always)]
    #[tactic(auto, unfolding(crate::specs::Load::judge_of))]
    fn judge(self, sheet: &Sheet) -> Result<(), Refusal>
        ensures { result ≡ judge_of self sheet.now }
    {
        match self {
            Form::Directed => sheet::judge(sheet),
            Form::Undirected => sheet::judge_links(sheet),
        }
    }
}

// Reads the lines of a sheet from the front of the text: line by line, then the rules on the whole sheet. Made part of each load: as a call of its own it cost 2 to 5 %.
#[inline(always)]
#[tactic(auto, using(crate::proofs::Turns::load_turns), unfolding(crate::specs::Load::empty_sheet, crate::specs::Load::with_nexts))]
fn load_lines(form: Form, text: &[u8]) -> Result<Loaded, Refusal>
    ensures { result ≡ load_lines form text.now }
{
    let mut reader = Reader { text, at: 0 };
    let vertices = lines::count_line(&mut reader, b"bars=", 128)?;
    let edges = lines::count_line(&mut reader, b"wires=", 256)?;
    // Written out, as `empty_sheet` of the definition is: with `..` of a default each step below would have to unpack what that is.
    let mut sheet = Sheet {
        vertices,
        edges,
        tails: [0u16; 256],
        heads: [0u16; 256],
        nexts: [0u16; 512],
    };
    let mut degrees = [0u16; 128];
    lines::edge_lines(form, &mut reader, &mut sheet, &mut degrees)?;
    form.direct(&mut sheet);
    // The lines of rings are read beside the sheet, which they look at meanwhile.
    let mut nexts = sheet.nexts;
    around::ring_lines(&mut reader, &sheet, &degrees, &mut nexts)?;
    sheet.nexts = nexts;
    form.judge(&sheet)?;
    Ok(Loaded {
        sheet,
        taken: reader.at,
    })
}

// Reads a sheet of this form from the front of the text. Of no bytes it makes the fresh sheet.
#[inline(always)]
#[tactic(auto, using(crate::proofs::Turns::load_by))]
fn load_from(form: Form, text: &[u8]) -> Result<Loaded, Refusal>
    ensures { result ≡ load_from form text.now }
{
    if text.is_empty() {
        return Ok(Loaded {
            sheet: sheet::fresh(),
            taken: 0,
        });
    }
    load_lines(form, text)
}

// Reads a sheet from the front of the text, and tells how many bytes it took.
pub fn load(text: &[u8]) -> Result<Loaded, Refusal>
    ensures { result ≡ load text.now }
{
    load_from(Form::Directed, text)
}

// The second load: reads a sheet whose edges are links, `link=a,b` in place of every `wire=tail,head`, and chooses their directions.
pub fn load_links(text: &[u8]) -> Result<Loaded, Refusal>
    ensures { result ≡ load_links text.now }
{
    load_from(Form::Undirected, text)
}

// What load returns beside its answer: refused, the present sheet comes back, and 0 bytes are taken.
#[tactic(auto, unfolding(crate::specs::Load::returned))]
pub fn returned(answer: Result<Loaded, Refusal>, present: Sheet) -> Loaded
    ensures { result ≡ returned present answer }
{
    answer.unwrap_or(Loaded {
        sheet: present,
        taken: 0,
    })
}
