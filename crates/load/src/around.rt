// The lines `around=`: the edges of each vertex clockwise, read into the next-darts.
ghost use Rattle.std.specs.Prelude.{ℕ, ◌≡◌, ◌+◌, ◌≤◌, ◌<◌, IsTrue, IfOk, get_or, length};
ghost use Rattle.text.specs.Reading.{number_at, line_at, closed};
ghost use Rattle.text.specs.Keys.{around_key};
ghost use Rattle.load.specs.declared.Form.{Form};
ghost use Rattle.load.specs.Load.{with_nexts, ring_lines};
ghost use Rattle.load.specs.Inner.{reached, EdgesRead, Counted, fits_of, edge_of, marks_of, is_listed, refusal_of, rest_at, end_of, ringed_by, ring_from, after_rings};

use answers::Refusal;
use clauses::dart_at;
use sheet::Sheet;
use text::Reader;

// Whether the rest of a line has its shape from the end of a number on: a comma and more numbers, or none, and the line's end.
#[tactic(auto, using(crate::proofs::Walking::shape_steps))]
fn rest_shaped(mut reader: Reader) -> bool
    ensures { result ≡ is_listed (closed reader.entry.text.now (rest_at reader.entry.text.now reader.entry.at)) }
{
    if reader.comma() && reader.numbers().is_none() {
        return false;
    }
    reader.line_end().is_some()
}

// The refusal of a line with an edge that may not stand there, whose number ends at the place: shape comes first.
#[tactic(auto, unfolding(crate::specs::Inner::refusal_of))]
fn unfit(reader: Reader) -> Refusal
    ensures { result ≡ refusal_of (closed reader.entry.text.now (rest_at reader.entry.text.now reader.entry.at)) }
{
    if rest_shaped(reader) {
        Refusal::BadRotation
    } else {
        Refusal::BadLayout
    }
}

// The end of a line with `count` edges of a vertex that has `degree`: shape comes first.
fn ring_end(reader: &mut Reader, count: usize, degree: usize) -> Result<(), Refusal>
    ensures text { reader.new.text.now ≡ reader.old.text.now }
    ensures end { reached (λ _. reader.new.at) result ≡ end_of reader.old.text.now reader.old.at count degree }
{
    reader.line_end().ok_or(Refusal::BadLayout)?;
    if count != degree {
        return Err(Refusal::BadRotation);
    }
    Ok(())
}

// A vertex v of a sheet whose edges are read, and how many edges its line is to have.
#[derive(Clone, Copy)]
struct Vertex<'a> {
    sheet: &'a Sheet,
    v: usize,
    degree: usize,
    ghost read: { EdgesRead sheet.now },
    ghost few: { v < 128 },
}

impl Vertex<'_> {
    // Whether edge w may stand on the line: it has an end at v, and did not stand on the line before.
    // Which of its two ends that is takes no branch, since nothing foretells it.
    #[tactic(auto, using(crate::proofs::Walking::fits_steps))]
    fn fits(&self, w: usize, seen: &[u16; 256]) -> bool
        ensures fit { result ≡ fits_of self.now.sheet.now self.now.v seen.now w }
        ensures below { IsTrue result → w < self.now.sheet.now.edges }
    {
        let sheet = self.sheet;
        if sheet.edges <= w {
            return false;
        }
        if usize::from(seen[w]) == self.v + 1 {
            return false;
        }
        (usize::from(sheet.tails[w]) == self.v) != (usize::from(sheet.heads[w]) == self.v)
    }

    // The edge whose number stands at the place, marked as seen on the line if it may stand there: its dart at v.
    // Inlined, the place stays in a register: load takes an eighth less.
    #[inline(always)]
    #[tactic(auto, unfolding(crate::specs::Inner::edge_of, crate::specs::Inner::marks_of))]
    fn edge(&self, reader: &mut Reader, seen: &mut [u16; 256]) -> Result<u16, Refusal>
        ensures text { reader.new.text.now ≡ reader.old.text.now }
        ensures edge { reached (λ d. (d, reader.new.at)) result ≡ edge_of reader.old.text.now self.now.sheet.now self.now.v seen.old (number_at reader.old.text.now reader.old.at) }
        ensures marks { seen.new ≡ marks_of self.now.sheet.now self.now.v seen.old (number_at reader.old.text.now reader.old.at) }
        ensures within { IfOk result (λ d. (d < 512) × (reader.old.at < reader.new.at) × (reader.new.at ≤ length reader.old.text.now)) }
    {
        let w = usize::from(reader.number().ok_or(Refusal::BadLayout)?);
        if !self.fits(w, seen) {
            return Err(unfit(*reader));
        }
        // By `as`: there is no `From` to u16, and `try_from` would have a branch for a failure, where the contract shows that the number fits.
        seen[w] = (self.v + 1) as u16;
        Ok(dart_at(&self.sheet.tails, w, self.v))
    }

    // The line of v: each number is an edge of v that did not stand there before, and its dart is linked behind the last one, the last of all to the first.
    #[tactic(auto, using(crate::proofs::Walking::ring_steps))]
    fn line(
        &self,
        reader: &mut Reader,
        seen: &mut [u16; 256],
        nexts: &mut [u16; 512],
    ) -> Result<(), Refusal>
        ensures text { reader.new.text.now ≡ reader.old.text.now }
        ensures rest { ringed_by nexts.new (reached (λ _. reader.new.at) result) ≡ ring_from self.now.degree self.now.sheet.now self.now.v 0 0 0 seen.old nexts.old (line_at around_key reader.old.text.now reader.old.at) }
        ensures marks { (k : ℕ) → get_or seen.old k 0 ≤ self.now.v + 1 → get_or seen.new k 0 ≤ self.now.v + 1 }
        ensures size { length seen.new ≡ length seen.old }
    {
        reader.key(b"around=").ok_or(Refusal::BadLayout)?;
        let first = self.edge(reader, seen)?;
        let mut last = first;
        let mut count = 1;
        // From comma to comma: how many there are is known only at the line's end.
        while reader.comma() {
            let dart = self.edge(reader, seen)?;
            nexts[usize::from(last)] = dart;
            last = dart;
            count += 1;
        }
        ring_end(reader, count, self.degree)?;
        nexts[usize::from(last)] = first;
        Ok(())
    }
}

// The lines `around=` of a sheet whose edges are read, where each vertex has as many of them as `degrees` says.
#[tactic(auto, using(crate::proofs::Turns::ring_turns))]
pub fn ring_lines(
    reader: &mut Reader,
    sheet: &Sheet,
    degrees: &[u16; 128],
    nexts: &mut [u16; 512],
) -> Result<(), Refusal>
    requires { EdgesRead sheet.now × Counted sheet.now.edges sheet.now.tails sheet.now.heads degrees.now }
    ensures text { reader.new.text.now ≡ reader.old.text.now }
    ensures rest { (form : Form) → after_rings form (with_nexts sheet.now nexts.new) (reached (λ _. reader.new.at) result) ≡ ring_lines form sheet.now.vertices reader.old.text.now (with_nexts sheet.now nexts.old) 0 reader.old.at }
{
    // 0 where an edge stood on no line yet, v + 1 where it stood on v's: entries of type Option<u8> were tried, and load of a full sheet took 6 % longer.
    let mut seen = [0u16; 256];
    for (v, &degree) in degrees[..sheet.vertices].iter().enumerate() {
        let vertex = Vertex {
            sheet,
            v,
            degree: usize::from(degree),
        };
        vertex.line(reader, &mut seen, nexts)?;
    }
    Ok(())
}
