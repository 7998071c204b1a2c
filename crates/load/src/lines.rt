// The lines of a sheet before its rings: the two counts, and the edges.
ghost use Rattle.std.specs.Prelude.{◌≡◌, ◌≤◌, ◌<◌, IfOk, get_or};
ghost use Rattle.text.specs.Reading.{line_at};
ghost use Rattle.load.specs.Load.{edge_lines};
ghost use Rattle.load.specs.Inner.{reached, count_of, one_more, EdgesRead, Counted, AsBefore, after_edges};

use crate::Form;
use answers::Refusal;
use sheet::Sheet;
use text::Reader;

// A line with one count, from 2 to `most`.
#[tactic(auto, using(crate::proofs::Turns::count_steps))]
pub fn count_line(reader: &mut Reader, key: &[u8], most: usize) -> Result<usize, Refusal>
    ensures text { reader.new.text.now ≡ reader.old.text.now }
    ensures count { reached (λ n. (n, reader.new.at)) result ≡ count_of most (line_at key.now reader.old.text.now reader.old.at) }
    ensures within { IfOk result (λ n. n ≤ most) }
{
    let read = reader.line(key).ok_or(Refusal::BadLayout)?;
    if read.count != 1 {
        return Err(Refusal::BadLayout);
    }
    let n = usize::from(read.values[0]);
    if !(2..=most).contains(&n) {
        return Err(Refusal::CountOutOfLimits);
    }
    Ok(n)
}

// One edge more has an end at v.
#[tactic(auto, unfolding(crate::specs::Inner::one_more))]
fn count_end(v: u16, degrees: &mut [u16; 128])
    requires { (v < 128) × (get_or degrees.old v 0 < 65535) }
    ensures { degrees.new ≡ one_more v degrees.old }
{
    degrees[usize::from(v)] += 1;
}

// The lines of the edges of a sheet whose counts are read. The edges at each vertex are counted as they are read.
#[tactic(auto, using(crate::proofs::Turns::edge_turns), unfolding(crate::specs::Load::with_edge))]
pub fn edge_lines(
    form: Form,
    reader: &mut Reader,
    sheet: &mut Sheet,
    degrees: &mut [u16; 128],
) -> Result<(), Refusal>
    requires { (sheet.old.vertices ≤ 128) × (sheet.old.edges ≤ 256) × Counted 0 sheet.old.tails sheet.old.heads degrees.old }
    ensures text { reader.new.text.now ≡ reader.old.text.now }
    ensures rest { after_edges form reader.old.text.now sheet.new (reached (λ _. reader.new.at) result) ≡ edge_lines form sheet.old.edges reader.old.text.now sheet.old 0 reader.old.at }
    ensures counts { (sheet.new.vertices ≡ sheet.old.vertices) × (sheet.new.edges ≡ sheet.old.edges) }
    ensures kept { (sheet.new.nexts ≡ sheet.old.nexts) × AsBefore sheet.old.edges sheet.old sheet.new }
    ensures read { IfOk result (λ _. EdgesRead sheet.new × Counted sheet.new.edges sheet.new.tails sheet.new.heads degrees.new) }
{
    // By place: it stores into two arrays of the sheet.
    for k in 0..sheet.edges {
        let (a, b) = form.edge_line(reader).ok_or(Refusal::BadLayout)?;
        if !clauses::joins(sheet.vertices, a, b) {
            return Err(Refusal::BadEdge);
        }
        sheet.tails[k] = a;
        sheet.heads[k] = b;
        count_end(a, degrees);
        count_end(b, degrees);
    }
    Ok(())
}
