// Drawings read from a text into the record.
#![tactic(auto)]

ghost use Rattle.std.specs.Prelude.{◌≡◌, ◌≢◌, ◌+◌, ◌≤◌, ℕ, MatchOption, option_map, get_or};
ghost use Rattle.text.specs.Shapes.{one_of, three_of};
ghost use Rattle.readdrawing.specs.Lines.{plain_line_at};
ghost use Rattle.readdrawing.specs.Reading.{entries_from, drawing_of_text};

use drawing::{Drawing, EdgeSegment, VertexSegment};
use text::Reader;

// The end of a line: byte 10 alone.
#[tactic(auto, using(text::proofs::DigitLaws::inside))]
fn line_end(reader: &mut Reader) -> Option<()>
    ensures text { reader.new.text.now ≡ reader.old.text.now }
    ensures end { MatchOption result (get_or reader.old.text.now reader.old.at 0 ≢ 10) (λ _. (get_or reader.old.text.now reader.old.at 0 ≡ 10) × (reader.new.at ≡ reader.old.at + 1)) }
{
    if reader.text.get(reader.at).copied().unwrap_or(0) != b'\n' {
        return None;
    }
    reader.at += 1;
    Some(())
}

// A line of one number.
#[tactic(auto, using(crate::proofs::Lines::one_steps))]
fn number_line(reader: &mut Reader, key: &[u8]) -> Option<u16>
    ensures text { reader.new.text.now ≡ reader.old.text.now }
    ensures line { option_map (λ a. (a, reader.new.at)) result ≡ one_of (plain_line_at key.now reader.old.text.now reader.old.at) }
{
    reader.key(key)?;
    let a = reader.number()?;
    line_end(reader).and(Some(a))
}

// A line of three numbers. Inlined into the two loops, which know the key: as a call it made reading a full drawing a fifth slower.
#[inline(always)]
#[tactic(auto, using(crate::proofs::Lines::three_steps))]
fn three_line(reader: &mut Reader, key: &[u8]) -> Option<(u16, u16, u16)>
    ensures text { reader.new.text.now ≡ reader.old.text.now }
    ensures line { option_map (λ r. (r.0, r.1, r.2, reader.new.at)) result ≡ three_of (plain_line_at key.now reader.old.text.now reader.old.at) }
{
    reader.key(key)?;
    let a = reader.number()?;
    if !reader.comma() {
        return None;
    }
    let b = reader.number()?;
    if !reader.comma() {
        return None;
    }
    let c = reader.number()?;
    line_end(reader).and(Some((a, b, c)))
}

// n lines of three numbers each, into the first n entries of an array.
fn entry_lines<T: Copy, const N: usize, F: Fn(u16, u16, u16) -> T>(
    reader: &mut Reader,
    key: &[u8],
    n: usize,
    entries: &mut [T; N],
    entry: F,
) -> Option<()>
    requires few { n ≤ N }
    requires callable { F.IsAlwaysCallable entry }
    ensures text { reader.new.text.now ≡ reader.old.text.now }
    ensures entries { (of : ℕ → ℕ → ℕ → T) → ((a b c : ℕ) (x : T) → F.post entry a b c x → x ≡ of a b c) → option_map (λ _. (entries.new, reader.new.at)) result ≡ entries_from key.now of n reader.old.text.now entries.old 0 reader.old.at }
{
    // By index, which a proof can name.
    for k in 0..n {
        let (a, b, c) = three_line(reader, key)?;
        entries[k] = entry(a, b, c);
    }
    Some(())
}

// The drawing of n vertices and m edges that the text shows, if it shows one.
pub fn read_drawing(text: &[u8], n: usize, m: usize) -> Option<Drawing>
    requires { (n ≤ 128) × (m ≤ 256) }
    ensures { result ≡ drawing_of_text text.now n m }
{
    let mut reader = Reader { text, at: 0 };
    let rows = number_line(&mut reader, b"rows=")?;
    let columns = number_line(&mut reader, b"columns=")?;
    let mut vertices = [VertexSegment::default(); 128];
    entry_lines(&mut reader, b"bar=", n, &mut vertices, |row, first, last| {
        VertexSegment { row, first, last }
    })?;
    let mut edges = [EdgeSegment::default(); 256];
    entry_lines(&mut reader, b"wire=", m, &mut edges, |column, low, high| {
        EdgeSegment { column, low, high }
    })?;
    let end = text.len();
    if reader.at != end {
        return None;
    }
    Some(Drawing {
        rows,
        columns,
        vertices,
        edges,
    })
}
