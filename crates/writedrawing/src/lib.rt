// Write drawing: the text of a drawing, how long it is, and how it is put into a buffer.
#![tactic(auto)]

ghost use Rattle.std.specs.Prelude.{◌≡◌, ◌+◌, ◌≤◌, length};
ghost use Rattle.drawing.specs.Write.{write_drawing, buffer_after_drawing};
ghost use Rattle.writedrawing.specs.Inner.{vertices_text, edges_text, segments_text};

use answers::Refusal;
use buffer::{Sink, Text};
use drawing::{EdgeSegment, VertexSegment};
use sheet::Sheet;

// Puts the lines `bar=`: a vertex's row, its first and its last column. (One function for these and the lines `wire=` would take a closure for the numbers, and
// be longer than both.)
fn put_vertices<S: Sink>(to: &mut S, vertices: &[VertexSegment])
    requires { S.used to.old + length (vertices_text vertices.now) ≤ S.size to.old }
    ensures { S.puts to.old (vertices_text vertices.now) to.new }
{
    for v in vertices {
        buffer::put_line(to, b"bar=", &[v.row, v.first, v.last]);
    }
}

// Puts the lines `wire=`: an edge's column, its tail's row and its head's row.
fn put_edges<S: Sink>(to: &mut S, edges: &[EdgeSegment])
    requires { S.used to.old + length (edges_text edges.now) ≤ S.size to.old }
    ensures { S.puts to.old (edges_text edges.now) to.new }
{
    for e in edges {
        buffer::put_line(to, b"wire=", &[e.column, e.low, e.high]);
    }
}

// What a drawing shows of a sheet: its rows and columns, and a segment for each vertex and edge.
#[derive(Drop)]
struct Segments<'a> {
    rows: u16,
    columns: u16,
    vertices: &'a [VertexSegment],
    edges: &'a [EdgeSegment],
}

impl Text for Segments<'_> {
    ghost text = { λ t. segments_text t.rows t.columns t.vertices.now t.edges.now };

    fn put<S: Sink>(&self, to: &mut S) {
        buffer::put_line(to, b"rows=", &[self.rows]);
        buffer::put_line(to, b"columns=", &[self.columns]);
        put_vertices(to, self.vertices);
        put_edges(to, self.edges);
    }
}

// No text of a drawing has more bytes.
const LONGEST: usize = 6807;

// Write drawing: the text of a sheet's drawing, at the front of the buffer. Refused, 9 and then 17, the buffer is untouched.
pub fn write_drawing(s: Sheet, out: &mut [u8]) -> Result<usize, Refusal>
    ensures { (result ≡ write_drawing s out.old) × (out.new ≡ buffer_after_drawing s out.old) }
{
    let drawing = draw::draw(s)?;
    let text = Segments {
        rows: drawing.rows,
        columns: drawing.columns,
        vertices: &drawing.vertices[..s.vertices],
        edges: &drawing.edges[..s.edges],
    };
    buffer::write_front(&text, LONGEST, out).ok_or(Refusal::BufferTooShort)
}
