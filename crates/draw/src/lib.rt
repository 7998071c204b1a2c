// Draw: the drawing of a sound sheet, in time linear in the sheet.
#![tactic(auto)]

ghost use Rattle.std.specs.Prelude.{◌≡◌, ℕ, ◌≤◌, ◌<◌, get_or};
ghost use Rattle.digraph.specs.Inner.{Ends};
ghost use Rattle.sheet.specs.Sound.{Sound};
ghost use Rattle.sheet.specs.Check.{column_levels};
ghost use Rattle.sheet.specs.Inner.{findings_in};
ghost use Rattle.drawing.specs.Draw.{no_vertex_segment, no_edge_segment, draw_call, returned};
ghost use Rattle.counting.specs.Below.{table};
ghost use Rattle.draw.specs.Inner.{leading_faces, Beside, column_from, end_from, edge_from, unreached_from, segment_from, widened_by, drawing_from};

use answers::Refusal;
use digraph::Digraph;
use drawing::{Drawing, EdgeSegment, VertexSegment};
use sheet::{Findings, Sheet};

// An array whose first m entries a function gives; the others are `zero`. (`array::from_fn` would go over all N, with a branch at each.)
pub fn table<T: Copy, const N: usize, F: Fn(usize) -> T>(m: usize, zero: T, entry: F) -> [T; N]
    requires few { m ≤ N }
    requires callable { (k : ℕ) → k < m → F.pre entry k }
    ensures { (of : ℕ → T) → ((k : ℕ) (x : T) → k < m → F.post entry k x → x ≡ of k) → result ≡ table of m N zero }
{
    let mut entries = [zero; N];
    for (k, place) in entries[..m].iter_mut().enumerate() {
        *place = entry(k);
    }
    entries
}

// The face from which each of m edges leads: its left face, of edge 0 the right one.
#[tactic(auto, unfolding(crate::specs::Inner::leading_face, crate::specs::Inner::leading_faces))]
fn faces_before(m: usize, faces: &[u16; 512]) -> [u16; 256]
    requires { (0 < m) × (m ≤ 256) }
    ensures { result ≡ leading_faces m 0 faces.now }
{
    table(m, 0, |k| if k == 0 { faces[1] } else { faces[2 * k] })
}

// The face to which each of m edges leads: its right face, of edge 0 the left one. (One function for both sides would take a number for the side.)
#[tactic(auto, unfolding(crate::specs::Inner::leading_face, crate::specs::Inner::leading_faces))]
fn faces_after(m: usize, faces: &[u16; 512]) -> [u16; 256]
    requires { (0 < m) × (m ≤ 256) }
    ensures { result ≡ leading_faces m 1 faces.now }
{
    table(m, 0, |k| if k == 0 { faces[0] } else { faces[2 * k + 1] })
}

// The column of each face that was found of a sound sheet.
pub fn face_columns(s: &Sheet, found: &Findings) -> [u16; 256]
    requires { Sound s.now × (found.now ≡ findings_in s.now) }
    ensures { result ≡ (column_levels s.now).level }
{
    let from = faces_before(s.edges, &found.faces);
    let to = faces_after(s.edges, &found.faces);
    // Each edge of it joins two faces, and the faces of a sound sheet make no circle.
    let graph = Digraph {
        nodes: found.count,
        edges: s.edges,
        from: &from,
        to: &to,
    };
    graph.levels_within().unwrap()
}

// The column of each of m edges: that of its left face.
#[tactic(auto, unfolding(crate::specs::Inner::column_from))]
fn edge_columns(m: usize, level: &[u16; 256], faces: &[u16; 512]) -> [u16; 256]
    requires { Beside m level.now faces.now }
    ensures { result ≡ table (column_from level.now faces.now) m 256 0 }
{
    table(m, 0, |k| level[usize::from(faces[2 * k])])
}

// How far right each of m edges lets its vertices go: to the column of its right face, less 1; edge 0 to its own column.
#[tactic(auto, unfolding(crate::specs::Inner::column_from, crate::specs::Inner::end_from))]
fn edge_ends(m: usize, level: &[u16; 256], faces: &[u16; 512]) -> [u16; 256]
    requires { Beside m level.now faces.now }
    ensures { result ≡ table (end_from level.now faces.now) m 256 0 }
{
    table(m, 0, |k| {
        if k == 0 {
            level[usize::from(faces[0])]
        } else {
            level[usize::from(faces[2 * k + 1])] - 1
        }
    })
}

// A vertex's segment, widened on the left to an edge's column and on the right as far as the edge lets it go.
fn widened(at: VertexSegment, column: u16, end: u16) -> VertexSegment
    ensures { result ≡ widened_by at column end }
{
    VertexSegment {
        row: at.row,
        first: at.first.min(column),
        last: at.last.max(end),
    }
}

// The segments of n vertices of which no edge was seen: any column is less than the first one, `u16::MAX`, from which the least is taken. Rows are a table
// with an entry for every vertex there may be: an array and a count, as the other tables.
fn unreached(n: usize, rows: &[u16; 256]) -> [VertexSegment; 128]
    requires { n ≤ 128 }
    ensures { result ≡ table (unreached_from rows.now) n 128 no_vertex_segment }
{
    table(
        n,
        VertexSegment::default(),
        |v| VertexSegment {
            row: rows[v],
            first: u16::MAX,
            last: 0,
        },
    )
}

// Where the parts of a sheet lie: the rows of its vertices, the columns of its edges, and how far right these let their vertices go.
#[derive(Clone, Copy)]
struct Places<'a> {
    sheet: &'a Sheet,
    rows: &'a [u16; 256],
    columns: &'a [u16; 256],
    ends: &'a [u16; 256],
}

impl Places<'_> {
    // The segment of each edge.
    fn edge_segments(self) -> [EdgeSegment; 256]
        requires { Ends 256 self.sheet.now.edges self.sheet.now.tails × Ends 256 self.sheet.now.edges self.sheet.now.heads }
        ensures { result ≡ table (edge_from self.entry.sheet.now.tails self.entry.sheet.now.heads self.entry.rows.now self.entry.columns.now) self.entry.sheet.now.edges 256 no_edge_segment }
    {
        table(
            self.sheet.edges,
            EdgeSegment::default(),
            |k| EdgeSegment {
                column: self.columns[k],
                low: self.rows[usize::from(self.sheet.tails[k])],
                high: self.rows[usize::from(self.sheet.heads[k])],
            },
        )
    }

    // The segment of each vertex, widened by each edge that leaves it: those that enter it stand between these. None leaves vertex 1, which goes as far as
    // vertex 0.
    fn vertex_segments(self) -> [VertexSegment; 128]
        requires { (1 < self.sheet.now.vertices) × (self.sheet.now.vertices ≤ 128) × Ends self.sheet.now.vertices self.sheet.now.edges self.sheet.now.tails }
        ensures { result ≡ table (segment_from self.entry.sheet.now.edges self.entry.sheet.now.tails self.entry.rows.now self.entry.columns.now self.entry.ends.now) self.entry.sheet.now.vertices 128 no_vertex_segment }
    {
        let mut vertices = unreached(self.sheet.vertices, self.rows);
        // By place: three arrays are read side by side, and two zips, one in the other, are no plainer.
        for k in 0..self.sheet.edges {
            let tail = usize::from(self.sheet.tails[k]);
            vertices[tail] = widened(vertices[tail], self.columns[k], self.ends[k]);
        }
        vertices[1] = VertexSegment {
            row: self.rows[1],
            ..vertices[0]
        };
        vertices
    }

    // The drawing.
    fn compose(self) -> Drawing
        requires { Sound self.sheet.now × (get_or self.rows.now 1 0 < 256) × (get_or self.columns.now 0 0 < 256) }
        ensures { result ≡ drawing_from self.entry.sheet.now self.entry.rows.now self.entry.columns.now self.entry.ends.now }
    {
        Drawing {
            rows: self.rows[1] + 1,
            columns: self.columns[0] + 1,
            vertices: self.vertex_segments(),
            edges: self.edge_segments(),
        }
    }
}

// Draws a sheet; it refuses 9 alone.
pub fn draw(s: Sheet) -> Result<Drawing, Refusal>
    ensures { result ≡ draw_call s }
{
    let found = sheet::examine(s)?;
    let level = face_columns(&s, &found);
    let columns = edge_columns(s.edges, &level, &found.faces);
    let ends = edge_ends(s.edges, &level, &found.faces);
    let places = Places {
        sheet: &s,
        rows: &found.rows,
        columns: &columns,
        ends: &ends,
    };
    Ok(places.compose())
}

// What draw returns beside its answer: refused, a record of zeros.
pub fn returned(answer: Result<Drawing, Refusal>) -> Drawing
    ensures { result ≡ returned answer }
{
    answer.unwrap_or_default()
}
