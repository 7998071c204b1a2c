// The sweep over the rows of a drawing: whether its bars and wires are free of contact, in one step for each row and wire and at most 91 for each bar.
ghost use Rattle.std.specs.Prelude.{◌≡◌, ◌+◌, ◌≤◌, ◌<◌, ◌↔◌, true, false};
ghost use Rattle.sheet.specs.Sound.{Sound};
ghost use Rattle.contact.specs.Tests.{well_formed, is_clear};
ghost use Rattle.contact.specs.Free.{AllFree, Sweepable};
ghost use Rattle.contact.specs.Sweep.{SweptTo};

use crate::columns::Columns;
use crate::ends::all_ends_on;
use crate::lists::{ByRow, Lists};
use drawing::Drawing;
use sheet::Sheet;

// How far a sweep came: a column's mark is 1 + the row of the topmost vertex in it, its entry of `ended` 1 + the row of the topmost upper end of an edge.
#[derive(Clone, Copy)]
struct Sweep {
    columns: Columns,
    ended: [u16; 1024],
}

impl Sweep {
    // Sweeps the edges that end in this row: whether no vertex crosses them, and no two of them end in one column. Where no vertex crosses an edge the topmost
    // one below its upper end is its tail.
    fn edges_free(&mut self, rows: &ByRow, row: usize) -> bool
        requires drawn { (row < rows.now.drawing.now.rows) × Sweepable rows.now.vertices rows.now.edges rows.now.drawing.now }
        requires swept { SweptTo rows.now.vertices rows.now.edges rows.now.drawing.now row row self.old }
        ensures free { result ≡ true → SweptTo rows.now.vertices rows.now.edges rows.now.drawing.now row (row + 1) self.new }
        ensures contact { result ≡ false → ¬ AllFree rows.now.vertices rows.now.edges rows.now.drawing.now }
    {
        let end = row as u16 + 1;
        let mut k = usize::from(rows.edges_at.first[row]);
        while k < rows.edges {
            let edge = rows.drawing.edges[k];
            let x = usize::from(edge.column);
            let crossed = self.columns.mark(x) != edge.low + 1;
            let met = self.ended[x] == end;
            if crossed || met {
                return false;
            }
            self.ended[x] = end;
            k = usize::from(rows.edges_at.after[k]);
        }
        true
    }

    // Sweeps the vertices of this row: whether no two of them share a column.
    fn vertices_free(&mut self, rows: &ByRow, row: usize) -> bool
        requires drawn { (row < rows.now.drawing.now.rows) × Sweepable rows.now.vertices rows.now.edges rows.now.drawing.now }
        requires swept { SweptTo rows.now.vertices rows.now.edges rows.now.drawing.now row (row + 1) self.old }
        ensures free { result ≡ true → SweptTo rows.now.vertices rows.now.edges rows.now.drawing.now (row + 1) (row + 1) self.new }
        ensures contact { result ≡ false → ¬ AllFree rows.now.vertices rows.now.edges rows.now.drawing.now }
    {
        let mark = row as u16 + 1;
        let mut v = usize::from(rows.vertices_at.first[row]);
        while v < rows.vertices {
            let vertex = rows.drawing.vertices[v];
            let free = self
                .columns
                .cover(usize::from(vertex.first), usize::from(vertex.last), mark);
            if !free {
                return false;
            }
            v = usize::from(rows.vertices_at.after[v]);
        }
        true
    }
}

// Whether n vertices and m edges are free of contact. Sweeps all rows, from the lowest up.
fn is_free(n: usize, m: usize, d: &Drawing) -> bool
    requires { Sweepable n m d.now }
    ensures { result ≡ true ↔ AllFree n m d.now }
{
    let vertices_at = Lists::by(n, |v| usize::from(d.vertices[v].row));
    let edges_at = Lists::by(m, |k| usize::from(d.edges[k].high));
    let rows = ByRow {
        drawing: d,
        vertices: n,
        edges: m,
        vertices_at: &vertices_at,
        edges_at: &edges_at,
    };
    let mut sweep = Sweep {
        columns: Columns::unmarked(),
        ended: [0; 1024],
    };
    for row in 0..usize::from(d.rows) {
        let free = sweep.edges_free(&rows, row) && sweep.vertices_free(&rows, row);
        if !free {
            return false;
        }
    }
    true
}

// Whether every wire end is on its bar, and no forbidden point is shared.
pub fn is_clear(s: &Sheet, d: &Drawing) -> bool
    requires sound { Sound s.now }
    requires formed { well_formed s.now.vertices s.now.edges d.now ≡ true }
    requires bounded { (d.now.rows ≤ 1000) × (d.now.columns ≤ 1000) }
    ensures { result ≡ is_clear s.now d.now }
{
    all_ends_on(s, d) && is_free(s.vertices, s.edges, d)
}
