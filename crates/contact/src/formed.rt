// Whether the numbers of a drawing are as they must be.
ghost use Rattle.std.specs.Prelude.{◌≡◌, ◌≤◌};
ghost use Rattle.std.specs.List.{list_all};
ghost use Rattle.contact.specs.Tests.{vertex_formed, edge_formed, well_formed};

use drawing::{Drawing, EdgeSegment, VertexSegment};

// Whether each bar's first column doesn't exceed its last, and its row and columns are below the numbers declared.
#[tactic(auto, unfolding(crate::specs::Tests::vertex_formed))]
fn vertices_formed(rows: u16, columns: u16, vertices: &[VertexSegment]) -> bool
    ensures { result ≡ list_all (vertex_formed rows columns) vertices.now }
{
    vertices
        .iter()
        .all(|b| b.first <= b.last && b.row < rows && b.last < columns)
}

// Whether each wire's tail row is below its head row, and its rows and column are below the numbers declared.
#[tactic(auto, unfolding(crate::specs::Tests::edge_formed))]
fn edges_formed(rows: u16, columns: u16, edges: &[EdgeSegment]) -> bool
    ensures { result ≡ list_all (edge_formed rows columns) edges.now }
{
    edges
        .iter()
        .all(|w| w.low < w.high && w.high < rows && w.column < columns)
}

// Whether the numbers of n bars and m wires are as they must be.
#[tactic(auto, using(crate::proofs::Numbers::vertices_listed, crate::proofs::Numbers::edges_listed), unfolding(crate::specs::Tests::well_formed))]
pub fn is_well_formed(n: usize, m: usize, d: &Drawing) -> bool
    requires { (n ≤ 128) × (m ≤ 256) }
    ensures { result ≡ well_formed n m d.now }
{
    vertices_formed(d.rows, d.columns, &d.vertices[..n])
        && edges_formed(d.rows, d.columns, &d.edges[..m])
}
