// Run: an edge more, between two corners of one face.
// Narrowing is by `as`: there is no `From` for it, and `TryFrom` would have a failing branch where the contracts show that the number fits.
#![tactic(auto)]

ghost use Rattle.std.specs.Prelude.{◌≡◌, ◌<◌, ◌&&◌, ltb, get_or};
ghost use Rattle.clauses.specs.Darts.{opposite, touches_of, dart_of};
ghost use Rattle.sheet.specs.Check.{row_levels};
ghost use Rattle.edit.specs.Reaching.{leads_to};
ghost use Rattle.edit.specs.Changes.{run_edge};
ghost use Rattle.edit.specs.Calls.{run_answer, run_call};
ghost use Rattle.run.specs.Inner.{corner_of, Pair, Named, Room};

use answers::Refusal;
use clauses::{dart_at, head_dart, tail_dart};
use digraph::Digraph;
use sheet::{Findings, Sheet};

// The face that holds the other end of a dart's edge.
#[tactic(auto, unfolding(clauses::specs::Darts::opposite))]
fn across(faces: &[u16; 512], dart: u16) -> u16
    requires { dart < 512 }
    ensures { result ≡ get_or faces.now (opposite dart) 0 }
{
    let d = usize::from(dart);
    if d % 2 == 0 {
        faces[d + 1]
    } else {
        faces[d - 1]
    }
}

// A corner: the place at a vertex just after an edge clockwise. A call may name an edge that has no end there.
#[derive(Clone, Copy)]
struct Corner {
    vertex: usize,
    edge: usize,
}

impl Corner {
    // Whether the vertex and the edge are in the sheet.
    fn is_named(self, s: &Sheet) -> bool
        ensures { result ≡ (ltb self.vertex s.now.vertices && ltb self.edge s.now.edges) }
    {
        self.vertex < s.vertices && self.edge < s.edges
    }

    // Whether the edge has an end at the vertex.
    #[tactic(auto, unfolding(clauses::specs::Darts::touches_of))]
    fn touches(self, s: &Sheet) -> bool
        requires { self.edge < 256 }
        ensures { result ≡ touches_of s.now.tails s.now.heads self.edge self.vertex }
    {
        usize::from(s.tails[self.edge]) == self.vertex
            || usize::from(s.heads[self.edge]) == self.vertex
    }

    // The dart of that end.
    fn dart(self, s: &Sheet) -> u16
        requires { self.edge < 256 }
        ensures { (result ≡ dart_of s.now.tails self.edge self.vertex) × (result < 512) }
    {
        dart_at(&s.tails, self.edge, self.vertex)
    }

    // The face that holds the corner.
    #[tactic(auto, unfolding(crate::specs::Inner::corner_of))]
    fn face(self, s: &Sheet, faces: &[u16; 512]) -> u16
        requires { self.edge < 256 }
        ensures { result ≡ corner_of faces.now s.now.tails self.edge self.vertex }
    {
        across(faces, self.dart(s))
    }
}

// Whether a directed path leads from b to a. From vertex 0 one leads to every vertex, and to a row that is not above its start's none. From
// any other vertex than 0 no path takes edge 0, which starts there: so with an edge from a to b in the place of edge 0 there is a circle where
// a path leads from b to a.
fn leads_back(s: Sheet, rows: &[u16; 256], a: usize, b: usize) -> bool
    requires { Pair s a b × (rows.now ≡ (row_levels s).level) }
    ensures { result ≡ leads_to s b a }
{
    if b == 0 {
        return true;
    }
    if rows[a] <= rows[b] {
        return false;
    }
    let mut tails = s.tails;
    tails[0] = a as u16;
    let mut heads = s.heads;
    heads[0] = b as u16;
    let graph = Digraph {
        nodes: s.vertices,
        edges: s.edges,
        from: &tails,
        to: &heads,
    };
    graph.levels().is_none()
}

// The sheet with an edge between two corners.
#[tactic(auto, unfolding(edit::specs::Changes::run_edge))]
fn add_edge(s: Sheet, from: Corner, to: Corner) -> Sheet
    requires { Room s from to }
    ensures { result ≡ run_edge s from.vertex from.edge to.vertex to.edge }
{
    let m = s.edges;
    let mut made = Sheet { edges: m + 1, ..s };
    let start = from.dart(&s);
    let end = to.dart(&s);
    splice::insert_dart(&mut made.nexts, tail_dart(m), start);
    splice::insert_dart(&mut made.nexts, head_dart(m), end);
    made.tails[m] = from.vertex as u16;
    made.heads[m] = to.vertex as u16;
    made
}

// What run refuses, in order.
fn run_answer(s: Sheet, from: Corner, to: Corner) -> Result<(), Refusal>
    ensures { result ≡ run_answer s from.vertex from.edge to.vertex to.edge }
{
    let found = sheet::examine(s)?;
    if !from.is_named(&s) {
        return Err(Refusal::NotInSheet);
    }
    if !to.is_named(&s) {
        return Err(Refusal::NotInSheet);
    }
    join_answer(s, &found, from, to)
}

// What run refuses of a sound sheet whose vertices and edges are named, in order.
#[tactic(auto, using(crate::proofs::Corners::corner_is), unfolding(answers::specs::Refusals::first, edit::specs::Calls::run_answer))]
fn join_answer(s: Sheet, found: &Findings, from: Corner, to: Corner) -> Result<(), Refusal>
    requires { Named s found.now.faces from to × (found.now.rows ≡ (row_levels s).level) }
    ensures { result ≡ run_answer s from.vertex from.edge to.vertex to.edge }
{
    if !from.touches(&s) {
        return Err(Refusal::CornersApart);
    }
    if !to.touches(&s) {
        return Err(Refusal::CornersApart);
    }
    if from.face(&s, &found.faces) != to.face(&s, &found.faces) {
        return Err(Refusal::CornersApart);
    }
    if from.vertex == to.vertex {
        return Err(Refusal::ClosesCircle);
    }
    if leads_back(s, &found.rows, from.vertex, to.vertex) {
        return Err(Refusal::ClosesCircle);
    }
    if s.edges == 256 {
        return Err(Refusal::Full);
    }
    Ok(())
}

// Run: edge m goes from a to b; its end at a comes just after p clockwise, its end at b just after q.
#[tactic(auto, using(crate::proofs::Answers::given), unfolding(answers::specs::Refusals::answering))]
pub fn run(s: Sheet, a: usize, p: usize, b: usize, q: usize) -> Result<Sheet, Refusal>
    ensures { result ≡ run_call s a p b q }
{
    let from = Corner { vertex: a, edge: p };
    let to = Corner { vertex: b, edge: q };
    run_answer(s, from, to)?;
    Ok(add_edge(s, from, to))
}
