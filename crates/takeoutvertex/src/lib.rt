// Take out a vertex that has one incoming and one outgoing edge.
// Narrowing is by `as`: there is no `From` for it, and `TryFrom` would have a failing branch where the contracts show that the number fits.
#![tactic(auto)]

ghost use Rattle.std.specs.Prelude.{◌≡◌, ◌≤◌, ◌<◌, eqb, length, get_or, MatchOption};
ghost use Rattle.counting.specs.Below.{lowest_below};
ghost use Rattle.edit.specs.Changes.{last_vertex_to, take_out_vertex};
ghost use Rattle.edit.specs.Calls.{in_degree, out_degree, take_out_vertex_answer, take_out_vertex_call};

use answers::Refusal;
use clauses::head_dart;
use sheet::Sheet;
use takeoutedge::{degree, last_edge_to};

// The number of the first end that is at vertex v.
fn lowest(ends: &[u16], v: usize) -> Option<usize>
    ensures { let m = length ends.now in let least = lowest_below (λ k. eqb (get_or ends.now k 0) v) m in MatchOption result (least ≡ m) (λ k. (k < m) × (k ≡ least)) }
{
    ends.iter().position(|&end| usize::from(end) == v)
}

// The last vertex gets number v. Any record may come in, so Sheet has no invariant, and the contracts name the bounds.
#[tactic(auto, unfolding(edit::specs::Changes::last_vertex_to))]
fn last_vertex_to(s: &mut Sheet, v: usize)
    requires { (v < s.old.vertices) × (s.old.vertices ≤ 128) }
    ensures { s.new ≡ last_vertex_to s.old v }
{
    let l = s.vertices - 1;
    s.vertices = l;
    splice::rename(&mut s.tails, l as u16, v as u16);
    splice::rename(&mut s.heads, l as u16, v as u16);
}

// The sheet without vertex v: its incoming edge goes on to the head of its outgoing edge, which goes.
// The last edge gets the freed number, then the last vertex gets number v.
fn without_vertex(mut s: Sheet, v: usize) -> Sheet
    requires { (v < s.vertices) × (s.vertices ≤ 128) × (s.edges ≤ 256) × (in_degree s v ≡ 1) × (out_degree s v ≡ 1) }
    ensures { result ≡ take_out_vertex s v }
{
    let m = s.edges;
    let i = lowest(&s.heads[..m], v).unwrap();
    let o = lowest(&s.tails[..m], v).unwrap();
    s.heads[i] = s.heads[o];
    splice::replace_dart(&mut s.nexts, head_dart(o), head_dart(i));
    let mut made = last_edge_to(s, o);
    last_vertex_to(&mut made, v);
    made
}

// What take out a vertex refuses, in order.
#[tactic(auto, using(takeoutedge::proofs::Answers::counted), unfolding(answers::specs::Refusals::first, edit::specs::Calls::take_out_vertex_answer))]
fn take_out_vertex_answer(s: Sheet, v: usize) -> Result<(), Refusal>
    ensures { result ≡ take_out_vertex_answer s v }
{
    if !sheet::is_sound(s) {
        return Err(Refusal::NotSound);
    }
    let n = s.vertices;
    if n <= v {
        return Err(Refusal::NotInSheet);
    }
    if v == 0 {
        return Err(Refusal::VertexNeeded);
    }
    if v == 1 {
        return Err(Refusal::VertexNeeded);
    }
    let m = s.edges;
    if degree(&s.heads[..m], v) != 1 {
        return Err(Refusal::VertexNeeded);
    }
    if degree(&s.tails[..m], v) != 1 {
        return Err(Refusal::VertexNeeded);
    }
    Ok(())
}

// Take out vertex v: it must have exactly one incoming and one outgoing edge.
#[tactic(auto, unfolding(answers::specs::Refusals::answering))]
pub fn take_out_vertex(s: Sheet, v: usize) -> Result<Sheet, Refusal>
    ensures { result ≡ take_out_vertex_call s v }
{
    take_out_vertex_answer(s, v)?;
    Ok(without_vertex(s, v))
}
