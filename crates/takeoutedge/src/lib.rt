// Take out an edge.
#![tactic(auto)]

ghost use Rattle.std.specs.Prelude.{◌≡◌, ◌≤◌, ◌<◌, eqb, length, get_or};
ghost use Rattle.counting.specs.Counts.{count};
ghost use Rattle.edit.specs.Changes.{last_edge_to, take_out_edge};
ghost use Rattle.edit.specs.Calls.{take_out_edge_answer, take_out_edge_call};

use answers::Refusal;
use clauses::{head_dart, tail_dart};
use sheet::Sheet;

// How many of the ends are at vertex v. `filter(..).count()` takes more than three times as long.
pub fn degree(ends: &[u16], v: usize) -> usize
    ensures { result ≡ count (λ k. eqb (get_or ends.now k 0) v) (length ends.now) }
{
    let mut found = 0;
    for &end in ends {
        if usize::from(end) == v {
            found += 1;
        }
    }
    found
}

// The last edge gets number k, and its old entries are 0. Any record may come in, so Sheet has no invariant, and the contracts name the bounds.
#[tactic(auto, unfolding(edit::specs::Changes::last_edge_to))]
pub fn last_edge_to(mut s: Sheet, k: usize) -> Sheet
    requires { (k < s.edges) × (s.edges ≤ 256) }
    ensures { result ≡ last_edge_to s k }
{
    let l = s.edges - 1;
    s.edges = l;
    s.tails[k] = s.tails[l];
    s.tails[l] = 0;
    s.heads[k] = s.heads[l];
    s.heads[l] = 0;
    let start = tail_dart(l);
    let end = head_dart(l);
    splice::replace_dart(&mut s.nexts, start, tail_dart(k));
    splice::replace_dart(&mut s.nexts, end, head_dart(k));
    s.nexts[usize::from(start)] = 0;
    s.nexts[usize::from(end)] = 0;
    s
}

// The sheet without edge k: both its darts leave their rings, and the last edge gets its number.
#[tactic(auto, unfolding(edit::specs::Changes::take_out_edge))]
fn without_edge(mut s: Sheet, k: usize) -> Sheet
    requires { (k < s.edges) × (s.edges ≤ 256) }
    ensures { result ≡ take_out_edge s k }
{
    splice::remove_dart(&mut s.nexts, tail_dart(k));
    splice::remove_dart(&mut s.nexts, head_dart(k));
    last_edge_to(s, k)
}

// What take out an edge refuses, in order.
#[tactic(auto, using(crate::proofs::Answers::counted), unfolding(answers::specs::Refusals::first, edit::specs::Calls::take_out_edge_answer))]
fn take_out_edge_answer(s: Sheet, k: usize) -> Result<(), Refusal>
    ensures { result ≡ take_out_edge_answer s k }
{
    if !sheet::is_sound(s) {
        return Err(Refusal::NotSound);
    }
    let m = s.edges;
    if m <= k {
        return Err(Refusal::NotInSheet);
    }
    if k == 0 {
        return Err(Refusal::RootEdge);
    }
    if m == 2 {
        return Err(Refusal::EdgeNeeded);
    }
    if degree(&s.tails[..m], usize::from(s.tails[k])) == 1 {
        return Err(Refusal::EdgeNeeded);
    }
    if degree(&s.heads[..m], usize::from(s.heads[k])) == 1 {
        return Err(Refusal::EdgeNeeded);
    }
    Ok(())
}

// Take out edge k: its tail must have another outgoing edge, and its head another incoming one.
#[tactic(auto, using(crate::proofs::Answers::given), unfolding(answers::specs::Refusals::answering))]
pub fn take_out_edge(s: Sheet, k: usize) -> Result<Sheet, Refusal>
    ensures { result ≡ take_out_edge_call s k }
{
    take_out_edge_answer(s, k)?;
    Ok(without_edge(s, k))
}
