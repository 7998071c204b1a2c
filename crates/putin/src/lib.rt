// Put in.
// Narrowing is by `as`: there is no `From` for it, and `TryFrom` would have a failing branch where the contracts show that the number fits.
#![tactic(auto)]

ghost use Rattle.std.specs.Prelude.{◌≡◌, ◌<◌};
ghost use Rattle.edit.specs.Changes.{put_in};
ghost use Rattle.edit.specs.Calls.{put_in_answer, put_in_call};

use answers::Refusal;
use clauses::{head_dart, tail_dart};
use sheet::Sheet;

// The sheet with a new vertex in edge k.
#[tactic(auto, unfolding(edit::specs::Changes::put_in))]
fn split_edge(s: Sheet, k: usize) -> Sheet
    requires { (k < s.edges) × (s.vertices < 128) × (s.edges < 256) }
    ensures { result ≡ put_in s k }
{
    let n = s.vertices;
    let m = s.edges;
    let mut made = Sheet {
        vertices: n + 1,
        edges: m + 1,
        ..s
    };
    made.tails[m] = n as u16;
    made.heads[m] = made.heads[k];
    made.heads[k] = n as u16;
    let end = head_dart(k);
    let start = tail_dart(m);
    splice::replace_dart(&mut made.nexts, end, head_dart(m));
    made.nexts[usize::from(end)] = start;
    made.nexts[usize::from(start)] = end;
    made
}

// What put in refuses, in order.
#[tactic(auto, unfolding(answers::specs::Refusals::first, edit::specs::Calls::put_in_answer))]
fn put_in_answer(s: Sheet, k: usize) -> Result<(), Refusal>
    ensures { result ≡ put_in_answer s k }
{
    if !sheet::is_sound(s) {
        return Err(Refusal::NotSound);
    }
    if s.edges <= k {
        return Err(Refusal::NotInSheet);
    }
    if k == 0 {
        return Err(Refusal::RootEdge);
    }
    if s.vertices == 128 {
        return Err(Refusal::Full);
    }
    if s.edges == 256 {
        return Err(Refusal::Full);
    }
    Ok(())
}

// Put in: vertex n is new; edge k now ends there, edge m goes from there to the old head and takes k's place in its ring.
#[tactic(auto, using(preservation::proofs::PutIn::put_in_given), unfolding(answers::specs::Refusals::answering))]
pub fn put_in(s: Sheet, k: usize) -> Result<Sheet, Refusal>
    ensures { result ≡ put_in_call s k }
{
    put_in_answer(s, k)?;
    Ok(split_edge(s, k))
}
