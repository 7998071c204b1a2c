// The rings and the levels in one pass: whether the next darts of each vertex form one ring of exactly its darts, and the level of each
// vertex. The vertices are taken in topological order, and the ring of each is walked once. Before that the rule on vertices 0 and 1 is read
// off the numbers of darts and edges at each vertex, which that order and the walks need.
// Narrowing is by `as`: there is no `From` for it, and `TryFrom` would have a failing branch where the contracts show that the number fits.
#![tactic(auto)]

ghost use Rattle.std.specs.Prelude.{◌≡◌, true, false, ◌+◌, ◌*◌, ◌≤◌, ◌<◌};
ghost use Rattle.digraph.specs.Relaxed.{found};
ghost use Rattle.digraph.specs.Inner.{Ends, Waiting, Stepped};
ghost use Rattle.clauses.specs.Inner.{poles_of};
ghost use Rattle.rings.specs.Inner.{head_of, out_of, Readable, Held, Degrees, OneRingEach, Placed, Underway, PassedOn, ring_levels};

use clauses::Sheet;
use digraph::Sorting;

// The darts by their vertices, in fixed memory: the vertex of each, and the next round its vertex, both lent; and for each vertex how many darts it has, and one of them.
#[derive(Clone, Copy)]
struct Darts<'a> {
    count: usize,
    at: &'a [u16; 512],
    nexts: &'a [u16; 512],
    degree: [u16; 128],
    held: [u16; 128],
}

impl<'a> Darts<'a> {
    #[tactic(auto, using(crate::proofs::Rings::at_small))]
    fn of(count: usize, at: &'a [u16; 512], nexts: &'a [u16; 512]) -> Darts<'a>
        requires { Readable count at.now }
        ensures { (result.count ≡ count) × (result.at.now ≡ at.now) × (result.nexts.now ≡ nexts.now) × Degrees result.count result.at.now result.degree × Held result.count result.at.now result.held }
    {
        let mut degree = [0u16; 128];
        let mut held = [0u16; 128];
        for (d, &v) in at[..count].iter().enumerate() {
            let v = usize::from(v);
            degree[v] += 1;
            held[v] = d as u16;
        }
        Darts {
            count,
            at,
            nexts,
            degree,
            held,
        }
    }

    // Whether vertex 0 is the only one of n with no edge into it, and vertex 1 the only one with none out of it: such a vertex has as many darts as edges into
    // it. `into` has how many lead into each. All are looked at, which takes no branch.
    fn has_poles(&self, n: usize, into: &[u16; 256]) -> bool
        requires { (n ≤ 128) × Degrees self.now.count self.now.at.now self.now.degree }
        ensures { (P : Placed self.now.count self.now.at.now) → Waiting P.edges P.to (λ j. true) into.now → result ≡ poles_of n P.edges P.graph.from P.to }
    {
        let mut only = true;
        for (v, &edges_in) in into[..n].iter().enumerate() {
            only &= (edges_in == 0) == (v == 0);
            only &= (self.degree[v] == edges_in) == (v == 1);
        }
        only
    }

    // Passes the edge of dart d, if the dart is at its tail, in a walk round a vertex of level `row`. No branch hangs on the dart.
    fn pass_dart(&self, d: usize, row: u16, sorting: &mut Sorting)
        requires { (d < 512) × (head_of self.now.at.now d < 256) × (row ≤ 256) × (sorting.old.end ≤ 1024) }
        ensures { Stepped (head_of self.now.at.now d) row (out_of d) sorting.old sorting.new }
    {
        let out = ((d + 1) % 2) as u16;
        sorting.pass(usize::from(self.at[d / 2 * 2 + 1]), row, out);
    }

    // Walks round the vertex at `head` of the queue and passes the edges out of it. Its ring has all its darts and no others: it is closed after as many steps as
    // the vertex has darts, and not before. Returns whether it is so.
    #[tactic(auto, using(crate::proofs::Walking::places))]
    fn pass(&self, head: usize, sorting: &mut Sorting) -> bool
        requires { (head < sorting.old.end) × Underway self.now head sorting.old }
        ensures rings { result ≡ true → PassedOn self.now head sorting.old (head + 1) sorting.new }
        ensures none { result ≡ false → ¬ OneRingEach self.now.count self.now.at.now self.now.nexts.now }
    {
        let v = usize::from(sorting.queue[head]);
        let size = usize::from(self.degree[v]);
        if size == 0 {
            return true;
        }
        let start = usize::from(self.held[v]);
        let row = sorting.level[v];
        let mut d = start;
        for step in 1..=size {
            self.pass_dart(d, row, sorting);
            d = usize::from(self.nexts[d]);
            if self.count <= d || usize::from(self.at[d]) != v {
                return false;
            }
            if (d == start) != (step == size) {
                return false;
            }
        }
        true
    }

    // Walks round each vertex in the queue, which grows meanwhile: so no `for`. Returns whether all their darts form rings.
    fn settle(&self, sorting: &mut Sorting) -> bool
        requires { Underway self.now 0 sorting.old }
        ensures rings { result ≡ true → PassedOn self.now 0 sorting.old sorting.new.end sorting.new }
        ensures none { result ≡ false → ¬ OneRingEach self.now.count self.now.at.now self.now.nexts.now }
    {
        let mut head = 0;
        while head < sorting.end {
            if !self.pass(head, sorting) {
                return false;
            }
            head += 1;
        }
        true
    }
}

// The level of each vertex, where vertex 0 is the only one that is no head and vertex 1 the only one that is no tail, the next darts of each vertex
// form one ring of exactly its darts and the edges make no circle; else none.
pub fn levels(s: &Sheet) -> Option<[u16; 256]>
    requires { (s.now.vertices ≤ 128) × Ends s.now.vertices s.now.edges s.now.tails × Ends s.now.vertices s.now.edges s.now.heads }
    ensures { result ≡ found (ring_levels s.now.vertices s.now.edges s.now.tails s.now.heads s.now.nexts) }
{
    let at = s.places();
    let darts = Darts::of(2 * s.edges, &at, &s.nexts);
    let mut sorting = Sorting::start(&s.digraph());
    if !darts.has_poles(s.vertices, &sorting.waiting) {
        return None;
    }
    if !darts.settle(&mut sorting) {
        return None;
    }
    (s.vertices <= sorting.end).then_some(sorting.level)
}
