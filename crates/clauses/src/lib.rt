// The sheet record and the clauses of its soundness, each in time linear in it, and the darts that they speak of.
// Narrowing is by `as`: there is no `From` for it, and `TryFrom` would have a failing branch where the contracts show that the number fits.
#![tactic(auto)]

ghost use Rattle.std.specs.Prelude.{◌≡◌, not, ◌&&◌, ◌*◌, ◌≤◌, ◌<◌, eqb, ltb};
ghost use Rattle.std.specs.List.{list_all};
ghost use Rattle.counting.specs.Below.{all_below, tabulate};
ghost use Rattle.clauses.specs.Darts.{tail_dart, head_dart, dart_of};
ghost use Rattle.digraph.specs.Inner.{Ends};
ghost use Rattle.clauses.specs.Inner.{limits_of, joins_at, unused_of, dart_table, vertex_of, walk_of, end_of, pole_at, poles_of, rooted_of};

use digraph::Digraph;

// A sheet by value, in arrays (fixed memory, and the form that the specification names). Edge k (document 01's wire k) goes from vertex (bar) tails[k] to heads[k]. Dart 2k (end 2k)
// is its end at the tail, dart 2k + 1 its end at the head; nexts[d] is the next dart clockwise at the same vertex.
#[derive(Clone, Copy)]
pub struct Sheet {
    pub vertices: usize,
    pub edges: usize,
    pub tails: [u16; 256],
    pub heads: [u16; 256],
    pub nexts: [u16; 512],
}

// Whether an edge joins two different vertices of n.
pub fn joins(n: usize, tail: u16, head: u16) -> bool
    ensures { result ≡ (ltb tail n && ltb head n && not (eqb tail head)) }
{
    usize::from(tail) < n && usize::from(head) < n && tail != head
}

// Whether all entries are 0.
fn all_zero(entries: &[u16]) -> bool
    ensures { result ≡ list_all (λ e. eqb e 0) entries.now }
{
    entries.iter().all(|&entry| entry == 0)
}

// The dart of edge k at its tail.
pub fn tail_dart(k: usize) -> u16
    requires { k < 256 }
    ensures { (result ≡ tail_dart k) × (result < 512) }
{
    (2 * k) as u16
}

// The dart of edge k at its head.
pub fn head_dart(k: usize) -> u16
    requires { k < 256 }
    ensures { (result ≡ head_dart k) × (result < 512) }
{
    (2 * k + 1) as u16
}

// The dart of edge k at vertex v, which is one of its ends. Which of its two darts that is takes no branch, since nothing foretells it.
#[tactic(auto, unfolding(crate::specs::Darts::dart_of))]
pub fn dart_at(tails: &[u16; 256], k: usize, v: usize) -> u16
    requires { k < 256 }
    ensures { (result ≡ dart_of tails.now k v) × (result < 512) }
{
    let at_tail = usize::from(tails[k]) == v;
    (2 * k + 1 - usize::from(at_tail)) as u16
}

// Marks each vertex that is among the first m ends. An array and a count, since a slice is no plainer: the contracts of `has_poles` speak of the first m
// entries of a sheet's arrays, and each use would need a law on their part.
#[tactic(auto, using(crate::proofs::Marks::mark_steps))]
fn marked(m: usize, ends: &[u16; 256]) -> [bool; 256]
    requires { Ends 256 m ends.now }
    ensures { result ≡ tabulate (end_of ends.now m) 256 }
{
    let mut marks = [false; 256];
    for &end in &ends[..m] {
        marks[usize::from(end)] = true;
    }
    marks
}

// Whether `pole` is the only vertex of n that is not among the first m ends. All are looked at, which takes no branch.
#[tactic(auto, using(crate::proofs::Marks::mark_steps))]
fn only_pole(n: usize, m: usize, ends: &[u16; 256], pole: usize) -> bool
    requires { (n ≤ 256) × Ends 256 m ends.now }
    ensures { result ≡ all_below (pole_at m ends.now pole) n }
{
    let marks = marked(m, ends);
    let mut only = true;
    for (v, &mark) in marks[..n].iter().enumerate() {
        only &= mark != (v == pole);
    }
    only
}

impl Sheet {
    // Whether the counts of vertices and edges are within limits.
    #[tactic(auto, unfolding(crate::specs::Inner::limits_of))]
    pub fn within_limits(&self) -> bool
        ensures { result ≡ limits_of self.now.vertices self.now.edges }
    {
        (2..=128).contains(&self.vertices) && (2..=256).contains(&self.edges)
    }

    // Whether each edge joins two different vertices.
    pub fn all_join(&self) -> bool
        requires { self.now.edges ≤ 256 }
        ensures { result ≡ all_below (joins_at self.now.vertices self.now.tails self.now.heads) self.now.edges }
    {
        let n = self.vertices;
        let m = self.edges;
        self.tails[..m]
            .iter()
            .zip(&self.heads[..m])
            .all(|(&tail, &head)| joins(n, tail, head))
    }

    // Whether the entries past the last edge are 0.
    #[tactic(auto, using(crate::proofs::Below::zero_rest), unfolding(crate::specs::Inner::unused_of))]
    pub fn unused_zero(&self) -> bool
        requires { self.now.edges ≤ 256 }
        ensures { result ≡ unused_of self.now.edges self.now.tails self.now.heads self.now.nexts }
    {
        let m = self.edges;
        all_zero(&self.tails[m..]) && all_zero(&self.heads[m..]) && all_zero(&self.nexts[2 * m..])
    }

    // The vertex of each dart. It fills two entries a turn, as `walks` does: one function over both would be handed an entry by a closure, and test of each dart which end it is.
    #[tactic(auto, using(crate::proofs::Tables::table_steps))]
    pub fn places(&self) -> [u16; 512]
        requires { self.now.edges ≤ 256 }
        ensures { result ≡ dart_table (vertex_of self.now.tails self.now.heads) (2 * self.now.edges) }
    {
        let mut at = [0u16; 512];
        for k in 0..self.edges {
            at[2 * k] = self.tails[k];
            at[2 * k + 1] = self.heads[k];
        }
        at
    }

    // The dart that the walk takes after each dart.
    #[tactic(auto, using(crate::proofs::Tables::table_steps))]
    pub fn walks(&self) -> [u16; 512]
        requires { self.now.edges ≤ 256 }
        ensures { result ≡ dart_table (walk_of self.now.nexts) (2 * self.now.edges) }
    {
        let mut walk = [0u16; 512];
        for k in 0..self.edges {
            walk[2 * k] = self.nexts[2 * k + 1];
            walk[2 * k + 1] = self.nexts[2 * k];
        }
        walk
    }

    // Whether vertex 0 is the only one that is no head, and vertex 1 the only one that is no tail.
    #[tactic(auto, unfolding(crate::specs::Inner::poles_of))]
    pub fn has_poles(&self) -> bool
        requires { (self.now.vertices ≤ 256) × Ends 256 self.now.edges self.now.tails × Ends 256 self.now.edges self.now.heads }
        ensures { result ≡ poles_of self.now.vertices self.now.edges self.now.tails self.now.heads }
    {
        only_pole(self.vertices, self.edges, &self.heads, 0)
            && only_pole(self.vertices, self.edges, &self.tails, 1)
    }

    // Whether edge 0 goes from vertex 0 to vertex 1.
    #[tactic(auto, unfolding(crate::specs::Inner::rooted_of))]
    pub fn is_rooted(&self) -> bool
        ensures { result ≡ rooted_of self.now.tails self.now.heads }
    {
        self.tails[0] == 0 && self.heads[0] == 1
    }

    // Its vertices and edges as a digraph.
    pub fn digraph<'a>(&'a self) -> Digraph<'a>
        ensures { (result.nodes ≡ self.now.vertices) × (result.edges ≡ self.now.edges) × (result.from.now ≡ self.now.tails) × (result.to.now ≡ self.now.heads) }
    {
        Digraph {
            nodes: self.vertices,
            edges: self.edges,
            from: &self.tails,
            to: &self.heads,
        }
    }
}
