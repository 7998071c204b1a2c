// Levels of the nodes of a digraph: for each the most edges on a directed path to it; or the finding of a circle.
// Narrowing is by `as`: there is no `From` for it, and `TryFrom` would have a failing branch where the contracts show that the number fits.
#![tactic(auto)]

ghost use Rattle.std.specs.Prelude.{◌≡◌, IsTrue, ◌↔◌, true, ℕ, ◌+◌, ◌≤◌, ◌<◌, get_or};
ghost use Rattle.digraph.specs.Digraph.{Within, flat};
ghost use Rattle.digraph.specs.Relaxed.{within_of, found, levels_of};
ghost use Rattle.digraph.specs.Inner.{Ends, Chained, Waiting, Queued, Stepped, Underway, Onward};

// Whether the first `edges` of these ends are nodes.
fn are_nodes(ends: &[u16; 256], edges: usize, nodes: usize) -> bool
    requires { edges ≤ 256 }
    ensures { IsTrue result ↔ ((k : ℕ) → k < edges → get_or ends.now k 0 < nodes) }
{
    ends[..edges].iter().all(|&v| usize::from(v) < nodes)
}

// For each node the number of the edges into it.
pub fn waiting_edges(edges: usize, to: &[u16; 256]) -> [u16; 256]
    requires { Ends 256 edges to.now }
    ensures { Waiting edges to.now (λ j. true) result }
{
    let mut waiting = [0u16; 256];
    for &w in &to[..edges] {
        waiting[usize::from(w)] += 1;
    }
    waiting
}

// Puts the nodes for which no edge waits in the queue; returns how many there are.
#[tactic(auto, using(crate::proofs::Waits::places))]
pub fn sources(nodes: usize, waiting: &[u16; 256], queue: &mut [u16; 256]) -> usize
    requires { nodes ≤ 256 }
    ensures { Queued nodes waiting.now queue.new result }
{
    let mut tail = 0;
    for (v, &left) in waiting[..nodes].iter().enumerate() {
        queue[tail] = v as u16;
        tail += usize::from(left == 0);
    }
    tail
}

// A digraph of `nodes` nodes: edge k of its `edges` edges goes from node from[k] to to[k]. The other entries are not looked at.
#[derive(Clone, Copy)]
pub struct Digraph<'a> {
    pub nodes: usize,
    pub edges: usize,
    pub from: &'a [u16; 256],
    pub to: &'a [u16; 256],
}

// How far the nodes are taken in topological order: for each the number of the edges into it that wait, and its level so far; and a queue
// of the nodes for which no edge waits, `end` of them. Fixed memory: arrays, no heap.
#[derive(Clone, Copy)]
pub struct Sorting {
    pub waiting: [u16; 256],
    pub level: [u16; 256],
    pub queue: [u16; 256],
    pub end: usize,
}

impl Sorting {
    // Before the first edge is passed: each of them waits.
    pub fn start(graph: &Digraph) -> Sorting
        requires { (graph.now.nodes ≤ 256) × Ends 256 graph.now.edges graph.now.to.now }
        ensures waiting { Waiting graph.now.edges graph.now.to.now (λ j. true) result.waiting }
        ensures queued { Queued graph.now.nodes result.waiting result.queue result.end }
        ensures level { result.level ≡ flat }
    {
        let mut sorting = Sorting {
            waiting: waiting_edges(graph.edges, graph.to),
            level: [0u16; 256],
            queue: [0u16; 256],
            end: 0,
        };
        sorting.end = sources(graph.nodes, &sorting.waiting, &mut sorting.queue);
        sorting
    }

    // Passes an edge to node w from one of level `row`, if `out` is 1, or none, if it is 0: w is raised above that level, and goes into the queue where
    // no other edge waits for it: it is stored past the queue's end, which moves on only then. No branch hangs on it.
    pub fn pass(&mut self, w: usize, row: u16, out: u16)
        requires { (w < 256) × (row ≤ 256) × (out ≤ 1) × (self.old.end ≤ 1024) }
        ensures { Stepped w row out self.old self.new }
    {
        self.level[w] = self.level[w].max(row + out);
        let left = self.waiting[w].saturating_sub(out);
        self.waiting[w] = left;
        self.queue[self.end % 256] = w as u16;
        self.end += usize::from(left < out);
    }
}

// The edges in a list for each node, of those out of it: the first at the node, and after each edge the next. 256 ends a list: entries of type
// Option<u8> were tried in its place, and `levels` took a tenth to a fifth longer.
#[derive(Clone, Copy)]
struct Lists<'a> {
    graph: Digraph<'a>,
    first: [u16; 256],
    after: [u16; 256],
}

impl<'a> Lists<'a> {
    // The lists, made from the last edge down, by its number, which is what is stored.
    fn chain(graph: &Digraph<'a>) -> Lists<'a>
        requires { Ends 256 graph.now.edges graph.now.from.now }
        ensures { (result.graph ≡ graph.now) × Chained 0 graph.now.edges graph.now.from.now result.first result.after }
    {
        let mut first = [256u16; 256];
        let mut after = [256u16; 256];
        for k in (0..graph.edges).rev() {
            let v = usize::from(graph.from[k]);
            after[k] = first[v];
            first[v] = k as u16;
        }
        Lists {
            graph: *graph,
            first,
            after,
        }
    }

    // Passes the edges out of the node at `head` of the queue. The loop follows a list: it counts nothing.
    fn pass(&self, head: usize, sorting: &mut Sorting)
        requires { (head < sorting.old.end) × Underway self.now head sorting.old }
        ensures { Onward self.now head sorting.old (head + 1) sorting.new }
    {
        let v = usize::from(sorting.queue[head]);
        let row = sorting.level[v];
        let mut k = usize::from(self.first[v]);
        while k < self.graph.edges {
            sorting.pass(usize::from(self.graph.to[k]), row, 1);
            k = usize::from(self.after[k]);
        }
    }

    // Passes the edges out of each node in the queue, which grows meanwhile: so no `for`. rings has these lines too, with a pass that may stop: one function
    // over both would ask its caller for what a pass keeps, and be longer than both.
    fn settle(&self, sorting: &mut Sorting)
        requires { Underway self.now 0 sorting.old }
        ensures { Onward self.now 0 sorting.old sorting.new.end sorting.new }
    {
        let mut head = 0;
        while head < sorting.end {
            self.pass(head, sorting);
            head += 1;
        }
    }
}

impl<'a> Digraph<'a> {
    // Whether the counts are within the arrays and each edge joins two nodes.
    fn is_within(&self) -> bool
        ensures { result ≡ within_of self.now.nodes self.now.edges self.now.from.now self.now.to.now }
    {
        let Digraph {
            nodes,
            edges,
            from,
            to,
        } = *self;
        if 256 < nodes || 256 < edges {
            return false;
        }
        are_nodes(from, edges, nodes) && are_nodes(to, edges, nodes)
    }

    // The level of each node, where the edges make no circle; none where they make one, and where an end is no node.
    pub fn levels(&self) -> Option<[u16; 256]>
        ensures { result ≡ found (levels_of self.now.nodes self.now.edges self.now.from.now self.now.to.now) }
    {
        if !self.is_within() {
            return None;
        }
        self.levels_within()
    }

    // The same of a digraph whose counts are within the arrays and whose edges join nodes: these are not tested.
    pub fn levels_within(&self) -> Option<[u16; 256]>
        requires { Within self.now.nodes self.now.edges self.now.from.now self.now.to.now }
        ensures { result ≡ found (levels_of self.now.nodes self.now.edges self.now.from.now self.now.to.now) }
    {
        let lists = Lists::chain(self);
        let mut sorting = Sorting::start(self);
        lists.settle(&mut sorting);
        (self.nodes <= sorting.end).then_some(sorting.level)
    }
}
