// Directions for the links of a sheet. Vertices are placed in an order that grows by ears: paths through vertices that are not placed, between two
// placed ones. At the end each edge leads from its lower vertex in the order to its higher one.
// Narrowing is by `as`: there is no `From` for it, and `TryFrom` would have a failing branch where the contracts show that the number fits.
#![tactic(auto)]

ghost use Rattle.std.specs.Prelude.{◌≡◌, ◌*◌, ◌<◌, ◌≤◌, false};
ghost use Rattle.std.specs.Option.{option_map};
ghost use Rattle.sheet.specs.Darts.{tail, head};
ghost use Rattle.digraph.specs.Inner.{Ends};
ghost use Rattle.orientation.specs.Ears.{graph_of, insert_at, entry, own_parents, sweep, exit, explored, put_along, with_ear, order_of, chosen_tail, chosen_head, oriented, enters, exits, relaxed};
ghost use Rattle.orientation.specs.Inner.{Low, dart_ends};

use sheet::Sheet;

// A dart by its two vertices: it leads from one to the other.
#[derive(Clone, Copy)]
struct Dart {
    from: u16,
    to: u16,
    ghost from_in: { from < 128 },
    ghost to_in: { to < 128 },
}

impl Dart {
    // The other dart of its link.
    fn back(self) -> Dart
        ensures { (result.from ≡ self.to) × (result.to ≡ self.from) }
    {
        Dart {
            from: self.to,
            to: self.from,
        }
    }

    // Whether it leads from a placed vertex to one that is not placed.
    #[tactic(auto, unfolding(crate::specs::Ears::is_placed, crate::specs::Ears::enters))]
    fn enters(self, order: &[u16; 128]) -> bool
        ensures { result ≡ enters order.now self.from self.to }
    {
        order[usize::from(self.from)] != 0 && order[usize::from(self.to)] == 0
    }

    // Whether it leads from a reached vertex to a placed one other than u.
    #[tactic(auto, unfolding(crate::specs::Ears::is_placed, crate::specs::Ears::is_reached, crate::specs::Ears::exits))]
    fn exits(self, order: &[u16; 128], parents: &[u16; 128], u: u16) -> bool
        ensures { result ≡ exits order.now parents.now u self.from self.to }
    {
        parents[usize::from(self.from)] != self.from
            && order[usize::from(self.to)] != 0
            && self.to != u
    }

    // Where it leads from a reached vertex to one that is neither reached nor placed, the one becomes the other's parent. Returns whether it is so.
    #[tactic(auto, unfolding(crate::specs::Ears::is_placed, crate::specs::Ears::is_reached, crate::specs::Ears::relaxed))]
    fn relax(self, order: &[u16; 128], parents: &mut [u16; 128]) -> bool
        ensures parents { parents.new ≡ relaxed order.now parents.old self.from self.to }
        ensures same { result ≡ false → parents.new ≡ parents.old }
    {
        let to = usize::from(self.to);
        let extends = parents[usize::from(self.from)] != self.from
            && parents[to] == self.to
            && order[to] == 0;
        if extends {
            parents[to] = self.from;
        }
        extends
    }
}

// At first each vertex is its own parent.
#[tactic(auto, using(crate::proofs::Turns::own_steps))]
fn own_parents() -> [u16; 128]
    ensures { result ≡ own_parents 128 }
{
    let mut parents = [0u16; 128];
    for (v, parent) in parents.iter_mut().enumerate() {
        *parent = v as u16;
    }
    parents
}

// Vertex v gets place p, and those from p on move up.
#[tactic(auto, using(crate::proofs::Turns::insert_steps))]
fn insert_at(p: u16, v: usize, order: &mut [u16; 128])
    requires { (v < 128) × Low 65534 order.old }
    ensures { order.new ≡ insert_at p v order.old }
{
    for place in order.iter_mut() {
        *place += u16::from(p <= *place);
    }
    order[v] = p;
}

// From a vertex to its parent and so on to a placed vertex, 128 vertices at most: each is put next to vertex u, just above it or just below.
// A place rises by one at most with each vertex that is put in, so that places fit: the bounds leave room for 128 of them.
#[tactic(auto, using(crate::proofs::Turns::put_steps))]
fn put_along(parents: &[u16; 128], u: u16, up: bool, first: u16, order: &mut [u16; 128])
    requires { (u < 128) × (first < 128) × Low 127 parents.now × Low 65000 order.old }
    ensures { order.new ≡ put_along 128 parents.now u up first order.old }
{
    let mut v = usize::from(first);
    for _vertex in 0..128usize {
        if order[v] != 0 {
            return;
        }
        let place = order[usize::from(u)] + u16::from(up);
        insert_at(place, v, order);
        v = usize::from(parents[v]);
    }
}

// The links of a sheet, each by both its darts.
#[derive(Clone, Copy)]
struct Links<'a> {
    sheet: &'a Sheet,
    ghost few: { sheet.now.vertices ≤ 128 },
    ghost tails_in: { Ends 128 sheet.now.edges sheet.now.tails },
    ghost heads_in: { Ends 128 sheet.now.edges sheet.now.heads },
}

impl Links<'_> {
    // Dart 2k, from the first vertex of link k to its second. Dart 2k + 1 leads back.
    fn dart(&self, k: usize) -> Dart
        requires { k < self.now.sheet.now.edges }
        ensures { (result.from ≡ tail self.now.sheet.now k) × (result.to ≡ head self.now.sheet.now k) }
    {
        Dart {
            from: self.sheet.tails[k],
            to: self.sheet.heads[k],
        }
    }

    // The lowest dart from a placed vertex to one that is not placed.
    #[tactic(auto, using(crate::proofs::Darts::entry_steps))]
    fn entry(&self, order: &[u16; 128]) -> Option<Dart>
        ensures { option_map (λ d. (d.from, d.to)) result ≡ dart_ends (graph_of self.now.sheet.now) (entry (graph_of self.now.sheet.now) order.now) }
    {
        for k in 0..self.sheet.edges {
            let dart = self.dart(k);
            if dart.enters(order) {
                return Some(dart);
            }
            if dart.back().enters(order) {
                return Some(dart.back());
            }
        }
        None
    }

    // The lowest dart from a reached vertex to a placed one other than u.
    #[tactic(auto, using(crate::proofs::Darts::exit_steps))]
    fn exit(&self, order: &[u16; 128], parents: &[u16; 128], u: u16) -> Option<Dart>
        ensures { option_map (λ d. (d.from, d.to)) result ≡ dart_ends (graph_of self.now.sheet.now) (exit (graph_of self.now.sheet.now) order.now u parents.now) }
    {
        for k in 0..self.sheet.edges {
            let dart = self.dart(k);
            if dart.exits(order, parents, u) {
                return Some(dart);
            }
            if dart.back().exits(order, parents, u) {
                return Some(dart.back());
            }
        }
        None
    }

    // All darts in turn: where one leads from a reached vertex to one that is neither reached nor placed, the one becomes the other's parent.
    // Returns whether there was such a dart.
    #[tactic(auto, using(crate::proofs::Darts::sweep_steps))]
    fn sweep(&self, order: &[u16; 128], parents: &mut [u16; 128]) -> bool
        ensures parents { parents.new ≡ sweep (graph_of self.now.sheet.now) order.now (2 * self.now.sheet.now.edges) parents.old }
        ensures same { result ≡ false → parents.new ≡ parents.old }
    {
        let mut changed = false;
        for k in 0..self.sheet.edges {
            let dart = self.dart(k);
            changed |= dart.relax(order, parents);
            changed |= dart.back().relax(order, parents);
        }
        changed
    }

    // Sweeps, as many times as there are vertices at most, until a dart leads from a reached vertex to a placed one other than u, or no more vertices are reached: that dart.
    // An ear that is found after many sweeps is long, so that all ears together take few (argued, not proved: docs/DECISIONS.md).
    #[tactic(auto, using(crate::proofs::Turns::explore_steps))]
    fn explore(&self, order: &[u16; 128], u: u16, parents: &mut [u16; 128]) -> Option<Dart>
        ensures parents { parents.new ≡ explored (graph_of self.now.sheet.now) order.now u self.now.sheet.now.vertices parents.old }
        ensures dart { option_map (λ d. (d.from, d.to)) result ≡ dart_ends (graph_of self.now.sheet.now) (exit (graph_of self.now.sheet.now) order.now u parents.new) }
    {
        for _sweep in 0..self.sheet.vertices {
            let exit = self.exit(order, parents, u);
            if exit.is_some() {
                return exit;
            }
            if !self.sweep(order, parents) {
                return None;
            }
        }
        self.exit(order, parents, u)
    }

    // An ear more; returns whether there is one.
    #[tactic(auto, using(crate::proofs::Turns::ear_steps))]
    fn add_ear(&self, order: &mut [u16; 128]) -> bool
        requires { Low 65000 order.old }
        ensures order { order.new ≡ with_ear (graph_of self.now.sheet.now) order.old }
        ensures same { result ≡ false → order.new ≡ order.old }
    {
        let Some(entry) = self.entry(order) else {
            return false;
        };
        let u = entry.from;
        let mut parents = own_parents();
        parents[usize::from(entry.to)] = u;
        let Some(exit) = self.explore(order, u, &mut parents) else {
            return false;
        };
        let up = order[usize::from(u)] < order[usize::from(exit.to)];
        put_along(&parents, u, up, exit.from, order);
        true
    }

    // The order after all ears, of which there are fewer than vertices.
    #[tactic(auto, using(crate::proofs::Turns::order_steps))]
    fn order(&self) -> [u16; 128]
        ensures { result ≡ order_of self.now.sheet.now }
    {
        let mut order = [0u16; 128];
        order[0] = 1;
        order[1] = 2;
        for _ear in 0..self.sheet.vertices {
            if !self.add_ear(&mut order) {
                return order;
            }
        }
        order
    }

    // Link k with its direction: turned round where its second vertex is lower in the order than its first; link 0 as it is.
    #[tactic(auto, unfolding(crate::specs::Ears::is_reversed, crate::specs::Ears::chosen_tail, crate::specs::Ears::chosen_head))]
    fn chosen(&self, order: &[u16; 128], k: usize) -> Dart
        requires { k < self.now.sheet.now.edges }
        ensures { (result.from ≡ chosen_tail self.now.sheet.now order.now k) × (result.to ≡ chosen_head self.now.sheet.now order.now k) }
    {
        let dart = self.dart(k);
        let reversed = k != 0 && order[usize::from(dart.to)] < order[usize::from(dart.from)];
        if reversed { dart.back() } else { dart }
    }
}

// The sheet of links with the directions that we choose: each link leads from its lower vertex in the order to its higher one, but link 0 stays as it is.
#[tactic(auto, using(crate::proofs::Turns::oriented_steps))]
pub fn oriented(s: &Sheet) -> Sheet
    requires { (s.now.vertices ≤ 128) × Ends 128 s.now.edges s.now.tails × Ends 128 s.now.edges s.now.heads }
    ensures { result ≡ oriented s.now }
{
    let links = Links { sheet: s };
    let order = links.order();
    let mut tails = [0u16; 256];
    let mut heads = [0u16; 256];
    for k in 0..s.edges {
        let dart = links.chosen(&order, k);
        tails[k] = dart.from;
        heads[k] = dart.to;
    }
    Sheet {
        vertices: s.vertices,
        edges: s.edges,
        tails,
        heads,
        nexts: s.nexts,
    }
}
