// The parts of a drawing in lists by rows.
ghost use Rattle.std.specs.Prelude.{ℕ, ◌≡◌, ◌≤◌, ◌<◌};
ghost use Rattle.contact.specs.Lists.{Linked};
ghost use Rattle.contact.specs.Free.{row_of, high_of};

use drawing::Drawing;

// Items in a list for each key: the first item of the key, and after each item the next; 256 ends a list.
#[derive(Clone, Copy)]
pub struct Lists {
    pub first: [u16; 1024],
    pub after: [u16; 256],
}

impl Lists {
    // The lists, made from the last item down.
    pub fn by<F: Fn(usize) -> usize>(items: usize, key: F) -> Lists
        requires few { items ≤ 256 }
        requires callable { (k : ℕ) → k < items → F.pre key k }
        requires small { (k r : ℕ) → k < items → F.post key k r → r < 1024 }
        ensures { (of : ℕ → ℕ) → ((k r : ℕ) → k < items → F.post key k r → r ≡ of k) → Linked 0 items of result.first result.after }
    {
        let mut lists = Lists {
            first: [256; 1024],
            after: [256; 256],
        };
        for k in (0..items).rev() {
            let r = key(k);
            lists.after[k] = lists.first[r];
            lists.first[r] = k as u16;
        }
        lists
    }
}

// The vertices of a drawing by their rows, and its edges by the rows of their upper ends.
#[derive(Clone, Copy)]
pub struct ByRow<'a> {
    pub drawing: &'a Drawing,
    pub vertices: usize,
    pub edges: usize,
    pub vertices_at: &'a Lists,
    pub edges_at: &'a Lists,
    ghost vertices_linked: { Linked 0 vertices (row_of drawing.now) vertices_at.now.first vertices_at.now.after },
    ghost edges_linked: { Linked 0 edges (high_of drawing.now) edges_at.now.first edges_at.now.after },
}
