// The columns of a drawing with the marks that bars gave them.
ghost use Rattle.std.specs.Prelude.{ℕ, ◌≡◌, ◌≢◌, ◌↔◌, ◌+◌, ◌*◌, ◌≤◌, ◌<◌, true, ◌&&◌, leb, cond};
ghost use Rattle.contact.specs.Columns.{mark_at, Kept, Covered};

// Columns, which are numbers below 1024, with the marks that bars gave them: a mark is 1 or more, 0 stands for none, and no mark falls. Columns lie in 32
// blocks of 32: a bar marks a block that it covers whole at once, and other columns one by one.
#[derive(Clone, Copy)]
pub struct Columns {
    // For each column the mark that it was given by itself.
    pub cells: [u16; 1024],
    // For each block the mark that it was given whole.
    pub blocks: [u16; 32],
    // For each block the greatest mark of its cells.
    pub greatest: [u16; 32],
}

impl Columns {
    // Before the first bar.
    pub fn unmarked() -> Columns
        ensures kept { Kept result 0 }
        ensures none { (x : ℕ) → mark_at result x ≡ 0 }
    {
        Columns {
            cells: [0; 1024],
            blocks: [0; 32],
            greatest: [0; 32],
        }
    }

    // The mark of a column.
    #[tactic(auto, unfolding(crate::specs::Columns::mark_at))]
    pub fn mark(&self, x: usize) -> u16
        requires { x < 1024 }
        ensures { result ≡ mark_at self.now x }
    {
        self.cells[x].max(self.blocks[x / 32])
    }

    // Marks a column; answers whether it did not have this mark.
    fn cover_column(&mut self, x: usize, mark: u16) -> bool
        requires { Kept self.old mark × (x < 1024) }
        ensures { Covered mark x (x + 1) result self.old self.new }
    {
        if self.mark(x) == mark {
            return false;
        }
        self.cells[x] = mark;
        self.greatest[x / 32] = mark;
        true
    }

    // Marks a whole block; answers whether none of its columns had this mark.
    fn cover_block(&mut self, block: usize, mark: u16) -> bool
        requires { Kept self.old mark × (block < 32) × (1 ≤ mark) }
        ensures { Covered mark (32 * block) (32 * block + 32) result self.old self.new }
    {
        if self.greatest[block] == mark || self.blocks[block] == mark {
            return false;
        }
        self.blocks[block] = mark;
        true
    }

    // Marks the columns of a bar, from its first to its last; answers whether none of them had this mark. It stops at the first column or block that had it.
    pub fn cover(&mut self, first: usize, last: usize, mark: u16) -> bool
        requires { Kept self.old mark × (first ≤ last) × (last < 1024) × (1 ≤ mark) }
        ensures kept { Kept self.new mark }
        ensures free { result ≡ true ↔ ((x : ℕ) → first ≤ x → x ≤ last → mark_at self.old x ≢ mark) }
        ensures marked { result ≡ true → (x : ℕ) → x < 1024 → mark_at self.new x ≡ cond (leb first x && leb x last) mark (mark_at self.old x) }
    {
        let mut x = first;
        while x <= last {
            if x % 32 == 0 && x + 31 <= last {
                if !self.cover_block(x / 32, mark) {
                    return false;
                }
                x += 32;
            } else {
                if !self.cover_column(x, mark) {
                    return false;
                }
                x += 1;
            }
        }
        true
    }
}
