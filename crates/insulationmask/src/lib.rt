// The insulation mask of a sheet, in time linear in the sheet.
#![tactic(auto)]

ghost use Rattle.std.specs.Prelude.{◌≡◌, ◌≢◌, ◌+◌, ◌≤◌, ◌<◌};
ghost use Rattle.sheet.specs.Check.{face_count, column};
ghost use Rattle.halves.specs.Halves.{half_below};
ghost use Rattle.counting.specs.Below.{table};
ghost use Rattle.insulationmask.specs.Laid.{no_segment, no_mask};
ghost use Rattle.insulationmask.specs.Mask.{level_row, upright_of, level_of, nth_segment, mask_of, insulation_mask_call, returned};
ghost use Rattle.insulationmask.specs.Inner.{Placed, widened_by, span_of, Spans};

use answers::Refusal;
use halves::{half_above, half_below};
use segments::{Frame, Segment};
use sheet::{Findings, Sheet};

// An entry past the last segment.
const NO_SEGMENT: Segment = Segment::Upright(0.0, 0.0, 0.0);

// The mask: its segments, of which the first `count` are in use, and their frame. There are at most 256 faces, and 255 wires beside wire 0.
#[derive(Clone, Copy)]
pub struct Mask {
    pub count: usize,
    pub segments: [Segment; 511],
    pub frame: Frame,
}

// From the lowest row to the highest of the level segments that end on an upright one.
#[derive(Clone, Copy)]
struct Span {
    low: u16,
    high: u16,
}

impl Span {
    // This span, widened to hold a row.
    fn widened(self, row: u16) -> Span
        ensures { result ≡ widened_by self row }
    {
        Span {
            low: self.low.min(row),
            high: self.high.max(row),
        }
    }
}

// A sound sheet, and where its parts lie: the rows of its vertices, its faces, and their columns.
#[derive(Clone, Copy)]
struct Placement<'a> {
    sheet: &'a Sheet,
    found: &'a Findings,
    columns: &'a [u16; 256],
}

impl Placement<'_> {
    // The row of the tail of edge k.
    #[tactic(auto, using(crate::proofs::Placed::row_at))]
    fn row(self, k: usize) -> u16
        requires { Placed self × (k < self.sheet.now.edges) }
        ensures { result ≡ level_row self.entry.sheet.now k }
    {
        self.found.rows[usize::from(self.sheet.tails[k])]
    }

    // The span of each face: each edge but edge 0 widens those of its left and of its right face. Any row is less than the first one, `u16::MAX`, from which the
    // lowest is taken.
    #[tactic(auto, using(crate::proofs::Placed::left_below, crate::proofs::Placed::right_below))]
    fn spans(self) -> [Span; 256]
        requires { Placed self }
        ensures { Spans self.entry.sheet.now result }
    {
        let mut spans = [Span {
            low: u16::MAX,
            high: 0,
        }; 256];
        for k in 1..self.sheet.edges {
            let row = self.row(k);
            let left = usize::from(self.found.faces[2 * k]);
            let right = usize::from(self.found.faces[2 * k + 1]);
            spans[left] = spans[left].widened(row);
            spans[right] = spans[right].widened(row);
        }
        spans
    }

    // Half a column left of the column of face g.
    #[tactic(auto, using(crate::proofs::Placed::column_at))]
    fn x(self, g: usize) -> f32
        requires { Placed self × (g < 256) }
        ensures { result ≡ half_below (column self.entry.sheet.now g) }
    {
        half_below(self.columns[g])
    }

    // The upright segment of face g.
    #[tactic(auto, unfolding(crate::specs::Mask::upright_of, crate::specs::Inner::span_of), using(crate::proofs::Placed::faces_fit))]
    fn upright(self, g: usize, span: Span) -> Segment
        requires { Placed self × (g < face_count self.sheet.now) × (span ≡ span_of self.sheet.now g) }
        ensures { result ≡ upright_of self.entry.sheet.now g }
    {
        Segment::Upright(self.x(g), half_above(span.low), half_above(span.high))
    }

    // The level segment of edge k.
    #[tactic(auto, unfolding(crate::specs::Mask::level_of, drawing::specs::Draw::edge_column, drawing::specs::Draw::right_column), using(crate::proofs::Placed::left_at, crate::proofs::Placed::left_below, crate::proofs::Placed::right_at, crate::proofs::Placed::right_below))]
    fn level(self, k: usize) -> Segment
        requires { Placed self × (k < self.sheet.now.edges) × (k ≢ 0) }
        ensures { result ≡ level_of self.entry.sheet.now k }
    {
        let left = usize::from(self.found.faces[2 * k]);
        let right = usize::from(self.found.faces[2 * k + 1]);
        Segment::Level(half_above(self.row(k)), self.x(left), self.x(right))
    }

    // Segment i of the mask: faces first, then edges from 1 up.
    #[tactic(auto, unfolding(crate::specs::Mask::nth_segment), using(crate::proofs::Placed::count_is, crate::proofs::Placed::faces_fit, crate::proofs::Placed::edges_fit))]
    fn segment(self, i: usize, spans: &[Span; 256]) -> Segment
        requires { Placed self × Spans self.sheet.now spans.now × (i + 1 < face_count self.sheet.now + self.sheet.now.edges) }
        ensures { result ≡ nth_segment self.entry.sheet.now i }
    {
        let faces = self.found.count;
        if i < faces {
            self.upright(i, spans[i])
        } else {
            self.level(i - faces + 1)
        }
    }

    // The segments.
    fn segments(self, count: usize) -> [Segment; 511]
        requires { Placed self × (count ≤ 511) × (count + 1 ≡ face_count self.sheet.now + self.sheet.now.edges) }
        ensures { result ≡ table (nth_segment self.entry.sheet.now) count 511 no_segment }
    {
        let spans = self.spans();
        draw::table(count, NO_SEGMENT, |i| self.segment(i, &spans))
    }

    // The mask.
    #[tactic(auto, using(crate::proofs::Placed::parts_fit, crate::proofs::Placed::as_many, crate::proofs::Filled::in_use, crate::proofs::Filled::taken))]
    fn mask(self) -> Mask
        requires { Placed self }
        ensures { result ≡ mask_of self.entry.sheet.now }
    {
        let count = self.found.count + self.sheet.edges - 1;
        let segments = self.segments(count);
        let frame = segments::frame_of(&segments[..count]);
        Mask {
            count,
            segments,
            frame,
        }
    }
}

// The mask of a sheet; it refuses 9 alone.
pub fn insulation_mask(s: Sheet) -> Result<Mask, Refusal>
    ensures { result ≡ insulation_mask_call s }
{
    let found = sheet::examine(s)?;
    let columns = draw::face_columns(&s, &found);
    let placement = Placement {
        sheet: &s,
        found: &found,
        columns: &columns,
    };
    Ok(placement.mask())
}

// No segments and a frame of four zeros.
fn no_mask() -> Mask
    ensures { result ≡ no_mask }
{
    let frame = Frame::default();
    Mask {
        count: 0,
        segments: [NO_SEGMENT; 511],
        frame,
    }
}

// What it returns beside its answer: refused, no segments and a frame of four zeros.
#[tactic(auto, unfolding(crate::specs::Mask::returned))]
pub fn returned(answer: Result<Mask, Refusal>) -> Mask
    ensures { result ≡ returned answer }
{
    match answer {
        Ok(mask) => mask,
        Err(_) => no_mask(),
    }
}
