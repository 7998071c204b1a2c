// Segments in 32-bit floats, upright or level, and the frame around them.
#![tactic(auto)]

ghost use Rattle.std.specs.Prelude.{◌≡◌};
ghost use Rattle.segments.specs.Segments.{lesser, greater, around, widened, frame_of};

// The lesser of x and y. (Of two that are equal, such as 0.0 and -0.0, `f32::min` may answer either; this answers x.)
#[tactic(auto, unfolding(crate::specs::Segments::lesser))]
fn lesser(x: f32, y: f32) -> f32
    ensures { result ≡ lesser x y }
{
    if y < x { y } else { x }
}

// The greater of x and y.
#[tactic(auto, unfolding(crate::specs::Segments::greater))]
fn greater(x: f32, y: f32) -> f32
    ensures { result ≡ greater x y }
{
    if x < y { y } else { x }
}

// A segment is upright, at x from low to high, or level, at y from left to right.
#[derive(Clone, Copy)]
pub enum Segment {
    Upright(f32, f32, f32),
    Level(f32, f32, f32),
}

// The least and greatest x and y.
#[repr(C)]
#[derive(Clone, Copy, Default)]
pub struct Frame {
    pub least_x: f32,
    pub greatest_x: f32,
    pub least_y: f32,
    pub greatest_y: f32,
}

impl Segment {
    // The frame of this segment alone.
    #[tactic(auto, unfolding(crate::specs::Segments::around))]
    fn frame(self) -> Frame
        ensures { result ≡ around self }
    {
        match self {
            Segment::Upright(x, low, high) => Frame {
                least_x: x,
                greatest_x: x,
                least_y: low,
                greatest_y: high,
            },
            Segment::Level(y, left, right) => Frame {
                least_x: left,
                greatest_x: right,
                least_y: y,
                greatest_y: y,
            },
        }
    }
}

impl Frame {
    // This frame, widened to hold a segment.
    #[tactic(auto, unfolding(crate::specs::Segments::widened))]
    fn widened(self, segment: Segment) -> Frame
        ensures { result ≡ widened self segment }
    {
        let added = segment.frame();
        Frame {
            least_x: lesser(self.least_x, added.least_x),
            greatest_x: greater(self.greatest_x, added.greatest_x),
            least_y: lesser(self.least_y, added.least_y),
            greatest_y: greater(self.greatest_y, added.greatest_y),
        }
    }
}

// The frame of a list of segments: four zeros where there are none.
#[tactic(auto, unfolding(crate::specs::Segments::frame_of), using(crate::proofs::Widening::widened_one, crate::proofs::Widening::widened_all, crate::proofs::Widening::first_and_others))]
pub fn frame_of(segments: &[Segment]) -> Frame
    ensures { result ≡ frame_of segments.now }
{
    let [first, others @ ..] = segments else {
        return Frame::default();
    };
    let mut frame = first.frame();
    for segment in others {
        frame = frame.widened(*segment);
    }
    frame
}
