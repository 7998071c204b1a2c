// Whether the ends of the wires are on their bars.
ghost use Rattle.std.specs.Prelude.{◌≡◌};
ghost use Rattle.sheet.specs.Sound.{Sound};
ghost use Rattle.contact.specs.Tests.{ends_on, all_ends_on};

use drawing::{Drawing, EdgeSegment, VertexSegment};
use sheet::Sheet;

// Whether the lower end of a wire is on its tail bar, the upper one on its head bar.
#[tactic(auto, unfolding(crate::specs::Tests::covers, crate::specs::Tests::ends_on))]
fn ends_on(tail: VertexSegment, head: VertexSegment, w: EdgeSegment) -> bool
    ensures { result ≡ ends_on tail head w }
{
    tail.row == w.low
        && (tail.first..=tail.last).contains(&w.column)
        && head.row == w.high
        && (head.first..=head.last).contains(&w.column)
}

// Whether the ends of each wire are on its bars.
pub fn all_ends_on(s: &Sheet, d: &Drawing) -> bool
    requires { Sound s.now }
    ensures { result ≡ all_ends_on s.now d.now }
{
    (0..s.edges).all(|k| {
        let tail = usize::from(s.tails[k]);
        let head = usize::from(s.heads[k]);
        ends_on(d.vertices[tail], d.vertices[head], d.edges[k])
    })
}
