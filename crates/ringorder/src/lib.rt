// The order of the rings of a drawing.
#![tactic(auto)]

ghost use Rattle.std.specs.Prelude.{◌≡◌, ◌<◌};
ghost use Rattle.sheet.specs.Darts.{darts, vertex};
ghost use Rattle.sheet.specs.Sound.{Sound};
ghost use Rattle.ringorder.specs.Order.{before, is_descent, in_order};

use clauses::Sheet;
use drawing::Drawing;

// Whether one dart may stand before another: upward edges by rising column, then downward ones by falling column. No branch depends on the other dart.
#[tactic(auto, unfolding(crate::specs::Order::before))]
fn before(up: bool, other_up: bool, column: u16, other_column: u16) -> bool
    ensures { result ≡ before up other_up column other_column }
{
    if up {
        !other_up | (column < other_column)
    } else {
        !other_up & (other_column < column)
    }
}

// Whether a dart is a descent: it may not stand before its next one.
#[tactic(auto, using(crate::proofs::Marks::next_small), unfolding(crate::specs::Order::is_descent))]
fn is_descent(s: &Sheet, d: &Drawing, dart: usize) -> bool
    requires { Sound s.now × (dart < darts s.now) }
    ensures { result ≡ is_descent s.now d.now dart }
{
    let next = usize::from(s.nexts[dart]);
    let column = d.edges[dart / 2].column;
    let next_column = d.edges[next / 2].column;
    !before(dart % 2 == 0, next % 2 == 0, column, next_column)
}

// The vertex of a dart.
#[tactic(auto, unfolding(sheet::specs::Darts::vertex))]
fn vertex(s: &Sheet, dart: usize) -> usize
    requires { Sound s.now × (dart < darts s.now) }
    ensures { (result ≡ vertex s.now dart) × (result < 128) }
{
    let ends = if dart % 2 == 0 { &s.tails } else { &s.heads };
    usize::from(ends[dart / 2])
}

// Whether every ring is in clockwise order: none has a second descent. No branch depends on descents, which can't be predicted.
#[tactic(auto, using(crate::proofs::Marks::turns))]
pub fn in_order(s: &Sheet, d: &Drawing) -> bool
    requires { Sound s.now }
    ensures { result ≡ in_order s.now d.now }
{
    let mut descended = [false; 128];
    for dart in 0..2 * s.edges {
        let v = vertex(s, dart);
        let descent = is_descent(s, d, dart);
        if descent & descended[v] {
            return false;
        }
        descended[v] |= descent;
    }
    true
}
