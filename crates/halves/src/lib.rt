// A level less or plus a half, as a 32-bit float.
#![tactic(auto)]

ghost use Rattle.std.specs.Prelude.{◌≡◌};
ghost use Rattle.halves.specs.Halves.{half_below, half_above};

// Half a step below a level.
#[tactic(auto, unfolding(crate::specs::Halves::half_below), using(crate::proofs::Literal::half_bits))]
pub fn half_below(level: u16) -> f32
    ensures { result ≡ half_below level }
{
    f32::from(level) - 0.5
}

// Half a step above a level.
#[tactic(auto, unfolding(crate::specs::Halves::half_above), using(crate::proofs::Literal::half_bits))]
pub fn half_above(level: u16) -> f32
    ensures { result ≡ half_above level }
{
    f32::from(level) + 0.5
}
