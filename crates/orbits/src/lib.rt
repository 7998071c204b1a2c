// The orbits of a permutation of numbers that is given as a function.
#![tactic(auto)]

ghost use Rattle.std.specs.Prelude.{ℕ, ◌≡◌, ◌<◌, ◌≤◌};
ghost use Rattle.orbits.specs.Tables.{unnumbered_below, traced};

// The number of each element's orbit, and how many orbits there are. An array: fixed memory, no heap, and the specification names it.
#[derive(Clone, Copy)]
pub struct Traced {
    pub count: usize,
    pub orbit: [u16; 512],
}

// Stands for the number of an element that has none yet. The table is handed out as it is: one of `Option<u16>` took twice the time.
const NONE: u16 = 512;

// No number yet for the elements below `size`, 0 past them.
fn unnumbered(size: usize) -> [u16; 512]
    requires { size ≤ 512 }
    ensures { result ≡ unnumbered_below size }
{
    let mut orbit = [0; 512];
    orbit[..size].fill(NONE);
    orbit
}

// The orbits of the elements below `size`, numbered from 0 in the order of their lowest elements; entries past the last element are 0.
// A walk stops at the element it started from. Where the step is no permutation it stops too where it leaves the elements, or
// after `size` steps. More than 512 elements have no orbits.
#[tactic(auto, using(crate::proofs::Turns::turns))]
pub fn trace<F: Fn(usize) -> usize>(size: usize, step: F) -> Traced
    requires callable { (d : ℕ) → d < size → d < 512 → F.pre step d }
    ensures { (of : ℕ → ℕ) → ((d x : ℕ) → d < size → F.post step d x → x ≡ of d) → result ≡ traced size of }
{
    if 512 < size {
        // No `Option`: the C interface hands out what is found for any size, by a call that cannot fail.
        return Traced {
            count: 0,
            orbit: [0; 512],
        };
    }
    let mut orbit = unnumbered(size);
    let mut e = 0;
    let mut f: usize = 0;
    // No `for`: the specification asks for this form by name, an outer loop over the ends that yields the count by `break`, and an inner walk that is
    // left when the end that it started from returns.
    let count = loop {
        if size <= e {
            break f;
        }
        if orbit[e] == NONE {
            let mut at = e;
            for _step in 0..size {
                // `as`: the contract shows that the number fits; there is no `From` for it, and `TryFrom` would have a failing branch.
                orbit[at] = f as u16;
                at = step(at);
                if at == e || size <= at {
                    break;
                }
            }
            f += 1;
        }
        e += 1;
    };
    Traced { count, orbit }
}
