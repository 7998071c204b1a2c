// Write sheet: the text of a sound sheet, how long it is, and how it is put into a buffer.
#![tactic(auto)]

ghost use Rattle.std.specs.Prelude.{◌≡◌, true, ◌+◌, ◌≤◌, ◌<◌, length};
ghost use Rattle.sheet.specs.Sound.{Sound, Limits};
ghost use Rattle.sheet.specs.Check.{sound};
ghost use Rattle.sheet.specs.Darts.{Sized, darts};
ghost use Rattle.writesheet.specs.Inner.{edges_text, rings_text, ring_line, Firsts};
ghost use Rattle.writesheet.specs.Write.{sheet_text, write_sheet, buffer_after_sheet};

use answers::Refusal;
use buffer::{Sink, Text};
use sheet::Sheet;

// The dart of each vertex's lowest edge: of all that are stored, from the last edge down by its number, it is the last.
#[tactic(auto, using(crate::proofs::Firsts::ends_small))]
fn first_darts(s: &Sheet) -> [u16; 128]
    requires { Sound s.now }
    ensures { Firsts s.now result }
{
    let mut firsts = [0; 128];
    for k in (0..s.edges).rev() {
        firsts[usize::from(s.heads[k])] = clauses::head_dart(k);
        firsts[usize::from(s.tails[k])] = clauses::tail_dart(k);
    }
    firsts
}

// A sound sheet, and the darts of its vertices' lowest edges. (That it is within limits follows from its soundness, and stands apart for the proofs of the bounds.)
#[derive(Drop)]
struct SoundSheet<'a> {
    sheet: &'a Sheet,
    firsts: &'a [u16],
    ghost limits: { Limits sheet.now },
    ghost sound: { (sound sheet.now ≡ true) × Sized sheet.now },
    ghost lowest: { (length firsts.now ≡ sheet.now.vertices) × Firsts sheet.now firsts.now },
}

impl SoundSheet<'_> {
    // Puts the lines `wire=`.
    fn put_edges<S: Sink>(&self, to: &mut S)
        requires { S.used to.old + length (edges_text self.now.sheet.now) ≤ S.size to.old }
        ensures { S.puts to.old (edges_text self.now.sheet.now) to.new }
    {
        let m = self.sheet.edges;
        for (&tail, &head) in self.sheet.tails[..m].iter().zip(&self.sheet.heads[..m]) {
            buffer::put_line(to, b"wire=", &[tail, head]);
        }
    }

    // Puts the line `around=` of the ring from a dart on.
    fn put_ring<S: Sink>(&self, to: &mut S, first: usize)
        requires inside { first < darts self.now.sheet.now }
        requires room { S.used to.old + length (ring_line self.now.sheet.now first) ≤ S.size to.old }
        ensures { S.puts to.old (ring_line self.now.sheet.now first) to.new }
    {
        let s = self.sheet;
        to.bytes(b"around=");
        // `as` narrows numbers that fit, here and below: there is no `From` for that, and `TryFrom` has a branch that fails, which is never taken.
        to.number((first / 2) as u16);
        let mut d = usize::from(s.nexts[first]);
        for _steps in 1..2 * s.edges {
            if d == first {
                break;
            }
            buffer::put_next(to, (d / 2) as u16);
            d = usize::from(s.nexts[d]);
        }
        to.byte(b'\n');
    }

    // Puts the lines `around=`.
    fn put_rings<S: Sink>(&self, to: &mut S)
        requires { S.used to.old + length (rings_text self.now.sheet.now) ≤ S.size to.old }
        ensures { S.puts to.old (rings_text self.now.sheet.now) to.new }
    {
        for &first in self.firsts {
            self.put_ring(to, usize::from(first));
        }
    }
}

impl Text for SoundSheet<'_> {
    ghost text = { λ t. sheet_text t.sheet.now };

    fn put<S: Sink>(&self, to: &mut S) {
        let s = self.sheet;
        buffer::put_line(to, b"bars=", &[s.vertices as u16]);
        buffer::put_line(to, b"wires=", &[s.edges as u16]);
        self.put_edges(to);
        self.put_rings(to);
    }
}

// No text of a sheet has more bytes.
const LONGEST: usize = 6677;

// Writes a sheet's text to the front of the buffer. Refused, 9 and then 17, the buffer is untouched.
pub fn write_sheet(s: Sheet, out: &mut [u8]) -> Result<usize, Refusal>
    ensures { (result ≡ write_sheet s out.old) × (out.new ≡ buffer_after_sheet s out.old) }
{
    if !sheet::is_sound(s) {
        return Err(Refusal::NotSound);
    }
    let firsts = first_darts(&s);
    let text = SoundSheet {
        sheet: &s,
        firsts: &firsts[..s.vertices],
    };
    buffer::write_front(&text, LONGEST, out).ok_or(Refusal::BufferTooShort)
}
