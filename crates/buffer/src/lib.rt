// Texts put into a buffer or counted: numbers, keys, line ends, and the lines of the text layouts.
#![tactic(auto)]

ghost use Rattle.std.specs.Prelude.{◌≡◌, leb, ℕ, List, [], ◌∷◌, ◌++◌, ◌+◌, ◌≤◌, ◌<◌, length};
ghost use Rattle.std.below.core.specs.declared.int.usize.TheConstants.{MAX};
ghost use Rattle.text.specs.Written.{decimal, line};
ghost use Rattle.std.proofs.Common.{refl, ◌∙◌};
ghost use Rattle.buffer.specs.Sinks.{Puts, Counted, put_nothing, put_joined, put_size, counted_nothing, counted_joined};
ghost use Rattle.buffer.specs.Fronts.{front_filled, front_after};

// Where a text goes: into a buffer, or only into a count of its bytes.
pub trait Sink {
    // how many bytes were put, and how many can be
    ghost used: { Self → ℕ };

    ghost size: { Self → ℕ };
    // the second is the first with a text more
    ghost puts: { Self → List ℕ → Self → Type 0 };

    // Puts one byte.
    fn byte(&mut self, b: u8)
        requires { used self.old < size self.old }
        ensures { puts self.old (b ∷ []) self.new };

    // Puts bytes.
    fn bytes(&mut self, bytes: &[u8])
        requires { used self.old + length bytes.now ≤ size self.old }
        ensures { puts self.old bytes.now self.new };

    // Puts a number's digits.
    fn number(&mut self, v: u16)
        requires { used self.old + length (decimal v) ≤ size self.old }
        ensures { puts self.old (decimal v) self.new };

    ghost nothing: { (s : Self) → puts s [] s };

    ghost joined: { (s t u : Self) (xs ys : List ℕ) → puts s xs t → puts t ys u → puts s (xs ++ ys) u };

    ghost counted: { (s t : Self) (text : List ℕ) → puts s text t → (used t ≡ used s + length text) × (size t ≡ size s) };
}

// A buffer, and how much of it is filled.
#[derive(Drop)]
pub struct Writer<'a> {
    pub out: &'a mut [u8],
    pub filled: usize,
}

impl Sink for Writer<'_> {
    ghost used = { λ w. w.filled };

    ghost size = { λ w. length w.out.now };

    ghost puts = { Puts };

    ghost nothing = { λ w. (put_nothing w.out.now w.filled, refl) };

    ghost joined = { λ s t u xs ys p q. (put_joined p.0 q.0, q.1 ∙ p.1) };

    ghost counted = { λ s t text p. (p.0.place, put_size p.0) };

    fn byte(&mut self, b: u8) {
        self.out[self.filled] = b;
        self.filled += 1;
    }

    fn bytes(&mut self, bytes: &[u8]) {
        let end = self.filled + bytes.len();
        self.out[self.filled..end].copy_from_slice(bytes);
        self.filled = end;
    }

    // The three of hundreds, tens and ones are stored one after the other, each over the one before it where that leads: so no branch hangs on the number.
    // (`as` narrows digits: there is no `From` for that, and `TryFrom` has a branch that fails, which is never taken.)
    fn number(&mut self, v: u16) {
        let at = self.filled;
        let tens = at + usize::from(99 < v);
        let ones = tens + usize::from(9 < v);
        self.out[at] = (v / 100 % 10) as u8 + b'0';
        self.out[tens] = (v / 10 % 10) as u8 + b'0';
        self.out[ones] = (v % 10) as u8 + b'0';
        self.filled = ones + 1;
    }
}

// How many bytes a text has.
#[derive(Drop)]
pub struct Count {
    pub bytes: usize,
}

impl Sink for Count {
    ghost used = { λ c. c.bytes };

    ghost size = { λ c. MAX };

    ghost puts = { λ c text d. Counted c.bytes text d.bytes };

    ghost nothing = { λ c. counted_nothing c.bytes };

    ghost joined = { λ s t u xs ys p q. counted_joined p q };

    ghost counted = { λ s t text p. (p.place, refl) };

    fn byte(&mut self, _b: u8) {
        self.bytes += 1;
    }

    fn bytes(&mut self, bytes: &[u8]) {
        self.bytes += bytes.len();
    }

    fn number(&mut self, v: u16) {
        self.bytes += 1 + usize::from(9 < v) + usize::from(99 < v);
    }
}

// Puts a comma and a number.
pub fn put_next<S: Sink>(to: &mut S, v: u16)
    requires { S.used to.old + length (44 ∷ decimal v) ≤ S.size to.old }
    ensures { S.puts to.old (44 ∷ decimal v) to.new }
{
    to.byte(b',');
    to.number(v);
}

// Puts a line: a key, the values with a comma between, the line's end.
pub fn put_line<S: Sink>(to: &mut S, key: &[u8], values: &[u16])
    requires some { 0 < length values.now }
    requires room { S.used to.old + length (line key.now values.now) ≤ S.size to.old }
    ensures { S.puts to.old (line key.now values.now) to.new }
{
    to.bytes(key);
    to.number(values[0]);
    for &v in &values[1..] {
        put_next(to, v);
    }
    to.byte(b'\n');
}

// What has a text.
pub trait Text {
    ghost text: { Self → List ℕ };

    // Puts the text.
    fn put<S: Sink>(&self, to: &mut S)
        requires { S.used to.old + length (text self.now) ≤ S.size to.old }
        ensures { S.puts to.old (text self.now) to.new };
}

// Whether a text, which has at most `longest` bytes, has at most `room`. It is measured only where the longest would not fit.
fn fits<T: Text>(text: &T, longest: usize, room: usize) -> bool
    requires { length (T.text text.now) ≤ longest }
    ensures { result ≡ leb (length (T.text text.now)) room }
{
    if longest <= room {
        return true;
    }
    let mut count = Count { bytes: 0 };
    text.put(&mut count);
    count.bytes <= room
}

// Puts a text, which has at most `longest` bytes, to the front of the buffer, if it fits, and gives its length.
pub fn write_front<T: Text>(text: &T, longest: usize, out: &mut [u8]) -> Option<usize>
    requires { length (T.text text.now) ≤ longest }
    ensures { (result ≡ front_filled (T.text text.now) out.old) × (out.new ≡ front_after (T.text text.now) out.old) }
{
    if !fits(text, longest, out.len()) {
        return None;
    }
    let mut writer = Writer { out, filled: 0 };
    text.put(&mut writer);
    Some(writer.filled)
}
