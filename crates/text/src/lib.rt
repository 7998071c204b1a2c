// Numbers, keys and line ends of the text layouts, read from bytes.
#![tactic(auto)]

ghost use Rattle.std.specs.Prelude.{◌≡◌, ◌≢◌, ◌+◌, ◌-◌, ◌≤◌, ◌<◌, true, false, eqb, cond, MatchOption, IfSome, option_map, length, get_or, drop, set};
ghost use Rattle.text.specs.Reading.{digit_at, number_at, starts_with, line_end_at, numbers_at, line_at, last_line_at, numbers_of};
ghost use Rattle.text.specs.Shapes.{pair_of};

// A text and a place in it. What accepts moves the place behind what it read; after a refusal the place may be anywhere.
#[derive(Clone, Copy)]
pub struct Reader<'a> {
    pub text: &'a [u8],
    pub at: usize,
}

// The numbers of a line: how many there are, and the first four of them (0 where there are fewer). Not all of them, since nothing stands on
// the heap: of a line with more than four a caller asks the count alone.
#[derive(Clone, Copy)]
pub struct Numbers {
    pub count: usize,
    pub values: [u16; 4],
}

// The byte at a place, 0 past the end: the definitions read a text so, and no rule names a byte 0.
pub fn byte(s: &[u8], at: usize) -> u8
    ensures { result ≡ get_or s.now at 0 }
{
    s.get(at).copied().unwrap_or(0)
}

// Keeps a number as the one of its count, if it is among the first four. By an index: of a write through `get_mut` a proof knows the length alone.
fn keep(values: &mut [u16; 4], count: usize, v: u16)
    ensures { values.new ≡ set values.old count v }
{
    if count < values.len() {
        values[count] = v;
    }
}

impl Reader<'_> {
    // The value of the digit at the place.
    #[tactic(auto, using(crate::proofs::DigitLaws::digits))]
    fn digit(&mut self) -> Option<u16>
        ensures text { self.new.text.now ≡ self.old.text.now }
        ensures digit { MatchOption result ((10 ≤ digit_at self.old.text.now self.old.at) × (self.new.at ≡ self.old.at)) (λ d. (d ≡ digit_at self.old.text.now self.old.at) × (d < 10) × (self.new.at ≡ self.old.at + 1) × (self.new.at ≤ length self.old.text.now)) }
    {
        match byte(self.text, self.at) {
            b @ b'0'..=b'9' => {
                self.at += 1;
                Some(u16::from(b - b'0'))
            }
            _ => None,
        }
    }

    // A number: one to three digits, no leading zero except 0 itself.
    #[tactic(auto, using(crate::proofs::DigitLaws::answers))]
    pub fn number(&mut self) -> Option<u16>
        ensures text { self.new.text.now ≡ self.old.text.now }
        ensures value { option_map (λ v. (v, self.new.at)) result ≡ number_at self.old.text.now self.old.at }
        ensures ahead { IfSome result (λ _. (self.old.at < self.new.at) × (self.new.at ≤ length self.old.text.now)) }
    {
        let a = self.digit()?;
        let Some(b) = self.digit() else {
            return Some(a);
        };
        if a == 0 {
            return None;
        }
        let Some(c) = self.digit() else {
            return Some(a * 10 + b);
        };
        if self.digit().is_some() {
            return None;
        }
        Some(a * 100 + b * 10 + c)
    }

    // A comma: whether one stands at the place, which stays where none does.
    pub fn comma(&mut self) -> bool
        ensures text { self.new.text.now ≡ self.old.text.now }
        ensures comma { result ≡ eqb (get_or self.old.text.now self.old.at 0) 44 }
        ensures moved { self.new.at ≡ cond result (self.old.at + 1) self.old.at }
    {
        let found = byte(self.text, self.at) == b',';
        if found {
            self.at += 1;
        }
        found
    }

    // A key; one of no bytes stands everywhere.
    #[tactic(auto, using(crate::proofs::Keys::keys))]
    pub fn key(&mut self, key: &[u8]) -> Option<()>
        ensures text { self.new.text.now ≡ self.old.text.now }
        ensures key { MatchOption result (starts_with key.now (drop self.old.at self.old.text.now) ≡ false) (λ _. (starts_with key.now (drop self.old.at self.old.text.now) ≡ true) × (self.new.at ≡ self.old.at + length key.now) × (length key.now ≤ length self.old.text.now - self.old.at)) }
    {
        let Reader { text, at } = *self;
        if !text[at.min(text.len())..].starts_with(key) {
            return None;
        }
        self.at += key.len();
        Some(())
    }

    // A line end: byte 10 alone, or 13 followed by 10.
    #[tactic(auto, using(crate::proofs::LineEnds::line_ends))]
    pub fn line_end(&mut self) -> Option<()>
        ensures text { self.new.text.now ≡ self.old.text.now }
        ensures end { MatchOption result (line_end_at self.old.text.now self.old.at ≡ 0) (λ _. (self.new.at ≡ self.old.at + line_end_at self.old.text.now self.old.at) × (line_end_at self.old.text.now self.old.at ≢ 0)) }
    {
        let Reader { text, at } = *self;
        match byte(text, at) {
            b'\n' => self.at = at + 1,
            b'\r' if byte(text, at + 1) == b'\n' => self.at = at + 2,
            _ => return None,
        }
        Some(())
    }

    // Numbers with a comma between, of any count. The loop goes from comma to comma: how many there are is known only at its end.
    #[tactic(auto, using(crate::proofs::Listing::steps))]
    pub fn numbers(&mut self) -> Option<Numbers>
        ensures text { self.new.text.now ≡ self.old.text.now }
        ensures numbers { option_map (λ r. (r, self.new.at)) result ≡ numbers_of (numbers_at self.old.text.now self.old.at) }
    {
        let mut values = [0u16; 4];
        let mut count = 0;
        loop {
            let v = self.number()?;
            keep(&mut values, count, v);
            count += 1;
            if !self.comma() {
                return Some(Numbers { count, values });
            }
        }
    }

    // A whole line: the key, numbers with a comma between, the line's end.
    #[tactic(auto, using(crate::proofs::Closing::line_steps))]
    pub fn line(&mut self, key: &[u8]) -> Option<Numbers>
        ensures text { self.new.text.now ≡ self.old.text.now }
        ensures line { option_map (λ r. (r, self.new.at)) result ≡ numbers_of (line_at key.now self.old.text.now self.old.at) }
    {
        self.key(key)?;
        let read = self.numbers()?;
        self.line_end().and(Some(read))
    }

    // The same of a line that may be the text's last and lack its end. (One function over both would take a flag for its last step, and be no shorter.)
    #[tactic(auto, using(crate::proofs::Closing::last_steps))]
    pub fn last_line(&mut self, key: &[u8]) -> Option<Numbers>
        ensures text { self.new.text.now ≡ self.old.text.now }
        ensures line { option_map (λ r. (r, self.new.at)) result ≡ numbers_of (last_line_at key.now self.old.text.now self.old.at) }
    {
        self.key(key)?;
        let read = self.numbers()?;
        if self.at < self.text.len() {
            self.line_end()?;
        }
        Some(read)
    }

    // A whole line that may have two numbers only. They go through no array, whose stores a read of the whole would wait for. Made part of its callers, which
    // know the key: as a call of its own it cost load 3 to 5 %.
    #[inline(always)]
    #[tactic(auto, using(crate::proofs::Pairs::pair_steps))]
    pub fn pair_line(&mut self, key: &[u8]) -> Option<(u16, u16)>
        ensures text { self.new.text.now ≡ self.old.text.now }
        ensures pair { option_map (λ r. (r.0, r.1, self.new.at)) result ≡ pair_of (line_at key.now self.old.text.now self.old.at) }
    {
        self.key(key)?;
        let a = self.number()?;
        if !self.comma() {
            return None;
        }
        let b = self.number()?;
        self.line_end().and(Some((a, b)))
    }
}
