// What the calls refuse, and the number of each refusal.
#![tactic(auto)]

ghost use Rattle.std.specs.Prelude.{◌≡◌};
ghost use Rattle.answers.specs.Answers.{refusal_number, answer_number};

// What a call refuses, and its number: those of documents 01 and 02, as in specs/Answers.antt. A call answers with a Result: its value, or its refusal.
#[derive(Clone, Copy, Debug, PartialEq, Eq)]
pub enum Refusal {
    BadLayout = 1,
    CountOutOfLimits = 2,
    BadEdge = 3,
    BadRotation = 4,
    BadRoot = 5,
    Cyclic = 6,
    BadPoles = 7,
    NotPlanar = 8,
    NotSound = 9,
    NotInSheet = 10,
    Full = 11,
    RootEdge = 12,
    CornersApart = 13,
    ClosesCircle = 14,
    EdgeNeeded = 15,
    VertexNeeded = 16,
    BufferTooShort = 17,
    InputTooLong = 18,
    NotOrientable = 19,
    BadDrawing = 20,
    Contact = 21,
    OutOfOrder = 22,
}

impl Refusal {
    // The refusal number. A method that names it: `From` would be no plainer, as a u16 may be any number.
    #[tactic(auto, unfolding(crate::specs::Answers::refusal_number))]
    pub fn number(self) -> u16
        ensures { result ≡ refusal_number self }
    {
        // `as`: it alone gives the number of a variant.
        self as u16
    }
}

// The number of an answer: 0 for acceptance, else the refusal number.
#[tactic(auto, unfolding(crate::specs::Answers::answer_number))]
pub fn answer_number<T>(answer: &Result<T, Refusal>) -> u16
    ensures { result ≡ answer_number answer.now }
{
    match answer {
        Ok(_) => 0,
        Err(refusal) => refusal.number(),
    }
}
