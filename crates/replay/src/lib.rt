// A list of calls from the fresh sheet: what each answers, and the drawing of the sheet that they leave.
#![tactic(auto)]

ghost use Rattle.std.specs.Prelude.{◌≡◌, true};
ghost use Rattle.std.proofs.Math.Seq.{slice};
ghost use Rattle.answers.specs.Answers.{answer_number};
ghost use Rattle.sheet.specs.Check.{sound};
ghost use Rattle.load.specs.Load.{returned};
ghost use Rattle.demand.specs.Calls.{of_edit, outcome};
ghost use Rattle.replay.specs.Encoded.{call_by, calls_of};
ghost use Rattle.replay.specs.Replayed.{Replayed};
ghost use Rattle.replay.specs.Inner.{reply_of};

use answers::Refusal;
use drawing::Drawing;
use load::Loaded;
use sheet::Sheet;

// What a call answers: 0 or its refusal number, the sheet that it returns, and the bytes that it took. A number beside a value: the C interface, and demand 3's
// words on a call, have an answer as its number.
#[derive(Clone, Copy)]
struct Reply {
    number: usize,
    sheet: Sheet,
    taken: usize,
}

// The part of the text from a start up to an end, the two numbers by which the C interface names it.
fn part(text: &[u8], start: usize, end: usize) -> &[u8]
    ensures { result.now ≡ slice start end text.now }
{
    let to = end.min(text.len());
    let from = start.min(to);
    &text[from..to]
}

// What an edit of the sheet s replies: it takes no bytes.
fn of_edit(s: Sheet, answer: Result<Sheet, Refusal>) -> Reply
    ensures { result ≡ reply_of (of_edit s answer) }
{
    Reply {
        number: usize::from(answers::answer_number(&answer)),
        sheet: edit::sheet_after(s, answer),
        taken: 0,
    }
}

// What a load replies where s is the present sheet.
fn of_load(s: Sheet, answer: Result<Loaded, Refusal>) -> Reply
    ensures { result ≡ record { number = answer_number answer; sheet = (returned s answer).sheet; taken = (returned s answer).taken } }
{
    let number = usize::from(answers::answer_number(&answer));
    let loaded = load::returned(answer, s);
    Reply {
        number,
        sheet: loaded.sheet,
        taken: loaded.taken,
    }
}

// One call on a sound sheet by its kind: 0 in, 1 run, 2 out, 3 off, 4 load, 6 the load of links; any other is refused 10. The C interface names the calls by these numbers.
// The match of the edits is not shared: an `Edit`, which `apply` matches, holds numbers of 16 bits, and the entry for one edit refuses another kind by 1.
#[tactic(auto, using(crate::proofs::OtherKind::no_such_edge), unfolding(crate::specs::Encoded::call_by, demand::specs::Calls::outcome))]
fn step(kind: usize, a: usize, p: usize, b: usize, q: usize, text: &[u8], s: Sheet) -> Reply
    requires { sound s ≡ true }
    ensures { result ≡ reply_of (outcome s (call_by kind a p b q text.now)) }
{
    match kind {
        0 => of_edit(s, putin::put_in(s, a)),
        1 => of_edit(s, run::run(s, a, p, b, q)),
        2 => of_edit(s, takeoutedge::take_out_edge(s, a)),
        3 => of_edit(s, takeoutvertex::take_out_vertex(s, a)),
        4 => of_load(s, load::load(part(text, a, p))),
        6 => of_load(s, load::load_links(part(text, a, p))),
        _ => of_edit(s, Err(Refusal::NotInSheet)),
    }
}

// Makes the calls that the numbers encode, one after the other from the fresh sheet, puts each one's answer into the lent numbers, and draws the sheet that they leave.
pub fn replay(calls: &[usize], text: &[u8], answers: &mut [usize]) -> Drawing
    ensures { Replayed (calls_of calls.now text.now) answers.old result answers.new }
{
    let mut s = sheet::fresh();
    for (i, call) in calls.as_chunks::<5>().0.iter().enumerate() {
        let [kind, a, p, b, q] = *call;
        let reply = step(kind, a, p, b, q, text, s);
        s = reply.sheet;
        // By place: tried with a slice that the loop moves, and with `get_mut`; the proof did not close, as it sees no write through either.
        if 2 * i + 2 <= answers.len() {
            answers[2 * i] = reply.number;
            answers[2 * i + 1] = reply.taken;
        }
    }
    draw::returned(draw::draw(s))
}
