// An edit that was read, applied to a sheet.
#![tactic(auto)]

ghost use Rattle.std.specs.Prelude.{◌≡◌};
ghost use Rattle.edit.specs.Calls.{apply};

use answers::Refusal;
use edit::Edit;
use sheet::Sheet;

// Applies an edit, whichever it is; a line that is not of the layout is refused 1. The specification asks for this match by name. The calls by kinds, of numbers of any size, match by themselves: an `Edit`
// holds what a line can give.
#[tactic(auto, unfolding(edit::specs::Calls::apply, answers::specs::Refusals::answering))]
pub fn apply(s: Sheet, e: Edit) -> Result<Sheet, Refusal>
    ensures { result ≡ apply s e }
{
    match e {
        Edit::In(k) => putin::put_in(s, usize::from(k)),
        Edit::Run(a, p, b, q) => run::run(
            s,
            usize::from(a),
            usize::from(p),
            usize::from(b),
            usize::from(q),
        ),
        Edit::Out(k) => takeoutedge::take_out_edge(s, usize::from(k)),
        Edit::Off(v) => takeoutvertex::take_out_vertex(s, usize::from(v)),
        Edit::Refused => Err(Refusal::BadLayout),
    }
}
