// Check drawing: a yes or no on a drawing from elsewhere.
#![tactic(auto)]

ghost use Rattle.std.specs.Prelude.{◌≡◌, ◌<◌, true, Some};
ghost use Rattle.sheet.specs.Sound.{Sound};
ghost use Rattle.sheet.specs.Check.{sound};
ghost use Rattle.checkdrawing.specs.Call.{drawing_answer, check_drawing_call};

use answers::Refusal;
use drawing::Drawing;
use sheet::Sheet;

// What is refused of the drawing that a text shows: 20 its numbers, 21, 22.
#[tactic(auto, unfolding(crate::specs::Call::drawing_answer, crate::specs::Call::passes, answers::specs::Refusals::first))]
fn check_shown(s: &Sheet, d: &Drawing) -> Result<(), Refusal>
    requires sound { Sound s.now × (sound s.now ≡ true) }
    requires declared { (d.now.rows < 1000) × (d.now.columns < 1000) }
    ensures { result ≡ drawing_answer s.now (Some d.now) }
{
    if !contact::is_well_formed(s.vertices, s.edges, d) {
        return Err(Refusal::BadDrawing);
    }
    if !contact::is_clear(s, d) {
        return Err(Refusal::Contact);
    }
    if !ringorder::in_order(s, d) {
        return Err(Refusal::OutOfOrder);
    }
    Ok(())
}

// Whether a text shows a drawing of the sheet in which nothing touches that may not and every ring is in clockwise order: 9, 20, 21, 22.
pub fn check_drawing(s: Sheet, text: &[u8]) -> Result<(), Refusal>
    ensures { result ≡ check_drawing_call s text.now }
{
    if !sheet::is_sound(s) {
        return Err(Refusal::NotSound);
    }
    let Some(drawing) = readdrawing::read_drawing(text, s.vertices, s.edges) else {
        return Err(Refusal::BadDrawing);
    };
    check_shown(&s, &drawing)
}
