// The fresh sheet, and the check of soundness, in time linear in the sheet.
#![tactic(auto)]

ghost use Rattle.std.specs.Prelude.{◌≡◌, ◌≤◌};
ghost use Rattle.sheet.specs.Fresh.{fresh_sheet};
ghost use Rattle.sheet.specs.Check.{sound, judge, judge_links};
ghost use Rattle.sheet.specs.Inner.{bounded, faced_of, judged_of, findings_of};

use answers::Refusal;
pub use clauses::Sheet;

// The fresh sheet: vertices 0 and 1, edges 0 and 1 both from 0 to 1.
pub fn fresh() -> Sheet
    ensures { result ≡ fresh_sheet }
{
    let mut heads = [0u16; 256];
    heads[0] = 1;
    heads[1] = 1;
    let mut nexts = [0u16; 512];
    nexts[0] = 2;
    nexts[1] = 3;
    nexts[2] = 0;
    nexts[3] = 1;
    Sheet {
        vertices: 2,
        edges: 2,
        tails: [0u16; 256],
        heads,
        nexts,
    }
}

// What the check finds of a sound sheet: the row of each vertex, the face of each dart and the number of faces. Arrays: fixed memory, no heap.
#[derive(Clone, Copy)]
pub struct Findings {
    pub rows: [u16; 256],
    pub faces: [u16; 512],
    pub count: usize,
}

// Whether the record meets three clauses of soundness: limits, edges, unused entries.
fn is_bounded(s: &Sheet) -> bool
    ensures { result ≡ bounded s.now }
{
    s.within_limits() && s.all_join() && s.unused_zero()
}

// What is found where the number of faces is right and all other clauses are met, with these rows. The faces are traced once, in one step for each dart.
// The step is looked up in a table: each step waits for the one before it, and to go by the opposite dart took longer than this does with the filling of the
// table.
#[tactic(auto, using(crate::proofs::Clauses::face_met, crate::proofs::Clauses::face_refused, crate::proofs::Clauses::walked))]
fn faced(s: &Sheet, rows: [u16; 256]) -> Option<Findings>
    requires { (s.now.vertices ≤ 256) × (s.now.edges ≤ 256) }
    ensures { result ≡ faced_of s.now.vertices s.now.edges s.now.nexts rows }
{
    let walk = s.walks();
    let traced = orbits::trace(2 * s.edges, |d| usize::from(walk[d]));
    let count = traced.count;
    if s.vertices + count != s.edges + 2 {
        return None;
    }
    let faces = traced.orbit;
    Some(Findings { rows, faces, count })
}

// Judges by the last four clauses in order: edge 0, directed circles, vertices 0 and 1, the number of faces. The second and the third have the
// refusals that are handed in.
fn judged(s: &Sheet, circle: Refusal, poles: Refusal) -> Result<Findings, Refusal>
    ensures { result ≡ judged_of circle poles s.now }
{
    if !s.is_rooted() {
        return Err(Refusal::BadRoot);
    }
    let Some(rows) = s.digraph().levels() else {
        return Err(circle);
    };
    if !s.has_poles() {
        return Err(poles);
    }
    faced(s, rows).ok_or(Refusal::NotPlanar)
}

// Examines any record: where it is sound, what later steps go on with, so that nothing is found twice; else 9.
// The rule on vertices 0 and 1, rings and rows are found together: they need the same counts, and one walk round each vertex.
pub fn examine(s: Sheet) -> Result<Findings, Refusal>
    ensures { result ≡ findings_of s }
{
    if !is_bounded(&s) {
        return Err(Refusal::NotSound);
    }
    if !s.is_rooted() {
        return Err(Refusal::NotSound);
    }
    let Some(rows) = rings::levels(&s) else {
        return Err(Refusal::NotSound);
    };
    faced(&s, rows).ok_or(Refusal::NotSound)
}

// What load refuses after its last line, of a sheet that meets the first four clauses: 5, 6, 7, 8 in order.
pub fn judge(s: &Sheet) -> Result<(), Refusal>
    ensures { result ≡ judge s.now }
{
    judged(s, Refusal::Cyclic, Refusal::BadPoles)?;
    Ok(())
}

// What the load of links refuses after its last line, of the sheet with the directions that it chose: 5, 19 in the place of 6 and 7, 8.
pub fn judge_links(s: &Sheet) -> Result<(), Refusal>
    ensures { result ≡ judge_links s.now }
{
    judged(s, Refusal::NotOrientable, Refusal::NotOrientable)?;
    Ok(())
}

// Whether the record is a sound sheet; it may hold any numbers.
pub fn is_sound(s: Sheet) -> bool
    ensures { result ≡ sound s }
{
    examine(s).is_ok()
}
