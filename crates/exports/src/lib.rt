// The calls of the library under plain C names, for programs and tests in other languages. The C interface lends a sheet in five parts at each call, names the
// edits by numbers, and answers with a number.
#![tactic(auto)]

ghost use Rattle.std.specs.Prelude.{◌≡◌};
ghost use Rattle.digraph.specs.Relaxed.{levels_of};
ghost use Rattle.orbits.specs.Meaning.{entries};
ghost use Rattle.orbits.specs.Tables.{traced};
ghost use Rattle.sheet.specs.Check.{sound};
ghost use Rattle.answers.specs.Answers.{answer_number};
ghost use Rattle.tracefaces.specs.Call.{trace_faces_call, returned};
ghost use Rattle.insulationmask.specs.Mask.{insulation_mask_call, returned as returned_mask};
ghost use Rattle.load.specs.Load.{load, load_links};
ghost use Rattle.writesheet.specs.Write.{write_sheet, buffer_after_sheet};
ghost use Rattle.edit.specs.Lines.{read_edit};
ghost use Rattle.drawing.specs.Write.{write_drawing, buffer_after_drawing};
ghost use Rattle.checkdrawing.specs.Call.{check_drawing_call};
ghost use Rattle.program.specs.Program.{write_output, buffer_after_output};
ghost use Rattle.exports.specs.Edits.{kind_of, numbers_in, edit_by};
ghost use Rattle.replay.specs.Encoded.{calls_of};
ghost use Rattle.replay.specs.Replayed.{Replayed};
ghost use Rattle.sheet.specs.Darts.{sheet_of};
ghost use Rattle.exports.specs.Sheets.{Parts, Changed, Filled};
ghost use Rattle.exports.specs.Masks.{segment_by_kind, mask_by_kinds};

use answers::Refusal;
use digraph::Digraph;
use drawing::Drawing;
use edit::Edit;
use insulationmask::Mask;
use load::Loaded;
use orbits::Traced;
use segments::{Frame, Segment};
use sheet::Sheet;

// The level of each node of a digraph; false where there is a circle.
#[unsafe(no_mangle)]
pub extern "C" fn walnut_levels(
    nodes: usize,
    edges: usize,
    from: &[u16; 256],
    to: &[u16; 256],
    level: &mut [u16; 256],
) -> bool
    ensures { (result ≡ (levels_of nodes edges from.now to.now).acyclic) × (level.new ≡ (levels_of nodes edges from.now to.now).level) }
{
    let graph = Digraph {
        nodes,
        edges,
        from,
        to,
    };
    match graph.levels() {
        Some(levels) => {
            *level = levels;
            true
        }
        None => {
            *level = [0u16; 256];
            false
        }
    }
}

// The orbit of each element of a permutation that is given as a table, and how many orbits there are.
#[unsafe(no_mangle)]
pub extern "C" fn walnut_trace(size: usize, step: &[u16; 512], orbit: &mut [u16; 512]) -> usize
    ensures { (result ≡ (traced size (entries step.now)).count) × (orbit.new ≡ (traced size (entries step.now)).orbit) }
{
    let Traced {
        count,
        orbit: numbers,
    } = orbits::trace(size, |d| usize::from(step[d]));
    *orbit = numbers;
    count
}

// A sheet from its parts.
fn sheet_of(
    vertices: usize,
    edges: usize,
    tails: &[u16; 256],
    heads: &[u16; 256],
    nexts: &[u16; 512],
) -> Sheet
    ensures { result ≡ sheet_of vertices edges tails.now heads.now nexts.now }
{
    Sheet {
        vertices,
        edges,
        tails: *tails,
        heads: *heads,
        nexts: *nexts,
    }
}

// Puts a sheet into parts.
fn put_parts(
    sheet: Sheet,
    vertices: &mut usize,
    edges: &mut usize,
    tails: &mut [u16; 256],
    heads: &mut [u16; 256],
    nexts: &mut [u16; 512],
)
    ensures { sheet_of vertices.new edges.new tails.new heads.new nexts.new ≡ sheet }
{
    // By way of locals: the proof does not close where a field that is an array is stored straight behind a `&mut`.
    let t = sheet.tails;
    let h = sheet.heads;
    let n = sheet.nexts;
    *vertices = sheet.vertices;
    *edges = sheet.edges;
    *tails = t;
    *heads = h;
    *nexts = n;
}

// Whether a record is a sound sheet.
#[unsafe(no_mangle)]
pub extern "C" fn walnut_is_sound(
    vertices: usize,
    edges: usize,
    tails: &[u16; 256],
    heads: &[u16; 256],
    nexts: &[u16; 512],
) -> bool
    ensures { result ≡ sound (sheet_of vertices edges tails.now heads.now nexts.now) }
{
    sheet::is_sound(sheet_of(vertices, edges, tails, heads, nexts))
}

// Trace faces. The table takes the place of the lent numbers: refused, 512 zeros.
#[unsafe(no_mangle)]
pub extern "C" fn walnut_trace_faces(
    vertices: usize,
    edges: usize,
    tails: &[u16; 256],
    heads: &[u16; 256],
    nexts: &[u16; 512],
    faces: &mut [u16; 512],
) -> u16
    ensures { (result ≡ answer_number (trace_faces_call (sheet_of vertices edges tails.now heads.now nexts.now))) × (faces.new ≡ returned (trace_faces_call (sheet_of vertices edges tails.now heads.now nexts.now))) }
{
    let traced = tracefaces::trace_faces(sheet_of(vertices, edges, tails, heads, nexts));
    let number = answers::answer_number(&traced);
    *faces = tracefaces::returned(traced);
    number
}

// A segment of a mask, its kind a number in the C interface: 0 upright, at x from low to high; 1 level, at y from left to right.
#[repr(C)]
#[derive(Clone, Copy)]
pub struct SegmentByKind {
    pub kind: u16,
    pub at: f32,
    pub from: f32,
    pub to: f32,
}

// A mask with such segments.
#[repr(C)]
#[derive(Clone, Copy)]
pub struct MaskByKinds {
    pub count: usize,
    pub segments: [SegmentByKind; 511],
    pub frame: Frame,
}

#[tactic(auto, unfolding(crate::specs::Masks::segment_by_kind))]
fn segment_by_kind(segment: Segment) -> SegmentByKind
    ensures { result ≡ segment_by_kind segment }
{
    match segment {
        Segment::Upright(x, low, high) => SegmentByKind {
            kind: 0,
            at: x,
            from: low,
            to: high,
        },
        Segment::Level(y, left, right) => SegmentByKind {
            kind: 1,
            at: y,
            from: left,
            to: right,
        },
    }
}

// A mask put into a place for such segments.
fn put_mask(mask: Mask, place: &mut MaskByKinds)
    ensures { place.new ≡ mask_by_kinds mask }
{
    place.count = mask.count;
    place.frame = mask.frame;
    for i in 0..511 {
        place.segments[i] = segment_by_kind(mask.segments[i]);
    }
}

// The insulation mask takes the place of the lent one: refused, no segments and a frame of four zeros.
#[unsafe(no_mangle)]
pub extern "C" fn walnut_insulation_mask(
    vertices: usize,
    edges: usize,
    tails: &[u16; 256],
    heads: &[u16; 256],
    nexts: &[u16; 512],
    mask: &mut MaskByKinds,
) -> u16
    ensures { (result ≡ answer_number (insulation_mask_call (sheet_of vertices edges tails.now heads.now nexts.now))) × (mask.new ≡ mask_by_kinds (returned_mask (insulation_mask_call (sheet_of vertices edges tails.now heads.now nexts.now)))) }
{
    let found = insulationmask::insulation_mask(sheet_of(vertices, edges, tails, heads, nexts));
    let number = answers::answer_number(&found);
    put_mask(insulationmask::returned(found), mask);
    number
}

// Check drawing.
#[unsafe(no_mangle)]
pub extern "C" fn walnut_check_drawing(
    vertices: usize,
    edges: usize,
    tails: &[u16; 256],
    heads: &[u16; 256],
    nexts: &[u16; 512],
    text: &[u8],
) -> u16
    ensures { result ≡ answer_number (check_drawing_call (sheet_of vertices edges tails.now heads.now nexts.now) text.now) }
{
    let sheet = sheet_of(vertices, edges, tails, heads, nexts);
    answers::answer_number(&checkdrawing::check_drawing(sheet, text))
}

// What a load returns takes the place of the present sheet; its number.
#[tactic(auto, unfolding(load::specs::Load::returned, answers::specs::Answers::answer_number))]
fn put_loaded(
    answer: Result<Loaded, Refusal>,
    vertices: &mut usize,
    edges: &mut usize,
    tails: &mut [u16; 256],
    heads: &mut [u16; 256],
    nexts: &mut [u16; 512],
    taken: &mut usize,
) -> u16
    ensures { Parts answer (sheet_of vertices.old edges.old tails.old heads.old nexts.old) result vertices.new edges.new tails.new heads.new nexts.new taken.new }
{
    // Refused, the present sheet comes back: the parts keep it.
    match answer {
        Ok(loaded) => {
            put_parts(loaded.sheet, vertices, edges, tails, heads, nexts);
            *taken = loaded.taken;
            0
        }
        Err(refusal) => {
            *taken = 0;
            refusal.number()
        }
    }
}

// Load. The present sheet is lent in parts, and the sheet that load returns takes its place: for a text of no bytes the fresh one, with 0 bytes taken.
#[unsafe(no_mangle)]
pub extern "C" fn walnut_load(
    text: &[u8],
    vertices: &mut usize,
    edges: &mut usize,
    tails: &mut [u16; 256],
    heads: &mut [u16; 256],
    nexts: &mut [u16; 512],
    taken: &mut usize,
) -> u16
    ensures { Parts (load text.now) (sheet_of vertices.old edges.old tails.old heads.old nexts.old) result vertices.new edges.new tails.new heads.new nexts.new taken.new }
{
    put_loaded(
        load::load(text),
        vertices,
        edges,
        tails,
        heads,
        nexts,
        taken,
    )
}

// The load of links, as load: it takes `link=` lines in place of `wire=` lines, and chooses the directions.
#[unsafe(no_mangle)]
pub extern "C" fn walnut_load_links(
    text: &[u8],
    vertices: &mut usize,
    edges: &mut usize,
    tails: &mut [u16; 256],
    heads: &mut [u16; 256],
    nexts: &mut [u16; 512],
    taken: &mut usize,
) -> u16
    ensures { Parts (load_links text.now) (sheet_of vertices.old edges.old tails.old heads.old nexts.old) result vertices.new edges.new tails.new heads.new nexts.new taken.new }
{
    put_loaded(
        load::load_links(text),
        vertices,
        edges,
        tails,
        heads,
        nexts,
        taken,
    )
}

// Write sheet. The C interface has an entry for each of the two writers; they are alike up to the writer's name, and one body that takes it as a closure is no
// plainer.
#[unsafe(no_mangle)]
pub extern "C" fn walnut_write_sheet(
    vertices: usize,
    edges: usize,
    tails: &[u16; 256],
    heads: &[u16; 256],
    nexts: &[u16; 512],
    buffer: &mut [u8],
    count: &mut usize,
) -> u16
    ensures { Filled (write_sheet (sheet_of vertices edges tails.now heads.now nexts.now) buffer.old) (buffer_after_sheet (sheet_of vertices edges tails.now heads.now nexts.now) buffer.old) result count.new buffer.new }
{
    let sheet = sheet_of(vertices, edges, tails, heads, nexts);
    let written = writesheet::write_sheet(sheet, buffer);
    *count = written.unwrap_or(0);
    answers::answer_number(&written)
}

// One of the four edits by its kind: 0 in, 1 run, 2 out, 3 off; any other is refused 1. The numbers past those that it has are not looked at. The C interface
// names the edits by these numbers. Not by way of an `Edit`, which `apply` matches: that holds numbers of 16 bits, and these are of any size.
#[tactic(auto, unfolding(crate::specs::Edits::edit_by, edit::specs::Calls::apply, answers::specs::Refusals::answering))]
fn edit_by(kind: u16, s: Sheet, a: usize, p: usize, b: usize, q: usize) -> Result<Sheet, Refusal>
    ensures { result ≡ edit_by kind a p b q s }
{
    match kind {
        0 => putin::put_in(s, a),
        1 => run::run(s, a, p, b, q),
        2 => takeoutedge::take_out_edge(s, a),
        3 => takeoutvertex::take_out_vertex(s, a),
        _ => Err(Refusal::BadLayout),
    }
}

// An edit. The sheet is lent in parts, and the sheet that the edit returns takes its place.
#[unsafe(no_mangle)]
#[tactic(auto, unfolding(edit::specs::Calls::sheet_after, answers::specs::Answers::answer_number))]
pub extern "C" fn walnut_edit(
    kind: u16,
    a: usize,
    p: usize,
    b: usize,
    q: usize,
    vertices: &mut usize,
    edges: &mut usize,
    tails: &mut [u16; 256],
    heads: &mut [u16; 256],
    nexts: &mut [u16; 512],
) -> u16
    ensures { Changed (edit_by kind a p b q (sheet_of vertices.old edges.old tails.old heads.old nexts.old)) (sheet_of vertices.old edges.old tails.old heads.old nexts.old) result vertices.new edges.new tails.new heads.new nexts.new }
{
    // A refused edit hands back what it got: the parts keep it.
    let present = sheet_of(*vertices, *edges, tails, heads, nexts);
    let edited = edit_by(kind, present, a, p, b, q);
    match edited {
        Ok(made) => {
            put_parts(made, vertices, edges, tails, heads, nexts);
            0
        }
        Err(refusal) => refusal.number(),
    }
}

// A list of calls from the fresh sheet, five numbers a call: its kind (0 in, 1 run, 2 out, 3 off, 4 load; any other is refused 10) and four numbers;
// a load takes the bytes of the text from the first of them up to the second, and of no bytes it gives the fresh sheet. Each call's number and bytes taken
// are put into the lent numbers, two a call, and the drawing of the sheet after the list is returned.
#[unsafe(no_mangle)]
pub extern "C" fn walnut_replay(calls: &[usize], text: &[u8], answers: &mut [usize]) -> Drawing
    ensures { Replayed (calls_of calls.now text.now) answers.old result answers.new }
{
    replay::replay(calls, text, answers)
}

// Write drawing: see `walnut_write_sheet`.
#[unsafe(no_mangle)]
pub extern "C" fn walnut_write_drawing(
    vertices: usize,
    edges: usize,
    tails: &[u16; 256],
    heads: &[u16; 256],
    nexts: &[u16; 512],
    buffer: &mut [u8],
    count: &mut usize,
) -> u16
    ensures { Filled (write_drawing (sheet_of vertices edges tails.now heads.now nexts.now) buffer.old) (buffer_after_drawing (sheet_of vertices edges tails.now heads.now nexts.now) buffer.old) result count.new buffer.new }
{
    let sheet = sheet_of(vertices, edges, tails, heads, nexts);
    let written = writedrawing::write_drawing(sheet, buffer);
    *count = written.unwrap_or(0);
    answers::answer_number(&written)
}

// The kind of an edit, a number in the C interface: 0 in, 1 run, 2 out, 3 off; 5 of a line that is refused (4 is a load in a list of calls).
fn kind(e: Edit) -> u16
    ensures { result ≡ kind_of e }
{
    match e {
        Edit::In(_) => 0,
        Edit::Run(_, _, _, _) => 1,
        Edit::Out(_) => 2,
        Edit::Off(_) => 3,
        Edit::Refused => 5,
    }
}

// The numbers of an edit, with 0 past them: the C interface lends room for four.
fn numbers_in(e: Edit) -> [u16; 4]
    ensures { result ≡ numbers_in e }
{
    match e {
        Edit::In(x) | Edit::Out(x) | Edit::Off(x) => [x, 0, 0, 0],
        Edit::Run(a, p, b, q) => [a, p, b, q],
        Edit::Refused => [0, 0, 0, 0],
    }
}

// Read edit.
#[unsafe(no_mangle)]
pub extern "C" fn walnut_read_edit(text: &[u8], numbers: &mut [u16; 4], taken: &mut usize) -> u16
    ensures { (result ≡ kind_of (read_edit text.now).edit) × (numbers.new ≡ numbers_in (read_edit text.now).edit) × (taken.new ≡ (read_edit text.now).taken) }
{
    let read = edit::read_edit(text);
    *numbers = numbers_in(read.edit);
    *taken = read.taken;
    kind(read.edit)
}

// The program `plate` as a function: the output for an input, at the front of the buffer.
#[unsafe(no_mangle)]
pub extern "C" fn walnut_plate(input: &[u8], buffer: &mut [u8], count: &mut usize) -> u16
    ensures { Filled (write_output input.now buffer.old) (buffer_after_output input.now buffer.old) result count.new buffer.new }
{
    let written = program::plate(input, buffer);
    *count = written.unwrap_or(0);
    answers::answer_number(&written)
}
