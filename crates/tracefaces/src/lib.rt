// Trace faces: the table of the faces of a sheet, in time linear in the sheet.
#![tactic(auto)]

ghost use Rattle.std.specs.Prelude.{◌≡◌};
ghost use Rattle.tracefaces.specs.Call.{trace_faces_call, returned};

use answers::Refusal;
use sheet::Sheet;

// For each dart the number of the face whose walk leaves its vertex by that dart. The faces are traced once, in one step for each dart, in the check of the sheet, which needs
// their number. It refuses 9 alone.
pub fn trace_faces(s: Sheet) -> Result<[u16; 512], Refusal>
    ensures { result ≡ trace_faces_call s }
{
    let found = sheet::examine(s)?;
    Ok(found.faces)
}

// What it returns beside its answer: refused, 512 zeros.
pub fn returned(answer: Result<[u16; 512], Refusal>) -> [u16; 512]
    ensures { result ≡ returned answer }
{
    answer.unwrap_or([0; 512])
}
