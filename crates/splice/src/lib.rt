// Changes of the rings: darts are renamed, take another's place, come in and leave.
#![tactic(auto)]

ghost use Rattle.std.specs.Prelude.{◌≡◌, map, ◌<◌, length};
ghost use Rattle.edit.specs.Changes.{renamed, replace_dart, insert_dart, remove_dart};

// `x`, but `new` where it is `old`.
#[tactic(auto, unfolding(edit::specs::Changes::renamed))]
fn renamed(x: u16, old: u16, new: u16) -> u16
    ensures { result ≡ renamed old new x }
{
    if x == old { new } else { x }
}

// Every entry `old` becomes `new`.
pub fn rename(table: &mut [u16], old: u16, new: u16)
    ensures { table.new ≡ map (renamed old new) table.old }
{
    for dart in table.iter_mut() {
        *dart = renamed(*dart, old, new);
    }
}

// Dart `new` takes the place of dart `old` in its ring.
#[tactic(auto, unfolding(edit::specs::Changes::replace_dart))]
pub fn replace_dart(nexts: &mut [u16; 512], old: u16, new: u16)
    requires { (old < 512) × (new < 512) }
    ensures { nexts.new ≡ replace_dart old new nexts.old }
{
    rename(nexts, old, new);
    nexts[usize::from(new)] = nexts[usize::from(old)];
}

// Dart `new` comes just after dart `d` clockwise.
#[tactic(auto, unfolding(edit::specs::Changes::insert_dart))]
pub fn insert_dart(nexts: &mut [u16; 512], new: u16, d: u16)
    requires { (new < 512) × (d < 512) }
    ensures { nexts.new ≡ insert_dart new d nexts.old }
{
    let at = usize::from(d);
    nexts[usize::from(new)] = nexts[at];
    nexts[at] = new;
}

// Dart `d` leaves its ring.
#[tactic(auto, unfolding(edit::specs::Changes::remove_dart))]
pub fn remove_dart(nexts: &mut [u16; 512], d: u16)
    requires { d < 512 }
    ensures { nexts.new ≡ remove_dart d nexts.old }
{
    let next = nexts[usize::from(d)];
    rename(nexts, d, next);
}
