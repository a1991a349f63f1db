// Doors: a face that exists, is not wall, and whose line no earlier door names.
ghost use Rattle.std.specs.Prelude.{◌<◌, ◌≡◌, length, ltb};
ghost use Rattle.cells.specs.Least.{least, before};
ghost use Rattle.cells.specs.Check.{names, wrong_door};
ghost use Rattle.cells.specs.Backed.{Backed};
ghost use Rattle.face.specs.Tables.{tables};

use crate::Plan;
use face::Cells;

// Does a door name face f or face g?
fn is_named(doors: &[u16], f: usize, g: usize) -> bool
    ensures { result ≡ ltb (least (names doors.now f g) (length doors.now) 0) (length doors.now) }
{
    doors.iter().any(|&e| e as usize == f || e as usize == g)
}

// The face on the other side is read from the table of them.
fn is_wrong(cells: &Cells, backs: &[u16], doors: &[u16], i: usize) -> bool
    requires backed { Backed (tables cells.now) backs.now }
    requires i_in_bounds { i < length doors.now }
    ensures { result ≡ wrong_door (tables cells.now) doors.now i }
{
    let f = doors[i] as usize;
    backs.len() <= f
        || cells.neighbour(f) == Plan::WALL as usize
        || is_named(&doors[..i], f, backs[f] as usize)
}

// The least wrong door.
pub fn least_wrong(cells: &Cells, backs: &[u16], doors: &[u16]) -> Option<usize>
    requires { Backed (tables cells.now) backs.now }
    ensures { result ≡ before (length doors.now) (least (wrong_door (tables cells.now) doors.now) (length doors.now) 0) }
{
    (0..doors.len()).find(|&i| is_wrong(cells, backs, doors, i))
}
