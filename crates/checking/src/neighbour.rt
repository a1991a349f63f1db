// Neighbours: wall, or an existing cell with a side that answers.
ghost use Rattle.std.specs.Prelude.{suc, ◌+◌, ◌<◌, false, ◌≡◌, length, None};
ghost use Rattle.cells.specs.Least.{least, before};
ghost use Rattle.cells.specs.Lists.{cell_count, face_count, first, neighbour, back as Lists·back};
ghost use Rattle.cells.specs.Meeting.{reversed, Meeting, MeetOnce};
ghost use Rattle.cells.specs.Check.{wrong_neighbour};
ghost use Rattle.cells.proofs.Faces.{SideOf};
ghost use Rattle.cells.specs.Backed.{Backed};
ghost use Rattle.face.specs.Tables.{tables};
ghost use Rattle.checking.specs.Backed.{BackedBelow};

use crate::Plan;
use face::Cells;

// Has side g of cell d the same two corners as side f of cell c, reversed?
fn is_reversed(cells: &Cells, c: usize, f: usize, d: usize, g: usize) -> bool
    requires c_bound { c < cell_count (tables cells.now) }
    requires f_side { SideOf (tables cells.now) c f }
    requires d_bound { d < cell_count (tables cells.now) }
    requires g_side { SideOf (tables cells.now) d g }
    ensures { result ≡ reversed (tables cells.now) f g }
{
    cells.start(g) == cells.start(cells.next(c, f))
        && cells.start(cells.next(d, g)) == cells.start(f)
}

// The face of cell d at which it meets cell c: the search over the sides of both stops at the first match (document 01, "Side value and
// plan check").
fn meeting(cells: &Cells, c: usize, d: usize) -> Option<usize>
    requires c_bound { c < cell_count (tables cells.now) }
    requires d_bound { d < cell_count (tables cells.now) }
    ensures { Meeting (tables cells.now) c d result }
{
    'search: {
        for f in cells.first(c)..cells.end(c) {
            if cells.neighbour(f) == d {
                for g in cells.first(d)..cells.end(d) {
                    if cells.neighbour(g) == c && is_reversed(cells, c, f, d, g) {
                        break 'search Some(g);
                    }
                }
            }
        }
        None
    }
}

// The face on the other side of side f of cell c. Two cells meet at most once, so it is where f's cell and its neighbour meet, or there
// is none.
fn back(cells: &Cells, c: usize, f: usize) -> Option<usize>
    requires meet_once { MeetOnce (tables cells.now) }
    requires c_bound { c < cell_count (tables cells.now) }
    requires f_side { SideOf (tables cells.now) c f }
    requires neighbour_bound { neighbour (tables cells.now) f < cell_count (tables cells.now) }
    ensures { result ≡ before (first (tables cells.now) (suc (neighbour (tables cells.now) f))) (Lists·back (tables cells.now) f) }
{
    let d = cells.neighbour(f);
    let g = meeting(cells, c, d)?;
    is_reversed(cells, c, f, d, g).then_some(g)
}

// Is the neighbour across side f of cell c wrong? Where it is right and no wall, the face on the other side is noted.
fn is_wrong(cells: &Cells, backs: &mut [u16], c: usize, f: usize) -> bool
    requires meet_once { MeetOnce (tables cells.now) }
    requires few_faces { face_count (tables cells.now) < 65536 }
    requires c_bound { c < cell_count (tables cells.now) }
    requires f_side { SideOf (tables cells.now) c f }
    requires backed_before { BackedBelow (tables cells.now) f backs.old }
    ensures value { result ≡ wrong_neighbour (tables cells.now) f }
    ensures backed_with_it { result ≡ false → BackedBelow (tables cells.now) (f + 1) backs.new }
{
    let d = cells.neighbour(f);
    if d == Plan::WALL as usize {
        return false;
    }
    if cells.count() <= d {
        return true;
    }
    match back(cells, c, f) {
        Some(g) => {
            backs[f] = g as u16;
            false
        }
        None => true,
    }
}

// The least wrong face; where none is wrong, the table has the faces on the other side.
pub fn least_wrong(cells: &Cells, backs: &mut [u16]) -> Option<usize>
    requires meet_once { MeetOnce (tables cells.now) }
    requires few_faces { face_count (tables cells.now) < 65536 }
    requires backs_len { length backs.old ≡ face_count (tables cells.now) }
    ensures value { result ≡ before (face_count (tables cells.now)) (least (wrong_neighbour (tables cells.now)) (face_count (tables cells.now)) 0) }
    ensures backed { result ≡ None → Backed (tables cells.now) backs.new }
{
    for c in 0..cells.count() {
        for f in cells.first(c)..cells.end(c) {
            if is_wrong(cells, backs, c, f) {
                return Some(f);
            }
        }
    }
    None
}
