// Whether a call of several stands is granted (document 02, A1): what refuses the whole of it, before any stand is looked at.
#![tactic(auto)]

ghost use Rattle.std.specs.Prelude.{suc, ◌*◌, ◌≤◌, true, ◌≡◌, length};
ghost use Rattle.limits.specs.Limits.{most_stands, sized};
ghost use Rattle.cells.specs.Lists.{corner_count, cell_count, face_count};
ghost use Rattle.cells.specs.Cut.{cells_of};
ghost use Rattle.cells.specs.Check.{framed};
ghost use Rattle.cells.specs.Backed.{Backed};
ghost use Rattle.cells.specs.Sound.{Sound};
ghost use Rattle.boxes.specs.Boxes.{Boxed};
ghost use Rattle.grant.specs.Asked.{sizes_asked, asked};

use checking::{check_into, measure};
use draw::Sizes;
use limits::{Plan, Refusal};

// The counts of cells and of faces, which say how much room the plan's tables need; or FRAME, or SIZE: of the plan, or for too many stands.
pub fn measure_for(
    corners: &[i32],
    cells: &[u16],
    doors: &[u16],
    kind: u16,
    count: usize,
) -> Result<Sizes, Refusal>
    ensures { result ≡ sizes_asked kind corners.now cells.now doors.now count }
{
    let sizes = measure(corners, cells, doors, kind)?;
    if Plan::MOST_STANDS < count {
        return Err(Refusal::Size);
    }
    Ok(sizes)
}

// Of lists that are framed and sized and of no more stands than are allowed: replies 3 to 6, 17, 7 and 11 in order, each with its place, or the counts of the
// plan. The plan's tables are drawn into the room lent, and of an accepted plan the faces on the other side and the boxes of the cells are noted.
pub fn asked_in(
    corners: &[i32],
    cells: &[u16],
    doors: &[u16],
    kind: u16,
    setting: u64,
    count: usize,
    room: usize,
    places: usize,
    faces: &mut [u16],
    firsts: &mut [u16],
    backs: &mut [u16],
    boxes: &mut [i32],
) -> Result<Plan, Refusal>
    requires cells_value { (framed kind corners.now cells.now ≡ true) × (sized (corner_count corners.now) (cell_count (cells_of kind cells.now)) (length doors.now) ≡ true) }
    requires count_le_most_stands { count ≤ most_stands }
    requires faces_len { length faces.old ≡ 2 * face_count (cells_of kind cells.now) }
    requires firsts_len { length firsts.old ≡ suc (cell_count (cells_of kind cells.now)) }
    requires backs_len { length backs.old ≡ face_count (cells_of kind cells.now) }
    requires cells_in_bounds { 4 * cell_count (cells_of kind cells.now) ≤ length boxes.old }
    ensures value { result ≡ asked kind corners.now cells.now doors.now setting count room places }
    ensures faces_after { faces.new ≡ (cells_of kind cells.now).faces }
    ensures firsts_after { firsts.new ≡ (cells_of kind cells.now).firsts }
    ensures backed { Sound corners.now (cells_of kind cells.now) doors.now → (Backed (cells_of kind cells.now) backs.new × Boxed corners.now (cells_of kind cells.now) boxes.new) }
{
    let plan = check_into(corners, cells, doors, kind, faces, firsts, backs, boxes)?;
    if setting::is_wrong(setting, plan.doors) {
        return Err(Refusal::Setting);
    }
    if room < 4 * plan.corners * count {
        return Err(Refusal::Room);
    }
    if places < 3 * count {
        return Err(Refusal::Room);
    }
    Ok(plan)
}
