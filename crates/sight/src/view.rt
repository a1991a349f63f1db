// Replies 1 to 6, 17, 7, 8, 15, 9 and 10 in their order, or the stand and where it was found.
ghost use Rattle.std.specs.Prelude.{true, ◌≡◌, suc, ◌*◌, length};
ghost use Rattle.limits.specs.Limits.{sized};
ghost use Rattle.cells.specs.Lists.{corner_count, cell_count, face_count};
ghost use Rattle.cells.specs.Cut.{cells_of};
ghost use Rattle.cells.specs.Check.{framed};
ghost use Rattle.cells.specs.Backed.{Backed};
ghost use Rattle.cells.specs.Sound.{Sound};
ghost use Rattle.face.specs.Tables.{tables};
ghost use Rattle.stand.specs.Spot.{stood};
ghost use Rattle.sight.specs.Listing.{view_of_spot, viewed};

use accepted::Accepted;
use checking::check_into;
use face::Cells;
use limits::{Plan, Refusal};
use stand::locate::{Footing, locate};
use stand::spot::{Stand, stand_spot};

// What is asked of a plan: from where, under which door setting, and how far.
#[derive(Clone, Copy)]
pub struct Query {
    pub setting: u64,
    pub stand: Stand,
    pub reach: Option<u64>,
}

// The stand in whole millimetres, and where it was found.
#[derive(Clone, Copy)]
pub struct View {
    pub x: i64,
    pub y: i64,
    pub footing: Footing,
}

// On an accepted plan and setting.
pub fn view_of_stand(
    plan: &Accepted,
    setting: u64,
    stand: Stand,
    reach: Option<u64>,
) -> Result<View, Refusal>
    ensures { result ≡ view_of_spot plan.now.corners.now (tables plan.now.cells) plan.now.doors.now setting reach (stood plan.now.corners.now stand) }
{
    let (x, y) = stand_spot(plan.corners, stand).ok_or(Refusal::Stand)?;
    if reach::is_wrong(reach) {
        return Err(Refusal::Reach);
    }
    let footing = locate(plan, setting, [x, y])?;
    Ok(View { x, y, footing })
}

// On lists that are framed and sized, with room for their tables, which are drawn into it. Of an accepted plan the faces on the other side are noted.
pub fn view_in<'a>(
    corners: &'a [i32],
    cells: &[u16],
    doors: &'a [u16],
    kind: u16,
    query: Query,
    faces: &mut [u16],
    firsts: &mut [u16],
    backs: &mut [u16],
) -> Result<View, Refusal>
    requires cells_value { (framed kind corners.now cells.now ≡ true) × (sized (corner_count corners.now) (cell_count (cells_of kind cells.now)) (length doors.now) ≡ true) }
    requires faces_len { length faces.old ≡ 2 * face_count (cells_of kind cells.now) }
    requires firsts_len { length firsts.old ≡ suc (cell_count (cells_of kind cells.now)) }
    requires backs_len { length backs.old ≡ face_count (cells_of kind cells.now) }
    ensures value { result ≡ viewed kind corners.now cells.now doors.now query }
    ensures faces_after { faces.new ≡ (cells_of kind cells.now).faces }
    ensures firsts_after { firsts.new ≡ (cells_of kind cells.now).firsts }
    ensures backed { Sound corners.now (cells_of kind cells.now) doors.now → Backed (cells_of kind cells.now) backs.new }
{
    let mut boxes = [0i32; 4 * Plan::MOST_CELLS];
    let plan = check_into(
        corners, cells, doors, kind, faces, firsts, backs, &mut boxes,
    )?;
    if setting::is_wrong(query.setting, plan.doors) {
        return Err(Refusal::Setting);
    }
    let cells = Cells { faces, firsts };
    view_of_stand(
        &Accepted {
            corners,
            cells,
            backs,
            boxes: &boxes,
            doors,
        },
        query.setting,
        query.stand,
        query.reach,
    )
}
