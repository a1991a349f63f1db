// Finding (document 01, "The stand"; document 02, A4): the plan and the setting are checked, the stand read, and its place sought.
#![tactic(auto)]

ghost use Rattle.std.specs.Prelude.{suc, ◌*◌, ◌<◌, ◌≤◌, true, ◌≡◌, length};
ghost use Rattle.limits.specs.Limits.{most_cells, most_sides, sized};
ghost use Rattle.cells.specs.Lists.{corner_count, cell_count, face_count};
ghost use Rattle.cells.specs.Cut.{cells_of};
ghost use Rattle.cells.specs.Check.{framed};
ghost use Rattle.face.specs.Tables.{tables};
ghost use Rattle.checking.specs.Sizes.{Fit};
ghost use Rattle.stand.specs.Spot.{stood};
ghost use Rattle.stand.specs.Find.{with_spot, found};

use accepted::Accepted;
use checking::{FEW_FACES, MOST_FACES, Sizes, check_into, measure};
use face::Cells;
use limits::{Plan, Refusal};
use stand::locate::{Footing, locate};
use stand::spot::{Stand, stand_spot};

// On an accepted plan and setting.
fn find_stand(plan: &Accepted, setting: u64, stand: Stand) -> Result<Footing, Refusal>
    ensures { result ≡ with_spot plan.now.corners.now (tables plan.now.cells) plan.now.doors.now setting (stood plan.now.corners.now stand) }
{
    let (x, y) = stand_spot(plan.corners, stand).ok_or(Refusal::Stand)?;
    locate(plan, setting, [x, y])
}

// On lists that are framed and sized, with room for their tables.
fn find_in<'a>(
    corners: &'a [i32],
    cells: &[u16],
    doors: &'a [u16],
    kind: u16,
    setting: u64,
    stand: Stand,
    faces: &mut [u16],
    firsts: &mut [u16],
    backs: &mut [u16],
) -> Result<Footing, Refusal>
    requires cells_value { (framed kind corners.now cells.now ≡ true) × (sized (corner_count corners.now) (cell_count (cells_of kind cells.now)) (length doors.now) ≡ true) }
    requires faces_len { length faces.old ≡ 2 * face_count (cells_of kind cells.now) }
    requires firsts_len { length firsts.old ≡ suc (cell_count (cells_of kind cells.now)) }
    requires backs_len { length backs.old ≡ face_count (cells_of kind cells.now) }
    ensures { result ≡ found kind corners.now cells.now doors.now setting stand }
{
    let mut boxes = [0i32; 4 * Plan::MOST_CELLS];
    let plan = check_into(
        corners, cells, doors, kind, faces, firsts, backs, &mut boxes,
    )?;
    if setting::is_wrong(setting, plan.doors) {
        return Err(Refusal::Setting);
    }
    let cells = Cells { faces, firsts };
    find_stand(
        &Accepted {
            corners,
            cells,
            backs,
            boxes: &boxes,
            doors,
        },
        setting,
        stand,
    )
}

// Finds in lists of the sizes told, with tables for N faces.
fn find_sized<const N: usize>(
    corners: &[i32],
    cells: &[u16],
    doors: &[u16],
    kind: u16,
    setting: u64,
    stand: Stand,
    sizes: Sizes,
) -> Result<Footing, Refusal>
    requires fit { Fit kind corners.now cells.now doors.now sizes.cells sizes.faces }
    requires room { (sizes.faces ≤ N) × (N ≤ most_sides * most_cells) }
    ensures { result ≡ found kind corners.now cells.now doors.now setting stand }
{
    let mut faces = [[0u16; 2]; N];
    let mut firsts = [0u16; 1 + Plan::MOST_CELLS];
    let mut backs = [0u16; N];
    find_in(
        corners,
        cells,
        doors,
        kind,
        setting,
        stand,
        faces[..sizes.faces].as_flattened_mut(),
        &mut firsts[..=sizes.cells],
        &mut backs[..sizes.faces],
    )
}

// Finding: plan, the kind of its list of cells, its setting, and stand.
pub fn find(
    corners: &[i32],
    cells: &[u16],
    doors: &[u16],
    kind: u16,
    setting: u64,
    stand: Stand,
) -> Result<Footing, Refusal>
    ensures { result ≡ found kind corners.now cells.now doors.now setting stand }
{
    let sizes = measure(corners, cells, doors, kind)?;
    if sizes.faces <= FEW_FACES {
        find_sized::<FEW_FACES>(corners, cells, doors, kind, setting, stand, sizes)
    } else {
        find_sized::<MOST_FACES>(corners, cells, doors, kind, setting, stand, sizes)
    }
}
