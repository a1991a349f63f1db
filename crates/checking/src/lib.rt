// The plan check (document 01, "Side value and plan check"; document 02, A14 and A7), on lists and on the tables drawn from them.
#![tactic(auto)]

ghost use Rattle.std.specs.Prelude.{suc, ◌+◌, ◌*◌, ◌<◌, ◌≤◌, true, ◌≡◌, length};
ghost use Rattle.limits.specs.Limits.{most_cells, most_sides, sized};
ghost use Rattle.cells.specs.Lists.{corner_count, cell_count, face_count};
ghost use Rattle.cells.specs.Cut.{cells_of};
ghost use Rattle.cells.specs.Check.{framed, checked_cells, checked};
ghost use Rattle.cells.specs.Sound.{Numbered, Sound};
ghost use Rattle.cells.specs.Lists.{tabled};
ghost use Rattle.cells.specs.Backed.{Backed};
ghost use Rattle.boxes.specs.Boxes.{Boxed};
ghost use Rattle.checking.specs.Sizes.{sizes_of, Fit};

pub use draw::Sizes;
use face::Cells;
pub use limits::{Plan, Refusal};

mod cell;
mod corner;
mod door;
mod neighbour;

// The check of corners, of cells in tables and of doors, from CORNER on. Of an accepted plan the faces on the other side are noted, and the boxes of the
// cells, so that finding need not work them out again (document 02, A3).
pub fn check_tables(
    corners: &[i32],
    faces: &[u16],
    firsts: &[u16],
    doors: &[u16],
    backs: &mut [u16],
    boxes: &mut [i32],
) -> Result<Plan, Refusal>
    requires numbered { Numbered (tabled faces.now firsts.now) }
    requires doors_value { sized (corner_count corners.now) (cell_count (tabled faces.now firsts.now)) (length doors.now) ≡ true }
    requires backs_len { length backs.old ≡ face_count (tabled faces.now firsts.now) }
    requires firsts_in_bounds { 4 * cell_count (tabled faces.now firsts.now) ≤ length boxes.old }
    ensures value { result ≡ checked_cells corners.now (tabled faces.now firsts.now) doors.now }
    ensures backed { Sound corners.now (tabled faces.now firsts.now) doors.now → (Backed (tabled faces.now firsts.now) backs.new × Boxed corners.now (tabled faces.now firsts.now) boxes.new) }
{
    let cells = Cells { faces, firsts };
    if let Some(i) = corner::least_wrong(corners) {
        return Err(Refusal::Corner(i));
    }
    if let Some(c) = cell::least_wrong(corners, &cells) {
        return Err(Refusal::Cell(c));
    }
    if let Some(f) = neighbour::least_wrong(&cells, backs) {
        return Err(Refusal::Neighbour(f));
    }
    if let Some(d) = door::least_wrong(&cells, backs, doors) {
        return Err(Refusal::Door(d));
    }
    if let Some(o) = overlap::least_overlapping(corners, &cells, boxes) {
        return Err(Refusal::Overlap(o));
    }
    Ok(Plan {
        corners: corners.len() / 2,
        cells: cells.count(),
        doors: doors.len(),
    })
}

// The counts of cells and of faces, which say how much room the tables need; or FRAME, or SIZE.
pub fn measure(corners: &[i32], cells: &[u16], doors: &[u16], kind: u16) -> Result<Sizes, Refusal>
    ensures { result ≡ sizes_of kind corners.now cells.now doors.now }
{
    if corners.len() % 2 != 0 {
        return Err(Refusal::Frame);
    }
    let sizes = draw::count(kind, cells).ok_or(Refusal::Frame)?;
    let plan = Plan {
        corners: corners.len() / 2,
        cells: sizes.cells,
        doors: doors.len(),
    };
    if !plan.is_sized() {
        return Err(Refusal::Size);
    }
    Ok(sizes)
}

// The check of lists with room for their tables, which are drawn into it.
pub fn check_into(
    corners: &[i32],
    cells: &[u16],
    doors: &[u16],
    kind: u16,
    faces: &mut [u16],
    firsts: &mut [u16],
    backs: &mut [u16],
    boxes: &mut [i32],
) -> Result<Plan, Refusal>
    requires cells_value { framed kind corners.now cells.now ≡ true }
    requires doors_value { sized (corner_count corners.now) (cell_count (cells_of kind cells.now)) (length doors.now) ≡ true }
    requires faces_len { length faces.old ≡ 2 * face_count (cells_of kind cells.now) }
    requires firsts_len { length firsts.old ≡ suc (cell_count (cells_of kind cells.now)) }
    requires backs_len { length backs.old ≡ face_count (cells_of kind cells.now) }
    requires cells_in_bounds { 4 * cell_count (cells_of kind cells.now) ≤ length boxes.old }
    ensures value { result ≡ checked kind corners.now cells.now doors.now }
    ensures faces_after { faces.new ≡ (cells_of kind cells.now).faces }
    ensures firsts_after { firsts.new ≡ (cells_of kind cells.now).firsts }
    ensures backed { Sound corners.now (cells_of kind cells.now) doors.now → (Backed (cells_of kind cells.now) backs.new × Boxed corners.now (cells_of kind cells.now) boxes.new) }
{
    draw::draw(kind, cells, faces, firsts);
    check_tables(corners, faces, firsts, doors, backs, boxes)
}

// How many faces there may be, and how many of triangles alone. A call clears its tables when it makes them, so where there are no more it makes the smaller.
pub const MOST_FACES: usize = 8 * Plan::MOST_CELLS;

pub const FEW_FACES: usize = 3 * Plan::MOST_CELLS;

// Checks lists of the sizes told, with tables for N faces.
fn check_sized<const N: usize>(
    corners: &[i32],
    cells: &[u16],
    doors: &[u16],
    kind: u16,
    sizes: Sizes,
) -> Result<Plan, Refusal>
    requires fit { Fit kind corners.now cells.now doors.now sizes.cells sizes.faces }
    requires room { (sizes.faces ≤ N) × (N ≤ most_sides * most_cells) }
    ensures { result ≡ checked kind corners.now cells.now doors.now }
{
    let mut faces = [[0u16; 2]; N];
    let mut firsts = [0u16; 1 + Plan::MOST_CELLS];
    let mut backs = [0u16; N];
    let mut boxes = [0i32; 4 * Plan::MOST_CELLS];
    check_into(
        corners,
        cells,
        doors,
        kind,
        faces[..sizes.faces].as_flattened_mut(),
        &mut firsts[..=sizes.cells],
        &mut backs[..sizes.faces],
        &mut boxes,
    )
}

// The plan check on three lists, the cells in a list of the kind told.
pub fn check(corners: &[i32], cells: &[u16], doors: &[u16], kind: u16) -> Result<Plan, Refusal>
    ensures { result ≡ checked kind corners.now cells.now doors.now }
{
    let sizes = measure(corners, cells, doors, kind)?;
    if sizes.faces <= FEW_FACES {
        check_sized::<FEW_FACES>(corners, cells, doors, kind, sizes)
    } else {
        check_sized::<MOST_FACES>(corners, cells, doors, kind, sizes)
    }
}
