// A morning's stands together (document 02, A1): the plan is checked once and its lines are drawn once; then each stand is found and its walls are listed.
#![tactic(auto)]

ghost use Rattle.std.specs.Prelude.{suc, ◌+◌, ◌*◌, ◌<◌, ◌≤◌, true, [], ◌∷◌, ◌≡◌, length, take};
ghost use Rattle.std.proofs.lemmas.List.Edits.{sets};
ghost use Rattle.limits.specs.Limits.{most_corners, most_cells, most_sides, most_stands, sized};
ghost use Rattle.cells.specs.Lists.{corner_count, cell_count, face_count};
ghost use Rattle.cells.specs.Cut.{cells_of};
ghost use Rattle.cells.specs.Check.{framed};
ghost use Rattle.checking.specs.Sizes.{Fit};
ghost use Rattle.face.specs.Tables.{tables};
ghost use Rattle.lines.specs.Lined.{Lined};
ghost use Rattle.morning.specs.OverLines.{listed_on, single_on, RoomFor};
ghost use Rattle.morning.specs.Morning.{rows_of, crossings_of, three_of, rows_in_all, crossings_in_all, all_rows, all_replies, listed_stands};

use accepted::Accepted;
use checking::{FEW_FACES, MOST_FACES, Sizes};
use face::Cells;
use grant::{asked_in, measure_for};
use limits::{Plan, Refusal};
use lines::lines_of;
use sight::list::{Counts, list_up_to};
use sight::seen::see;
use sight::view::view_of_stand;
use stand::spot::Stand;

// What the stands of a morning share: the door setting, how many of the stands are asked for, the reach, and the ceiling, which each of them has for itself.
#[derive(Clone, Copy)]
pub struct Morning {
    pub setting: u64,
    pub count: usize,
    pub reach: Option<u64>,
    pub ceiling: Option<u64>,
}

// A stand's reply, from a place on: its number, row count and crossings.
fn put(replies: &mut [u64], at: usize, number: u64, rows: u64, crossings: u64)
    requires { at + 3 ≤ length replies.old }
    ensures { replies.new ≡ sets replies.old at (number ∷ rows ∷ crossings ∷ []) }
{
    replies[at] = number;
    replies[at + 1] = rows;
    replies[at + 2] = crossings;
}

// The listing of one stand, over the lines drawn: its rows go to the beginning of the table. The corners are seen from each stand anew, in the room lent.
fn list_one(
    plan: &Accepted,
    setting: u64,
    reach: Option<u64>,
    ceiling: Option<u64>,
    lines: &[u16],
    stand: Stand,
    table: &mut [u16],
    seen: &mut [i32],
) -> Result<Counts, Refusal>
    requires lined { Lined (tables plan.now.cells) plan.now.doors.now setting lines.now }
    requires corners_in_bounds { 4 * corner_count plan.now.corners.now ≤ length table.old }
    requires seen_len { length seen.old ≡ length plan.now.corners.now }
    ensures { (result, table.new) ≡ listed_on plan.now.corners.now (tables plan.now.cells) plan.now.doors.now setting reach ceiling stand table.old }
{
    let view = view_of_stand(plan, setting, stand, reach)?;
    see(plan.corners, [view.x, view.y], seen);
    let range = reach::range(reach);
    list_up_to(
        seen,
        lines,
        plan.cells.faces,
        plan.cells.firsts,
        range,
        table,
        view.footing,
        ceiling,
    )
}

// One stand with its reply, which goes to the replies from `at` on. A refused stand has counts 0 and writes no row.
fn list_stand(
    plan: &Accepted,
    setting: u64,
    reach: Option<u64>,
    ceiling: Option<u64>,
    lines: &[u16],
    stand: Stand,
    table: &mut [u16],
    replies: &mut [u64],
    at: usize,
    seen: &mut [i32],
) -> Counts
    requires lined { Lined (tables plan.now.cells) plan.now.doors.now setting lines.now }
    requires corners_in_bounds { (4 * corner_count plan.now.corners.now ≤ length table.old) × (at + 3 ≤ length replies.old) }
    requires seen_len { length seen.old ≡ length plan.now.corners.now }
    ensures rows_value { result.rows ≡ rows_of (listed_on plan.now.corners.now (tables plan.now.cells) plan.now.doors.now setting reach ceiling stand table.old).0 }
    ensures crossings_value { result.crossings ≡ crossings_of (listed_on plan.now.corners.now (tables plan.now.cells) plan.now.doors.now setting reach ceiling stand table.old).0 }
    ensures table_after { table.new ≡ (listed_on plan.now.corners.now (tables plan.now.cells) plan.now.doors.now setting reach ceiling stand table.old).1 }
    ensures replies_after { replies.new ≡ sets replies.old at (three_of (listed_on plan.now.corners.now (tables plan.now.cells) plan.now.doors.now setting reach ceiling stand table.old).0) }
{
    match list_one(plan, setting, reach, ceiling, lines, stand, table, seen) {
        Err(r) => {
            put(replies, at, r.number(), 0, 0);
            Counts {
                rows: 0,
                crossings: 0,
            }
        }
        Ok(Counts { rows, crossings }) => {
            put(replies, at, 0, rows as u64, crossings as u64);
            Counts { rows, crossings }
        }
    }
}

// Draws the lines of an accepted plan in the room lent, and lists the stands one after another.
fn list_each(
    plan: &Accepted,
    setting: u64,
    reach: Option<u64>,
    ceiling: Option<u64>,
    stands: [Stand; Plan::MOST_STANDS],
    count: usize,
    table: &mut [u16],
    replies: &mut [u64],
    lines: &mut [u16],
    seen: &mut [i32],
) -> Counts
    requires room_for { RoomFor count plan.now.corners.now (length table.old) (length replies.old) }
    requires lines_len { (length lines.old ≡ 4 * face_count (tables plan.now.cells)) × (length seen.old ≡ length plan.now.corners.now) }
    ensures rows_value { result.rows ≡ rows_in_all (single_on plan.now.corners.now (tables plan.now.cells) plan.now.doors.now setting reach ceiling) (take count stands) }
    ensures crossings_value { result.crossings ≡ crossings_in_all (single_on plan.now.corners.now (tables plan.now.cells) plan.now.doors.now setting reach ceiling) (take count stands) }
    ensures table_after { table.new ≡ sets table.old 0 (all_rows (single_on plan.now.corners.now (tables plan.now.cells) plan.now.doors.now setting reach ceiling) (take count stands)) }
    ensures replies_after { replies.new ≡ sets replies.old 0 (all_replies (single_on plan.now.corners.now (tables plan.now.cells) plan.now.doors.now setting reach ceiling) (take count stands)) }
{
    lines_of(&plan.cells, plan.backs, plan.doors, setting, lines);
    let mut rows = 0;
    let mut crossings = 0;
    for i in 0..count {
        let counts = list_stand(
            plan,
            setting,
            reach,
            ceiling,
            lines,
            stands[i],
            &mut table[4 * rows..],
            replies,
            3 * i,
            seen,
        );
        rows += counts.rows;
        crossings += counts.crossings;
    }
    Counts { rows, crossings }
}

// Lists in the room lent: the tables of the plan, its lines, and the corners seen.
fn list_in<'a>(
    corners: &'a [i32],
    cells: &[u16],
    doors: &'a [u16],
    kind: u16,
    morning: Morning,
    stands: [Stand; Plan::MOST_STANDS],
    table: &mut [u16],
    replies: &mut [u64],
    faces: &mut [u16],
    firsts: &mut [u16],
    backs: &mut [u16],
    lines: &mut [u16],
    seen: &mut [i32],
) -> Result<Counts, Refusal>
    requires cells_value { (framed kind corners.now cells.now ≡ true) × (sized (corner_count corners.now) (cell_count (cells_of kind cells.now)) (length doors.now) ≡ true) }
    requires count_le_most_stands { morning.count ≤ most_stands }
    requires faces_len { length faces.old ≡ 2 * face_count (cells_of kind cells.now) }
    requires firsts_len { length firsts.old ≡ suc (cell_count (cells_of kind cells.now)) }
    requires backs_len { length backs.old ≡ face_count (cells_of kind cells.now) }
    requires lines_len { (length lines.old ≡ 4 * face_count (cells_of kind cells.now)) × (length seen.old ≡ length corners.now) }
    ensures { (result, (table.new, replies.new)) ≡ listed_stands kind corners.now cells.now doors.now morning stands table.old replies.old }
{
    let setting = morning.setting;
    let count = morning.count;
    let reach = morning.reach;
    let ceiling = morning.ceiling;
    let mut boxes = [0i32; 4 * Plan::MOST_CELLS];
    asked_in(
        corners,
        cells,
        doors,
        kind,
        setting,
        count,
        table.len(),
        replies.len(),
        faces,
        firsts,
        backs,
        &mut boxes,
    )?;
    let cells = Cells { faces, firsts };
    let plan = Accepted {
        corners,
        cells,
        backs,
        boxes: &boxes,
        doors,
    };
    Ok(list_each(
        &plan, setting, reach, ceiling, stands, count, table, replies, lines, seen,
    ))
}

// Lists in lists of the sizes told, with tables for N faces.
fn list_sized<const N: usize>(
    corners: &[i32],
    cells: &[u16],
    doors: &[u16],
    kind: u16,
    morning: Morning,
    stands: [Stand; Plan::MOST_STANDS],
    table: &mut [u16],
    replies: &mut [u64],
    sizes: Sizes,
) -> Result<Counts, Refusal>
    requires fit { Fit kind corners.now cells.now doors.now sizes.cells sizes.faces }
    requires few_stands { morning.count ≤ most_stands }
    requires room { (sizes.faces ≤ N) × (N ≤ most_sides * most_cells) }
    ensures { (result, (table.new, replies.new)) ≡ listed_stands kind corners.now cells.now doors.now morning stands table.old replies.old }
{
    let mut faces = [[0u16; 2]; N];
    let mut firsts = [0u16; 1 + Plan::MOST_CELLS];
    let mut backs = [0u16; N];
    let mut lines = [[0u16; 4]; N];
    let mut seen = [0i32; 2 * Plan::MOST_CORNERS];
    list_in(
        corners,
        cells,
        doors,
        kind,
        morning,
        stands,
        table,
        replies,
        faces[..sizes.faces].as_flattened_mut(),
        &mut firsts[..=sizes.cells],
        &mut backs[..sizes.faces],
        lines[..sizes.faces].as_flattened_mut(),
        &mut seen[..corners.len()],
    )
}

// As many of the stands as are asked for, listed one after another: plan, the kind of its list of cells, what the stands share, stands, table and replies;
// replies 1 to 6, 17, 7 and 11 in order, each with its place, or the sums of rows and crossings.
pub fn list_stands(
    corners: &[i32],
    cells: &[u16],
    doors: &[u16],
    kind: u16,
    morning: Morning,
    stands: [Stand; Plan::MOST_STANDS],
    table: &mut [u16],
    replies: &mut [u64],
) -> Result<Counts, Refusal>
    ensures { (result, (table.new, replies.new)) ≡ listed_stands kind corners.now cells.now doors.now morning stands table.old replies.old }
{
    let sizes = measure_for(corners, cells, doors, kind, morning.count)?;
    if sizes.faces <= FEW_FACES {
        list_sized::<FEW_FACES>(
            corners, cells, doors, kind, morning, stands, table, replies, sizes,
        )
    } else {
        list_sized::<MOST_FACES>(
            corners, cells, doors, kind, morning, stands, table, replies, sizes,
        )
    }
}
