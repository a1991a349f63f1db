// The door change (document 01, "Changing a door"), and what shutting and opening a door does to a list.
#![tactic(auto)]

ghost use Rattle.std.specs.Prelude.{suc, ◌*◌, ◌<◌, ◌≤◌, true, false, ◌≡◌, length, take};
ghost use Rattle.plane.specs.Side.{point, Near};
ghost use Rattle.limits.specs.Limits.{most_corners, most_cells, most_sides, most_reach, sized};
ghost use Rattle.cells.specs.Lists.{tabled, corner_count, cell_count, face_count};
ghost use Rattle.cells.specs.Cut.{cells_of};
ghost use Rattle.cells.specs.Check.{framed};
ghost use Rattle.cells.specs.Backed.{Backed};
ghost use Rattle.cells.specs.Sound.{Sound};
ghost use Rattle.checking.specs.Sizes.{Fit};
ghost use Rattle.stand.specs.Find.{located};
ghost use Rattle.sight.specs.Listing.{listing_numbers};
ghost use Rattle.doors.specs.Change.{same_list, in_state, wished as Change·wished, underfoot, changed_at, changed};

use cells::corner;
use checking::{FEW_FACES, MOST_FACES, Sizes, measure};
use limits::{Plan, Refusal};
use sight::list::{Counts, list_from};
use sight::view::{Query, view_in};
use stand::locate::Footing;

// Is the given list the same as the first n numbers of the table, in length and every number?
fn is_same_list(given: &[u16], table: &[u16], n: usize) -> bool
    requires { n ≤ length table.now }
    ensures { result ≡ same_list given.now (take n table.now) }
{
    given == &table[..n]
}

// Is the given list the true one under the setting? It is listed anew in the table that is lent for this; `lines` and `seen` are room to draw in.
fn is_true_list_with_room(
    corners: &[i32],
    faces: &[u16],
    firsts: &[u16],
    backs: &[u16],
    doors: &[u16],
    setting: u64,
    reach: u64,
    q: [i64; 2],
    given: &[u16],
    p: Footing,
    table: &mut [u16],
    lines: &mut [u16],
    seen: &mut [i32],
) -> bool
    requires sound { Sound corners.now (tabled faces.now firsts.now) doors.now × Backed (tabled faces.now firsts.now) backs.now }
    requires near { Near (point q) × (located corners.now (tabled faces.now firsts.now) doors.now setting (point q) ≡ Ok p) }
    requires corners_in_bounds { (4 * corner_count corners.now ≤ length table.old) × (reach ≤ most_reach) }
    requires lines_len { (length lines.old ≡ 4 * face_count (tabled faces.now firsts.now)) × (length seen.old ≡ length corners.now) }
    ensures { result ≡ same_list given.now (listing_numbers corners.now (tabled faces.now firsts.now) doors.now setting reach (point q) p) }
{
    let counts = list_from(
        corners, faces, firsts, backs, doors, setting, reach, q, table, p, lines, seen,
    );
    let n = 4 * counts.rows;
    is_same_list(given, table, n)
}

// Is door i in the wished state, shut or open?
fn is_in_wished_state(setting: u64, i: usize, shut: bool) -> bool
    requires { i < 64 }
    ensures { result ≡ in_state shut setting i }
{
    setting::is_shut(setting, i) == shut
}

// The setting with door i in the wished state.
fn wished(setting: u64, i: usize, shut: bool) -> u64
    requires { i < 64 }
    ensures { result ≡ Change·wished shut setting i }
{
    if shut {
        return setting::shut(setting, i);
    }
    setting::open(setting, i)
}

// Is the given list the true one? It is listed anew in a table of its own, so the lent one keeps its contents.
fn is_true_list(
    corners: &[i32],
    faces: &[u16],
    firsts: &[u16],
    backs: &[u16],
    doors: &[u16],
    setting: u64,
    reach: u64,
    q: [i64; 2],
    given: &[u16],
    p: Footing,
    lines: &mut [u16],
    seen: &mut [i32],
) -> bool
    requires sound { Sound corners.now (tabled faces.now firsts.now) doors.now × Backed (tabled faces.now firsts.now) backs.now }
    requires near { Near (point q) × (located corners.now (tabled faces.now firsts.now) doors.now setting (point q) ≡ Ok p) }
    requires reach_le_most_reach { reach ≤ most_reach }
    requires lines_len { (length lines.old ≡ 4 * face_count (tabled faces.now firsts.now)) × (length seen.old ≡ length corners.now) }
    ensures { result ≡ same_list given.now (listing_numbers corners.now (tabled faces.now firsts.now) doors.now setting reach (point q) p) }
{
    let mut scratch = [0u16; 4 * Plan::MOST_CORNERS];
    is_true_list_with_room(
        corners,
        faces,
        firsts,
        backs,
        doors,
        setting,
        reach,
        q,
        given,
        p,
        &mut scratch,
        lines,
        seen,
    )
}

// Is the stand on a side, and does the door's line hold it strictly within? The door's line ends where its other face starts.
fn is_underfoot(
    corners: &[i32],
    faces: &[u16],
    firsts: &[u16],
    backs: &[u16],
    doors: &[u16],
    q: [i64; 2],
    door: usize,
    p: Footing,
) -> bool
    requires sound { Sound corners.now (tabled faces.now firsts.now) doors.now × Backed (tabled faces.now firsts.now) backs.now }
    requires near { Near (point q) }
    ensures { result ≡ underfoot corners.now (tabled faces.now firsts.now) doors.now door (point q) p }
{
    match p {
        Footing::Inside(_) => false,
        Footing::Side(_, _) => {
            if doors.len() <= door {
                return false;
            }
            let f = doors[door] as usize;
            let g = backs[f] as usize;
            let right = corner::at(corners, faces[2 * f] as usize);
            let left = corner::at(corners, faces[2 * g] as usize);
            plane::is_within([right, left, q])
        }
    }
}

// From a stand that was found on no line of the door, with room in the table: replies 12 and 13, or the list under the new setting.
fn change_from(
    corners: &[i32],
    faces: &[u16],
    firsts: &[u16],
    backs: &[u16],
    doors: &[u16],
    setting: u64,
    reach: u64,
    q: [i64; 2],
    given: &[u16],
    door: usize,
    shut: bool,
    table: &mut [u16],
    p: Footing,
    lines: &mut [u16],
    seen: &mut [i32],
) -> Result<Counts, Refusal>
    requires sound { Sound corners.now (tabled faces.now firsts.now) doors.now × Backed (tabled faces.now firsts.now) backs.now }
    requires near { Near (point q) × (located corners.now (tabled faces.now firsts.now) doors.now setting (point q) ≡ Ok p) }
    requires p_value { underfoot corners.now (tabled faces.now firsts.now) doors.now door (point q) p ≡ false }
    requires corners_in_bounds { (4 * corner_count corners.now ≤ length table.old) × (reach ≤ most_reach) }
    requires lines_len { (length lines.old ≡ 4 * face_count (tabled faces.now firsts.now)) × (length seen.old ≡ length corners.now) }
    ensures { (result, table.new) ≡ changed_at corners.now (tabled faces.now firsts.now) doors.now setting reach given.now door shut table.old (point q) p }
{
    if doors.len() <= door {
        return Err(Refusal::Change);
    }
    if is_in_wished_state(setting, door, shut) {
        return Err(Refusal::Change);
    }
    if !is_true_list(
        corners, faces, firsts, backs, doors, setting, reach, q, given, p, lines, seen,
    ) {
        return Err(Refusal::Rows);
    }
    let counts = list_from(
        corners,
        faces,
        firsts,
        backs,
        doors,
        wished(setting, door, shut),
        reach,
        q,
        table,
        p,
        lines,
        seen,
    );
    Ok(counts)
}

// The change in the room lent: the tables of the plan, its lines, and the corners seen.
fn change_in(
    corners: &[i32],
    cells: &[u16],
    doors: &[u16],
    kind: u16,
    query: Query,
    given: &[u16],
    door: usize,
    shut: bool,
    table: &mut [u16],
    faces: &mut [u16],
    firsts: &mut [u16],
    backs: &mut [u16],
    lines: &mut [u16],
    seen: &mut [i32],
) -> Result<Counts, Refusal>
    requires cells_value { (framed kind corners.now cells.now ≡ true) × (sized (corner_count corners.now) (cell_count (cells_of kind cells.now)) (length doors.now) ≡ true) }
    requires faces_len { length faces.old ≡ 2 * face_count (cells_of kind cells.now) }
    requires firsts_len { length firsts.old ≡ suc (cell_count (cells_of kind cells.now)) }
    requires backs_len { length backs.old ≡ face_count (cells_of kind cells.now) }
    requires lines_len { (length lines.old ≡ 4 * face_count (cells_of kind cells.now)) × (length seen.old ≡ length corners.now) }
    ensures { (result, table.new) ≡ changed kind corners.now cells.now doors.now query given.now door shut table.old }
{
    let view = view_in(corners, cells, doors, kind, query, faces, firsts, backs)?;
    let q = [view.x, view.y];
    if is_underfoot(corners, faces, firsts, backs, doors, q, door, view.footing) {
        return Err(Refusal::Line);
    }
    if table.len() < 4 * (corners.len() / 2) {
        return Err(Refusal::Room);
    }
    change_from(
        corners,
        faces,
        firsts,
        backs,
        doors,
        query.setting,
        reach::range(query.reach),
        q,
        given,
        door,
        shut,
        table,
        view.footing,
        lines,
        seen,
    )
}

// Changes in lists of the sizes told, with tables for N faces.
fn change_sized<const N: usize>(
    corners: &[i32],
    cells: &[u16],
    doors: &[u16],
    kind: u16,
    query: Query,
    given: &[u16],
    door: usize,
    shut: bool,
    table: &mut [u16],
    sizes: Sizes,
) -> Result<Counts, Refusal>
    requires fit { Fit kind corners.now cells.now doors.now sizes.cells sizes.faces }
    requires room { (sizes.faces ≤ N) × (N ≤ most_sides * most_cells) }
    ensures { (result, table.new) ≡ changed kind corners.now cells.now doors.now query given.now door shut table.old }
{
    let mut faces = [[0u16; 2]; N];
    let mut firsts = [0u16; 1 + Plan::MOST_CELLS];
    let mut backs = [0u16; N];
    let mut lines = [[0u16; 4]; N];
    let mut seen = [0i32; 2 * Plan::MOST_CORNERS];
    change_in(
        corners,
        cells,
        doors,
        kind,
        query,
        given,
        door,
        shut,
        table,
        faces[..sizes.faces].as_flattened_mut(),
        &mut firsts[..=sizes.cells],
        &mut backs[..sizes.faces],
        lines[..sizes.faces].as_flattened_mut(),
        &mut seen[..corners.len()],
    )
}

// The door change: plan, the kind of its list of cells, query under the old setting, the list true for it, a door, the wished state and the table.
pub fn change(
    corners: &[i32],
    cells: &[u16],
    doors: &[u16],
    kind: u16,
    query: Query,
    given: &[u16],
    door: usize,
    shut: bool,
    table: &mut [u16],
) -> Result<Counts, Refusal>
    ensures { (result, table.new) ≡ changed kind corners.now cells.now doors.now query given.now door shut table.old }
{
    let sizes = measure(corners, cells, doors, kind)?;
    if sizes.faces <= FEW_FACES {
        change_sized::<FEW_FACES>(
            corners, cells, doors, kind, query, given, door, shut, table, sizes,
        )
    } else {
        change_sized::<MOST_FACES>(
            corners, cells, doors, kind, query, given, door, shut, table, sizes,
        )
    }
}
