// The listing: the lines around the stand are followed in their order.
ghost use Rattle.std.specs.Prelude.{suc, ◌+◌, ◌*◌, ◌<◌, ◌≤◌, true, ◌≡◌, length, get_or};
ghost use Rattle.std.proofs.lemmas.List.Edits.{sets};
ghost use Rattle.plane.specs.Side.{point, Near};
ghost use Rattle.cells.specs.Lists.{tabled, corner_count, cell_count, face_count};
ghost use Rattle.limits.specs.Limits.{most_corners, most_cells, most_sides, most_reach, sized, wall};
ghost use Rattle.cells.specs.Cut.{cells_of};
ghost use Rattle.cells.specs.Check.{framed};
ghost use Rattle.checking.specs.Sizes.{Fit};
ghost use Rattle.cells.specs.Backed.{Backed};
ghost use Rattle.cells.specs.Sound.{Numbered, Sound};
ghost use Rattle.stand.specs.Find.{located};
ghost use Rattle.fan.specs.Sight.{numbers, row_count, crossings, Whole};
ghost use Rattle.expand.specs.Floor.{Lines, Starts};
ghost use Rattle.expand.specs.Remains.{Follows};
ghost use Rattle.sight.specs.CellTree.{cell_tree, others_tree, inside_tree, within_tree, stand_tree, StandsIn};
ghost use Rattle.sight.specs.Listing.{listing_row_count, listing_crossings, listing_numbers, rows_from};
ghost use Rattle.sight.specs.Ceiling.{enough, up_to, tree_up_to, listed_up_to};

use crate::ceiling::{ENOUGH, allowance};
use crate::seen::see;
use crate::view::{Query, view_in};
use checking::{FEW_FACES, MOST_FACES, Sizes, measure};
use expand::{Followed, cross};
use face::Cells;
use limits::{Plan, Refusal};
use lines::lines_of;
use stand::locate::Footing;

// How many rows were written and how many free lines were passed.
#[derive(Clone, Copy)]
pub struct Counts {
    pub rows: usize,
    pub crossings: usize,
}

// Follows side f and the `more` sides after it, each with its two ends as limits; `unentered` is how many cells are not yet entered, and `left` how many
// free lines may be passed before following ends.
fn sides(
    seen: &[i32],
    lines: &[u16],
    faces: &[u16],
    reach: u64,
    table: &mut [u16],
    f: usize,
    more: usize,
    at: usize,
    unentered: usize,
    left: usize,
) -> Followed
    requires lines { Lines seen.now lines.now × Starts seen.now lines.now faces.now × (reach ≤ most_reach) }
    requires f_in_bounds { (4 * f + 3 < length lines.now) × (0 < left) }
    requires whole { Whole (cell_tree seen.now lines.now faces.now reach unentered more f) }
    requires f_in_bounds_2 { at + 4 * row_count (cell_tree seen.now lines.now faces.now reach unentered more f) ≤ length table.old }
    ensures { Follows table.old at left (cell_tree seen.now lines.now faces.now reach unentered more f) table.new result.rows result.left }
{
    let r = faces[2 * f];
    let l = lines[4 * f];
    let first = cross(
        seen, lines, faces, reach, table, f, r, l, at, unentered, left,
    );
    if more == 0 {
        return first;
    }
    if first.left == 0 {
        return first;
    }
    let after = at + 4 * first.rows;
    let next = lines[4 * f + 3] as usize;
    let second = sides(
        seen,
        lines,
        faces,
        reach,
        table,
        next,
        more - 1,
        after,
        unentered,
        first.left,
    );
    Followed {
        rows: first.rows + second.rows,
        left: second.left,
    }
}

// Follows the sides of cell c, from a stand strictly inside it.
fn list_inside(
    seen: &[i32],
    lines: &[u16],
    faces: &[u16],
    firsts: &[u16],
    reach: u64,
    table: &mut [u16],
    c: usize,
    left: usize,
) -> Followed
    requires lines { Lines seen.now lines.now × Starts seen.now lines.now faces.now × (reach ≤ most_reach) × Numbered (tabled faces.now firsts.now) }
    requires c_bound { (c < cell_count (tabled faces.now firsts.now)) × (length lines.now ≡ 4 * face_count (tabled faces.now firsts.now)) × (0 < left) }
    requires whole { Whole (inside_tree seen.now lines.now (tabled faces.now firsts.now) reach c) }
    requires c_in_bounds { 4 * row_count (inside_tree seen.now lines.now (tabled faces.now firsts.now) reach c) ≤ length table.old }
    ensures { Follows table.old 0 left (inside_tree seen.now lines.now (tabled faces.now firsts.now) reach c) table.new result.rows result.left }
{
    let f = firsts[c] as usize;
    let end = firsts[c + 1] as usize;
    let cells = firsts.len() - 1;
    sides(
        seen,
        lines,
        faces,
        reach,
        table,
        f,
        end - f - 1,
        0,
        cells - 1,
        left,
    )
}

// Follows the other sides of the cell of side g, in order after it.
fn others(
    seen: &[i32],
    lines: &[u16],
    faces: &[u16],
    reach: u64,
    table: &mut [u16],
    g: usize,
    at: usize,
    unentered: usize,
    left: usize,
) -> Followed
    requires lines { Lines seen.now lines.now × Starts seen.now lines.now faces.now × (reach ≤ most_reach) }
    requires g_in_bounds { (4 * g + 3 < length lines.now) × (0 < left) }
    requires whole { Whole (others_tree seen.now lines.now faces.now reach unentered g) }
    requires g_in_bounds_2 { at + 4 * row_count (others_tree seen.now lines.now faces.now reach unentered g) ≤ length table.old }
    ensures { Follows table.old at left (others_tree seen.now lines.now faces.now reach unentered g) table.new result.rows result.left }
{
    let more = lines[4 * g + 2] as usize;
    let next = lines[4 * g + 3] as usize;
    sides(
        seen, lines, faces, reach, table, next, more, at, unentered, left,
    )
}

// Follows the other sides of the two cells of side f, from a stand strictly within it; of `cells` cells these two are entered.
fn list_within(
    seen: &[i32],
    lines: &[u16],
    faces: &[u16],
    reach: u64,
    table: &mut [u16],
    f: usize,
    cells: usize,
    left: usize,
) -> Followed
    requires lines { Lines seen.now lines.now × Starts seen.now lines.now faces.now × (reach ≤ most_reach) }
    requires f_in_bounds { (4 * f + 3 < length lines.now) × (get_or lines.now (4 * f + 1) 0 ≡ wall → ⊥) × (2 ≤ cells) × (0 < left) }
    requires whole { Whole (within_tree seen.now lines.now faces.now reach cells f) }
    requires f_in_bounds_2 { 4 * row_count (within_tree seen.now lines.now faces.now reach cells f) ≤ length table.old }
    ensures { Follows table.old 0 left (within_tree seen.now lines.now faces.now reach cells f) table.new result.rows result.left }
{
    let g = lines[4 * f + 1] as usize;
    let own = others(seen, lines, faces, reach, table, f, 0, cells - 2, left);
    if own.left == 0 {
        return own;
    }
    let after = 4 * own.rows;
    let theirs = others(
        seen,
        lines,
        faces,
        reach,
        table,
        g,
        after,
        cells - 2,
        own.left,
    );
    Followed {
        rows: own.rows + theirs.rows,
        left: theirs.left,
    }
}

// Follows the lines around a stand that was found at p, over the tables of an accepted plan.
fn list_over(
    seen: &[i32],
    lines: &[u16],
    faces: &[u16],
    firsts: &[u16],
    reach: u64,
    table: &mut [u16],
    p: Footing,
    left: usize,
) -> Followed
    requires lines { Lines seen.now lines.now × Starts seen.now lines.now faces.now × (reach ≤ most_reach) × Numbered (tabled faces.now firsts.now) }
    requires stands_in { StandsIn lines.now (tabled faces.now firsts.now) p × (length lines.now ≡ 4 * face_count (tabled faces.now firsts.now)) × (0 < left) }
    requires whole { Whole (stand_tree seen.now lines.now (tabled faces.now firsts.now) reach p) }
    requires p_in_bounds { 4 * row_count (stand_tree seen.now lines.now (tabled faces.now firsts.now) reach p) ≤ length table.old }
    ensures { Follows table.old 0 left (stand_tree seen.now lines.now (tabled faces.now firsts.now) reach p) table.new result.rows result.left }
{
    match p {
        Footing::Inside(c) => list_inside(seen, lines, faces, firsts, reach, table, c, left),
        Footing::Side(c, k) => {
            let f = firsts[c] as usize + k;
            list_within(seen, lines, faces, reach, table, f, firsts.len() - 1, left)
        }
    }
}

// Follows them to all their rows.
fn list_all(
    seen: &[i32],
    lines: &[u16],
    faces: &[u16],
    firsts: &[u16],
    reach: u64,
    table: &mut [u16],
    p: Footing,
) -> Counts
    requires lines { Lines seen.now lines.now × Starts seen.now lines.now faces.now × (reach ≤ most_reach) × Numbered (tabled faces.now firsts.now) }
    requires stands_in { StandsIn lines.now (tabled faces.now firsts.now) p × (length lines.now ≡ 4 * face_count (tabled faces.now firsts.now)) }
    requires whole { Whole (stand_tree seen.now lines.now (tabled faces.now firsts.now) reach p) }
    requires p_in_bounds { 4 * row_count (stand_tree seen.now lines.now (tabled faces.now firsts.now) reach p) ≤ length table.old }
    requires p_bound { crossings (stand_tree seen.now lines.now (tabled faces.now firsts.now) reach p) < enough }
    ensures rows_value { result.rows ≡ row_count (stand_tree seen.now lines.now (tabled faces.now firsts.now) reach p) }
    ensures crossings_value { result.crossings ≡ crossings (stand_tree seen.now lines.now (tabled faces.now firsts.now) reach p) }
    ensures table_after { table.new ≡ sets table.old 0 (numbers (stand_tree seen.now lines.now (tabled faces.now firsts.now) reach p)) }
{
    let all = list_over(seen, lines, faces, firsts, reach, table, p, ENOUGH);
    Counts {
        rows: all.rows,
        crossings: ENOUGH - all.left,
    }
}

// Follows them with a ceiling of n crossings (document 02, A13), and copies the rows to the table only when all are known: where the ceiling is passed it
// keeps its contents.
fn list_apart(
    seen: &[i32],
    lines: &[u16],
    faces: &[u16],
    firsts: &[u16],
    reach: u64,
    table: &mut [u16],
    p: Footing,
    n: u64,
) -> Result<Counts, Refusal>
    requires lines { Lines seen.now lines.now × Starts seen.now lines.now faces.now × (reach ≤ most_reach) × Numbered (tabled faces.now firsts.now) }
    requires stands_in { StandsIn lines.now (tabled faces.now firsts.now) p × (length lines.now ≡ 4 * face_count (tabled faces.now firsts.now)) }
    requires whole { Whole (stand_tree seen.now lines.now (tabled faces.now firsts.now) reach p) }
    requires p_in_bounds { 4 * row_count (stand_tree seen.now lines.now (tabled faces.now firsts.now) reach p) ≤ length table.old }
    requires p_bound { (row_count (stand_tree seen.now lines.now (tabled faces.now firsts.now) reach p) ≤ most_corners) × (crossings (stand_tree seen.now lines.now (tabled faces.now firsts.now) reach p) < enough) }
    ensures { (result, table.new) ≡ tree_up_to (Some n) table.old (stand_tree seen.now lines.now (tabled faces.now firsts.now) reach p) }
{
    let mut apart = [0u16; 4 * Plan::MOST_CORNERS];
    let left = allowance(n);
    let followed = list_over(seen, lines, faces, firsts, reach, &mut apart, p, left);
    if followed.left == 0 {
        return Err(Refusal::Ceiling);
    }
    let numbers = 4 * followed.rows;
    table[..numbers].copy_from_slice(&apart[..numbers]);
    Ok(Counts {
        rows: followed.rows,
        crossings: left - followed.left,
    })
}

// Follows them with a ceiling or none.
pub fn list_up_to(
    seen: &[i32],
    lines: &[u16],
    faces: &[u16],
    firsts: &[u16],
    reach: u64,
    table: &mut [u16],
    p: Footing,
    ceiling: Option<u64>,
) -> Result<Counts, Refusal>
    requires lines { Lines seen.now lines.now × Starts seen.now lines.now faces.now × (reach ≤ most_reach) × Numbered (tabled faces.now firsts.now) }
    requires stands_in { StandsIn lines.now (tabled faces.now firsts.now) p × (length lines.now ≡ 4 * face_count (tabled faces.now firsts.now)) }
    requires whole { Whole (stand_tree seen.now lines.now (tabled faces.now firsts.now) reach p) }
    requires p_in_bounds { 4 * row_count (stand_tree seen.now lines.now (tabled faces.now firsts.now) reach p) ≤ length table.old }
    requires p_bound { (row_count (stand_tree seen.now lines.now (tabled faces.now firsts.now) reach p) ≤ most_corners) × (crossings (stand_tree seen.now lines.now (tabled faces.now firsts.now) reach p) < enough) }
    ensures { (result, table.new) ≡ tree_up_to ceiling table.old (stand_tree seen.now lines.now (tabled faces.now firsts.now) reach p) }
{
    match ceiling {
        None => Ok(list_all(seen, lines, faces, firsts, reach, table, p)),
        Some(n) => list_apart(seen, lines, faces, firsts, reach, table, p, n),
    }
}

// Draws the lines of an accepted plan under its setting and the corners seen from q in the room lent, and follows the lines around a stand that was
// found at p.
pub fn list_from(
    corners: &[i32],
    faces: &[u16],
    firsts: &[u16],
    backs: &[u16],
    doors: &[u16],
    setting: u64,
    reach: u64,
    q: [i64; 2],
    table: &mut [u16],
    p: Footing,
    lines: &mut [u16],
    seen: &mut [i32],
) -> Counts
    requires sound { Sound corners.now (tabled faces.now firsts.now) doors.now × Backed (tabled faces.now firsts.now) backs.now }
    requires near { Near (point q) × (located corners.now (tabled faces.now firsts.now) doors.now setting (point q) ≡ Ok p) }
    requires corners_in_bounds { (4 * corner_count corners.now ≤ length table.old) × (reach ≤ most_reach) }
    requires lines_len { (length lines.old ≡ 4 * face_count (tabled faces.now firsts.now)) × (length seen.old ≡ length corners.now) }
    ensures rows_value { result.rows ≡ listing_row_count corners.now (tabled faces.now firsts.now) doors.now setting reach (point q) p }
    ensures crossings_value { result.crossings ≡ listing_crossings corners.now (tabled faces.now firsts.now) doors.now setting reach (point q) p }
    ensures table_after { table.new ≡ sets table.old 0 (listing_numbers corners.now (tabled faces.now firsts.now) doors.now setting reach (point q) p) }
{
    let cells = Cells { faces, firsts };
    lines_of(&cells, backs, doors, setting, lines);
    see(corners, q, seen);
    list_all(seen, lines, faces, firsts, reach, table, p)
}

// Likewise with a ceiling or none. (Apart from `list_from`, which is never refused and says so.)
fn list_at(
    corners: &[i32],
    faces: &[u16],
    firsts: &[u16],
    backs: &[u16],
    doors: &[u16],
    setting: u64,
    reach: u64,
    q: [i64; 2],
    ceiling: Option<u64>,
    table: &mut [u16],
    p: Footing,
    lines: &mut [u16],
    seen: &mut [i32],
) -> Result<Counts, Refusal>
    requires sound { Sound corners.now (tabled faces.now firsts.now) doors.now × Backed (tabled faces.now firsts.now) backs.now }
    requires near { Near (point q) × (located corners.now (tabled faces.now firsts.now) doors.now setting (point q) ≡ Ok p) }
    requires corners_in_bounds { (4 * corner_count corners.now ≤ length table.old) × (reach ≤ most_reach) }
    requires lines_len { (length lines.old ≡ 4 * face_count (tabled faces.now firsts.now)) × (length seen.old ≡ length corners.now) }
    ensures { (result, table.new) ≡ up_to ceiling table.old (rows_from corners.now (tabled faces.now firsts.now) doors.now setting reach table.old (point q) p) }
{
    let cells = Cells { faces, firsts };
    lines_of(&cells, backs, doors, setting, lines);
    see(corners, q, seen);
    list_up_to(seen, lines, faces, firsts, reach, table, p, ceiling)
}

// Lists in the room lent: the tables of the plan, its lines, and the corners seen.
fn list_in(
    corners: &[i32],
    cells: &[u16],
    doors: &[u16],
    kind: u16,
    query: Query,
    ceiling: Option<u64>,
    table: &mut [u16],
    faces: &mut [u16],
    firsts: &mut [u16],
    backs: &mut [u16],
    lines: &mut [u16],
    seen: &mut [i32],
) -> Result<Counts, Refusal>
    requires cells_value { (framed kind corners.now cells.now ≡ true) × (sized (corner_count corners.now) (cell_count (cells_of kind cells.now)) (length doors.now) ≡ true) }
    requires faces_len { length faces.old ≡ 2 * face_count (cells_of kind cells.now) }
    requires firsts_len { length firsts.old ≡ suc (cell_count (cells_of kind cells.now)) }
    requires backs_len { length backs.old ≡ face_count (cells_of kind cells.now) }
    requires lines_len { (length lines.old ≡ 4 * face_count (cells_of kind cells.now)) × (length seen.old ≡ length corners.now) }
    ensures { (result, table.new) ≡ listed_up_to kind corners.now cells.now doors.now query ceiling table.old }
{
    let view = view_in(corners, cells, doors, kind, query, faces, firsts, backs)?;
    if table.len() < 4 * (corners.len() / 2) {
        return Err(Refusal::Room);
    }
    list_at(
        corners,
        faces,
        firsts,
        backs,
        doors,
        query.setting,
        reach::range(query.reach),
        [view.x, view.y],
        ceiling,
        table,
        view.footing,
        lines,
        seen,
    )
}

// Lists in lists of the sizes told, with tables for N faces.
fn list_sized<const N: usize>(
    corners: &[i32],
    cells: &[u16],
    doors: &[u16],
    kind: u16,
    query: Query,
    ceiling: Option<u64>,
    table: &mut [u16],
    sizes: Sizes,
) -> Result<Counts, Refusal>
    requires fit { Fit kind corners.now cells.now doors.now sizes.cells sizes.faces }
    requires room { (sizes.faces ≤ N) × (N ≤ most_sides * most_cells) }
    ensures { (result, table.new) ≡ listed_up_to kind corners.now cells.now doors.now query ceiling table.old }
{
    let mut faces = [[0u16; 2]; N];
    let mut firsts = [0u16; 1 + Plan::MOST_CELLS];
    let mut backs = [0u16; N];
    let mut lines = [[0u16; 4]; N];
    let mut seen = [0i32; 2 * Plan::MOST_CORNERS];
    list_in(
        corners,
        cells,
        doors,
        kind,
        query,
        ceiling,
        table,
        faces[..sizes.faces].as_flattened_mut(),
        &mut firsts[..=sizes.cells],
        &mut backs[..sizes.faces],
        lines[..sizes.faces].as_flattened_mut(),
        &mut seen[..corners.len()],
    )
}

// The listing: plan, the kind of its list of cells, query, ceiling and table; replies 1 to 6, 17, 7, 8, 15, 9 to 11 and 19 in order, each with its
// place, or row count and crossings.
pub fn list(
    corners: &[i32],
    cells: &[u16],
    doors: &[u16],
    kind: u16,
    query: Query,
    ceiling: Option<u64>,
    table: &mut [u16],
) -> Result<Counts, Refusal>
    ensures { (result, table.new) ≡ listed_up_to kind corners.now cells.now doors.now query ceiling table.old }
{
    let sizes = measure(corners, cells, doors, kind)?;
    if sizes.faces <= FEW_FACES {
        list_sized::<FEW_FACES>(corners, cells, doors, kind, query, ceiling, table, sizes)
    } else {
        list_sized::<MOST_FACES>(corners, cells, doors, kind, query, ceiling, table, sizes)
    }
}
