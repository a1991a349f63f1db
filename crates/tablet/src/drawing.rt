// The drawing: the listing's rows, each as four numbers of single precision.
ghost use Rattle.std.specs.Prelude.{◌+◌, ◌*◌, ◌<◌, ◌≤◌, false, ◌≡◌, length};
ghost use Rattle.std.proofs.lemmas.List.Edits.{sets};
ghost use Rattle.plane.specs.Side.{point, Near};
ghost use Rattle.cells.specs.Lists.{corner_count};
ghost use Rattle.cells.specs.Sound.{CornersNear};
ghost use Rattle.fan.specs.Written.{row_at};
ghost use Rattle.tablet.specs.Drawing.{row_far, any_far, row_offsets, offsets_of, rows_in, NameCorners, drawn};

use crate::offset::{is_far, offset_of};
use limits::{Plan, Refusal};
use sight::list::{Counts, list};
use sight::view::Query;
use stand::spot::stand_spot;

// Does row i name a corner that is too far?
fn is_row_far(corners: &[i32], table: &[u16], q: [i64; 2], i: usize) -> bool
    requires corners_near { CornersNear corners.now × Near (point q) }
    requires i_in_bounds { 4 * i + 3 < length table.now }
    requires names_corners { ((row_at table.now i).right < corner_count corners.now) × ((row_at table.now i).left < corner_count corners.now) }
    ensures { result ≡ row_far corners.now (point q) (row_at table.now i) }
{
    let right = table[4 * i + 1] as usize;
    let left = table[4 * i + 2] as usize;
    is_far(corners, right, q) || is_far(corners, left, q)
}

// Does any of so many rows, from the first on?
fn is_any_far(corners: &[i32], table: &[u16], q: [i64; 2], rows: usize) -> bool
    requires corners_near { CornersNear corners.now × Near (point q) }
    requires rows_in_bounds { 4 * rows ≤ length table.now }
    requires name_corners { NameCorners corners.now table.now rows }
    ensures { result ≡ any_far corners.now (point q) (rows_in table.now 0 rows) }
{
    (0..rows).any(|i| is_row_far(corners, table, q, i))
}

// Draws row i, none of whose corners is too far.
fn draw_row(corners: &[i32], table: &[u16], q: [i64; 2], offsets: &mut [f32], i: usize)
    requires corners_near { CornersNear corners.now × Near (point q) }
    requires i_in_bounds { 4 * i + 3 < length table.now }
    requires names_corners { ((row_at table.now i).right < corner_count corners.now) × ((row_at table.now i).left < corner_count corners.now) }
    requires room { 4 * i + 3 < length offsets.old }
    requires not_far { row_far corners.now (point q) (row_at table.now i) ≡ false }
    ensures { offsets.new ≡ sets offsets.old (4 * i) (row_offsets corners.now (point q) (row_at table.now i)) }
{
    let right = offset_of(corners, table[4 * i + 1] as usize, q);
    let left = offset_of(corners, table[4 * i + 2] as usize, q);
    offsets[4 * i] = right.x;
    offsets[4 * i + 1] = right.y;
    offsets[4 * i + 2] = left.x;
    offsets[4 * i + 3] = left.y;
}

// Draws the first n rows.
fn draw_rows(corners: &[i32], table: &[u16], q: [i64; 2], offsets: &mut [f32], n: usize)
    requires corners_near { CornersNear corners.now × Near (point q) }
    requires rows_in_bounds { 4 * n ≤ length table.now }
    requires name_corners { NameCorners corners.now table.now n }
    requires room { 4 * n ≤ length offsets.old }
    requires none_far { any_far corners.now (point q) (rows_in table.now 0 n) ≡ false }
    ensures { offsets.new ≡ sets offsets.old 0 (offsets_of corners.now (point q) (rows_in table.now 0 n)) }
{
    for i in 0..n {
        draw_row(corners, table, q, offsets, i);
    }
}

// The drawing: plan, the kind of its list of cells, query and lent list; replies 1 to 6, 17, 7, 8, 15, 9 to 11 and 14 in order, each with its place, or
// row count and crossings. All rows are looked at before the first number is written.
pub fn draw(
    corners: &[i32],
    cells: &[u16],
    doors: &[u16],
    kind: u16,
    query: Query,
    offsets: &mut [f32],
) -> Result<Counts, Refusal>
    ensures { (result, offsets.new) ≡ drawn kind corners.now cells.now doors.now query offsets.old }
{
    let mut table = [0u16; 4 * Plan::MOST_CORNERS];
    let counts = list(corners, cells, doors, kind, query, None, &mut table)?;
    if offsets.len() < 4 * (corners.len() / 2) {
        return Err(Refusal::Room);
    }
    let (x, y) = stand_spot(corners, query.stand).ok_or(Refusal::Stand)?;
    let q = [x, y];
    if is_any_far(corners, &table, q, counts.rows) {
        return Err(Refusal::Far);
    }
    draw_rows(corners, &table, q, offsets, counts.rows);
    Ok(counts)
}
