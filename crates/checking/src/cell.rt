// Cells: corner numbers that exist and differ, and every corner but a side's own two strictly left of that side.
ghost use Rattle.std.specs.Prelude.{◌<◌, false, ◌≡◌, pos};
ghost use Rattle.std.specs.Int.Signed.{lt_z};
ghost use Rattle.plane.specs.Side.{side};
ghost use Rattle.cells.specs.Least.{least, before};
ghost use Rattle.cells.specs.Lists.{corner_count, corner_at, cell_count};
ghost use Rattle.cells.specs.Check.{some_face, missing_corner, wrong_side, wrong_cell};
ghost use Rattle.cells.specs.Sound.{CornersNear};
ghost use Rattle.cells.proofs.Faces.{SideOf};
ghost use Rattle.face.specs.Tables.{tables};

use cells::corner;
use face::Cells;

// Is corner d strictly left of the line from corner a to corner b?
fn is_left(corners: &[i32], a: usize, b: usize, d: usize) -> bool
    requires corners_near { CornersNear corners.now }
    requires a_bound { a < corner_count corners.now }
    requires b_bound { b < corner_count corners.now }
    requires d_bound { d < corner_count corners.now }
    ensures { result ≡ lt_z (pos 0) (side (corner_at corners.now a) (corner_at corners.now b) (corner_at corners.now d)) }
{
    plane::is_right([
        corner::at(corners, a),
        corner::at(corners, b),
        corner::at(corners, d),
    ])
}

// Does a corner number of cell c not exist?
fn lacks_a_corner(corners: &[i32], cells: &Cells, c: usize) -> bool
    requires { c < cell_count (tables cells.now) }
    ensures { result ≡ some_face (tables cells.now) c (missing_corner corners.now (tables cells.now)) }
{
    let n = corners.len() / 2;
    (cells.first(c)..cells.end(c)).any(|f| n <= cells.start(f))
}

// Is some corner of cell c wrong for its side f?
fn is_wrong_side(corners: &[i32], cells: &Cells, c: usize, f: usize) -> bool
    requires corners_near { CornersNear corners.now }
    requires c_bound { c < cell_count (tables cells.now) }
    requires none_missing { some_face (tables cells.now) c (missing_corner corners.now (tables cells.now)) ≡ false }
    requires side_of { SideOf (tables cells.now) c f }
    ensures { result ≡ wrong_side corners.now (tables cells.now) c f }
{
    let n = cells.next(c, f);
    let a = cells.start(f);
    let b = cells.start(n);
    (cells.first(c)..cells.end(c)).any(|g| {
        let d = cells.start(g);
        g != f && (d == a || g != n && !is_left(corners, a, b, d))
    })
}

// Is some side of cell c wrong?
fn has_wrong_side(corners: &[i32], cells: &Cells, c: usize) -> bool
    requires corners_near { CornersNear corners.now }
    requires c_bound { c < cell_count (tables cells.now) }
    requires none_missing { some_face (tables cells.now) c (missing_corner corners.now (tables cells.now)) ≡ false }
    ensures { result ≡ some_face (tables cells.now) c (wrong_side corners.now (tables cells.now) c) }
{
    (cells.first(c)..cells.end(c)).any(|f| is_wrong_side(corners, cells, c, f))
}

// Of a cell with three sides one side value decides.
fn is_wrong(corners: &[i32], cells: &Cells, c: usize) -> bool
    requires corners_near { CornersNear corners.now }
    requires c_bound { c < cell_count (tables cells.now) }
    ensures { result ≡ wrong_cell corners.now (tables cells.now) c }
{
    if lacks_a_corner(corners, cells, c) {
        return true;
    }
    let f = cells.first(c);
    if cells.end(c) == f + 3 {
        let a = cells.start(f);
        let b = cells.start(f + 1);
        let d = cells.start(f + 2);
        return !is_left(corners, a, b, d);
    }
    has_wrong_side(corners, cells, c)
}

// The least wrong cell.
pub fn least_wrong(corners: &[i32], cells: &Cells) -> Option<usize>
    requires corners_near { CornersNear corners.now }
    ensures { result ≡ before (cell_count (tables cells.now)) (least (wrong_cell corners.now (tables cells.now)) (cell_count (tables cells.now)) 0) }
{
    (0..cells.count()).find(|&c| is_wrong(corners, cells, c))
}
