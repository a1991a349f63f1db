// Where the stand is: in the least-numbered cell that holds it strictly inside, else on the first free side that it is strictly within.
ghost use Rattle.std.specs.Prelude.{◌*◌, ◌<◌, suc, true, false, ◌≡◌, ltb};
ghost use Rattle.plane.specs.Side.{point, Near};
ghost use Rattle.cells.specs.Least.{least, before};
ghost use Rattle.cells.specs.Lists.{corner_at, cell_count, face_count, first, side_count, next, start as Lists·start};
ghost use Rattle.cells.specs.Sound.{CornersNear, CornersExist};
ghost use Rattle.face.specs.Tables.{tables};
ghost use Rattle.stand.specs.Find.{against, within_free, first_within, side_at, by_places, located};

use accepted::Accepted;
use cells::corner;
use face::Cells;
use limits::Refusal;
use plane::Containment;

// Strictly inside a cell; strictly within a free side: its cell, and the side's number in it.
#[derive(Clone, Copy)]
pub enum Footing {
    Inside(usize),
    Side(usize, usize),
}

// The corner at which face f starts.
fn start(corners: &[i32], cells: &Cells, f: usize) -> [i64; 2]
    requires corners_exist { CornersExist corners.now (tables cells.now) }
    requires f_bound { f < face_count (tables cells.now) }
    ensures { point result ≡ corner_at corners.now (Lists·start (tables cells.now) f) }
{
    corner::at(corners, cells.start(f))
}

// Where q lies against cell c: the least of its side values decides. It is taken over all sides, since leaving at the first that is negative costs
// more than it saves: which one that is cannot be foreseen, and a wrong guess of the machine's takes longer than the rest of a small cell.
fn containment(corners: &[i32], cells: &Cells, q: [i64; 2], c: usize) -> Containment
    requires corners { CornersNear corners.now × CornersExist corners.now (tables cells.now) }
    requires near { Near (point q) }
    requires c_bound { c < cell_count (tables cells.now) }
    ensures { result ≡ against corners.now (tables cells.now) (point q) c }
{
    let first = cells.first(c);
    let begin = start(corners, cells, first);
    let second = start(corners, cells, first + 1);
    let mut from = start(corners, cells, first + 2);
    // a cell has at least three sides
    let one = plane::side_value([begin, second, q]);
    let two = plane::side_value([second, from, q]);
    let mut least = one.min(two);
    for n in first + 3..cells.end(c) {
        let to = start(corners, cells, n);
        let value = plane::side_value([from, to, q]);
        least = least.min(value);
        from = to;
    }
    // the last side ends where the first starts
    let value = plane::side_value([from, begin, q]);
    plane::placed(least.min(value))
}

// Where q lies against cell c, by its box first: where that does not hold q, the cell is ruled out and nothing is multiplied (document 02, A3).
fn containment_by_box(plan: &Accepted, q: [i64; 2], c: usize) -> Containment
    requires near { Near (point q) }
    requires c_bound { c < cell_count (tables plan.now.cells) }
    ensures { result ≡ against plan.now.corners.now (tables plan.now.cells) (point q) c }
{
    let b = boxes::read(plan.boxes, c);
    if b.is_past(q) {
        return Containment::Outside;
    }
    containment(plan.corners, &plan.cells, q, c)
}

// Is q strictly within side f, which ends where face n starts, and does sight pass that side under the setting?
fn is_in_doorway(plan: &Accepted, setting: u64, q: [i64; 2], f: usize, n: usize) -> bool
    requires near { Near (point q) }
    requires f_bound { (f < face_count (tables plan.now.cells)) × (n ≡ next (tables plan.now.cells) f) }
    ensures { result ≡ within_free plan.now.corners.now (tables plan.now.cells) plan.now.doors.now setting (point q) f }
{
    let from = start(plan.corners, &plan.cells, f);
    let to = start(plan.corners, &plan.cells, n);
    let faces = plan.cells.faces;
    let firsts = plan.cells.firsts;
    plane::is_within([from, to, q])
        && setting::is_free(faces, firsts, plan.backs, plan.doors, setting, f)
}

// The first free side of cell c that q is strictly within.
fn least_doorway(plan: &Accepted, setting: u64, q: [i64; 2], c: usize) -> Option<usize>
    requires near { Near (point q) }
    requires c_bound { c < cell_count (tables plan.now.cells) }
    ensures { result ≡ before (first (tables plan.now.cells) (suc c)) (least (within_free plan.now.corners.now (tables plan.now.cells) plan.now.doors.now setting (point q)) (side_count (tables plan.now.cells) c) (first (tables plan.now.cells) c)) }
{
    (plan.cells.first(c)..plan.cells.end(c)).find(|&f| is_in_doorway(
        plan,
        setting,
        q,
        f,
        plan.cells.next(c, f),
    ))
}

// As `least_doorway`, by the cell's box first: who stands strictly within a side stands in the box of its cell (document 02, A3).
fn doorway_by_box(plan: &Accepted, setting: u64, q: [i64; 2], c: usize) -> Option<usize>
    requires near { Near (point q) }
    requires c_bound { c < cell_count (tables plan.now.cells) }
    ensures { result ≡ before (first (tables plan.now.cells) (suc c)) (least (within_free plan.now.corners.now (tables plan.now.cells) plan.now.doors.now setting (point q)) (side_count (tables plan.now.cells) c) (first (tables plan.now.cells) c)) }
{
    let b = boxes::read(plan.boxes, c);
    if b.is_past(q) {
        return None;
    }
    least_doorway(plan, setting, q, c)
}

// A stand on a border: the first free side that it is strictly within.
fn on_side(plan: &Accepted, setting: u64, q: [i64; 2]) -> Result<Footing, Refusal>
    requires { Near (point q) }
    ensures { result ≡ by_places false (ltb (first_within plan.now.corners.now (tables plan.now.cells) plan.now.doors.now setting (point q)) (face_count (tables plan.now.cells))) true 0 (side_at (tables plan.now.cells) (first_within plan.now.corners.now (tables plan.now.cells) plan.now.doors.now setting (point q))) }
{
    for c in 0..plan.cells.count() {
        if let Some(f) = doorway_by_box(plan, setting, q, c) {
            return Ok(Footing::Side(c, f - plan.cells.first(c)));
        }
    }
    Err(Refusal::Line)
}

// Where a stand in whole millimetres is, on a checked plan under its setting.
pub fn locate(plan: &Accepted, setting: u64, q: [i64; 2]) -> Result<Footing, Refusal>
    requires { Near (point q) }
    ensures { result ≡ located plan.now.corners.now (tables plan.now.cells) plan.now.doors.now setting (point q) }
{
    let mut on_border = false;
    for c in 0..plan.cells.count() {
        match containment_by_box(plan, q, c) {
            Containment::Inside => {
                return Ok(Footing::Inside(c));
            }
            Containment::Border => {
                on_border = true;
            }
            Containment::Outside => {}
        }
    }
    if on_border {
        return on_side(plan, setting, q);
    }
    // a side that the stand is strictly within has it on its cell's border
    Err(Refusal::Outside)
}
