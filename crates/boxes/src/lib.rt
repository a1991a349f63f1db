// The boxes of cells (document 02, A7 and A3): of each cell its corners' least and greatest x, least and greatest y.
#![tactic(auto)]

ghost use Rattle.std.specs.Prelude.{◌+◌, ◌*◌, ◌<◌, ◌≤◌, ◌≡◌, length, [], ◌∷◌, ◌≤ℤ◌};
ghost use Rattle.std.proofs.lemmas.List.Edits.{sets};
ghost use Rattle.plane.specs.Side.{point};
ghost use Rattle.cells.specs.Lists.{corner_count, corner_at, cell_count};
ghost use Rattle.cells.specs.Sound.{CornersExist};
ghost use Rattle.face.specs.Tables.{tables};
ghost use Rattle.boxes.specs.Boxes.{Holds, Wider, HoldsCell, box_at, Boxed, meeting, past};

use face::Cells;

pub mod part;

#[derive(Clone, Copy)]
pub struct Bounds {
    pub left: i32,
    pub right: i32,
    pub low: i32,
    pub high: i32,
}

impl Bounds {
    // The box of two boxes.
    #[tactic(auto, using(crate::proofs::Numbers::both_at_most, crate::proofs::Numbers::both_at_least))]
    pub fn joined(self, other: Bounds) -> Bounds
        ensures holds_self { Wider result self }
        ensures holds_other { Wider result other }
    {
        let left = self.left.min(other.left);
        let right = self.right.max(other.right);
        let low = self.low.min(other.low);
        let high = self.high.max(other.high);
        Bounds {
            left,
            right,
            low,
            high,
        }
    }

    // Do two boxes meet strictly? Boxes that only touch do not. All four are compared, so that there is one branch to be foreseen and not four.
    #[tactic(auto, unfolding(crate::specs::Boxes::meeting))]
    pub fn meets(self, other: Bounds) -> bool
        ensures { result ≡ meeting self other }
    {
        let right = self.left < other.right;
        let left = other.left < self.right;
        let above = self.low < other.high;
        let below = other.low < self.high;
        right & left & above & below
    }

    // Does q lie past the box? A point on its border does not. All four are compared, as in `meets`.
    pub fn is_past(self, q: [i64; 2]) -> bool
        ensures { result ≡ past self (point q) }
    {
        let [x, y] = q;
        let left = x < self.left as i64;
        let right = (self.right as i64) < x;
        let below = y < self.low as i64;
        let above = (self.high as i64) < y;
        left | right | below | above
    }
}

// The box of corner i alone.
fn around(corners: &[i32], i: usize) -> Bounds
    requires { i < corner_count corners.now }
    ensures { Holds result (corner_at corners.now i) }
{
    let x = corners[2 * i];
    let y = corners[2 * i + 1];
    Bounds {
        left: x,
        right: x,
        low: y,
        high: y,
    }
}

// The box of cell c, by its corners.
fn of_cell(corners: &[i32], cells: &Cells, c: usize) -> Bounds
    requires corners_exist { CornersExist corners.now (tables cells.now) }
    requires c_bound { c < cell_count (tables cells.now) }
    ensures { HoldsCell corners.now (tables cells.now) c result }
{
    let from = cells.first(c);
    let mut r = around(corners, cells.start(from));
    for f in from + 1..cells.end(c) {
        r = r.joined(around(corners, cells.start(f)));
    }
    r
}

// Notes the box of cell c.
fn write(boxes: &mut [i32], c: usize, b: Bounds)
    requires { 4 * c + 4 ≤ length boxes.old }
    ensures { boxes.new ≡ sets boxes.old (4 * c) (b.left ∷ b.right ∷ b.low ∷ b.high ∷ []) }
{
    let at = 4 * c;
    boxes[at] = b.left;
    boxes[at + 1] = b.right;
    boxes[at + 2] = b.low;
    boxes[at + 3] = b.high;
}

// Notes the boxes of all cells.
pub fn note(corners: &[i32], cells: &Cells, boxes: &mut [i32])
    requires corners_exist { CornersExist corners.now (tables cells.now) }
    requires room { 4 * cell_count (tables cells.now) ≤ length boxes.old }
    ensures boxed { Boxed corners.now (tables cells.now) boxes.new }
    ensures boxes_len_unchanged { length boxes.new ≡ length boxes.old }
{
    for c in 0..cells.count() {
        write(boxes, c, of_cell(corners, cells, c));
    }
}

// The box of cell c.
pub fn read(boxes: &[i32], c: usize) -> Bounds
    requires { 4 * c + 4 ≤ length boxes.now }
    ensures { result ≡ box_at boxes.now c }
{
    let at = 4 * c;
    Bounds {
        left: boxes[at],
        right: boxes[at + 1],
        low: boxes[at + 2],
        high: boxes[at + 3],
    }
}
