// Cells that lie on top of each other (document 02, A7): the least cell of any pair. Every call checks its plan anew, so not all pairs are looked at: a
// list of cells is taken apart by a line as long as that leaves fewer pairs, and the cells that reach to one side of it are compared with each other.
#![tactic(auto)]

ghost use Rattle.std.specs.Prelude.{ℕ, ◌*◌, ◌<◌, ◌≤◌, ◌≡◌, length, get_or};
ghost use Rattle.limits.specs.Limits.{most_cells};
ghost use Rattle.cells.specs.Least.{before};
ghost use Rattle.cells.specs.Lists.{cell_count};
ghost use Rattle.cells.specs.Check.{first_overlapping};
ghost use Rattle.face.specs.Tables.{tables};
ghost use Rattle.boxes.specs.Boxes.{Boxed};
ghost use Rattle.boxes.specs.Parts.{Listed};
ghost use Rattle.overlap.specs.Search.{Ready, Settles};

use boxes::part;
use boxes::part::Line;
use face::Cells;
use limits::Plan;
use pair::WithBoxes;

mod pair;

// A list so short is compared at once.
const FEW: usize = 24;

// How often a list is taken apart at most: 3,000 cells, halved so often, are few.
const LEVELS: usize = 16;

// Every two cells of a list, as `compare`.
fn search(all: &WithBoxes, list: &[u16], levels: usize, best: usize) -> usize
    requires listed { Listed (cell_count (tables all.now.cells)) list.now }
    requires list_len_bound { length list.now ≤ most_cells }
    ensures { Settles all.now.corners.now (tables all.now.cells) list.now best result }
{
    if list.len() <= FEW || levels == 0 {
        return all.compare(list, best);
    }
    match part::choose(list, all.boxes) {
        None => all.compare(list, best),
        Some(line) => {
            let mut some = [0u16; Plan::MOST_CELLS];
            let before = Line {
                beyond: false,
                ..line
            };
            let k = part::pick(list, all.boxes, before, &mut some);
            let found = search(all, &some[..k], levels - 1, best);
            let beyond = Line {
                beyond: true,
                ..line
            };
            let l = part::pick(list, all.boxes, beyond, &mut some);
            search(all, &some[..l], levels - 1, found)
        }
    }
}

// Lists all m cells.
fn list_all(m: usize, list: &mut [u16])
    requires few { m ≤ most_cells }
    requires room { m ≤ length list.old }
    ensures by_index { (c : ℕ) → c < m → get_or list.new c 0 ≡ c }
    ensures list_len_unchanged { length list.new ≡ length list.old }
{
    for c in 0..m {
        list[c] = c as u16;
    }
}

// The least cell of any overlapping pair. The boxes of all cells are noted in the room lent.
pub fn least_overlapping(corners: &[i32], cells: &Cells, boxes: &mut [i32]) -> Option<usize>
    requires ready { Ready corners.now (tables cells.now) }
    requires few { cell_count (tables cells.now) ≤ most_cells }
    requires room { 4 * cell_count (tables cells.now) ≤ length boxes.old }
    ensures value { result ≡ before (cell_count (tables cells.now)) (first_overlapping corners.now (tables cells.now)) }
    ensures boxed { Boxed corners.now (tables cells.now) boxes.new }
{
    boxes::note(corners, cells, boxes);
    let m = cells.count();
    let mut list = [0u16; Plan::MOST_CELLS];
    list_all(m, &mut list);
    let all = WithBoxes {
        corners,
        cells: *cells,
        boxes: &*boxes,
    };
    let found = search(&all, &list[..m], LEVELS, m);
    if found < m { Some(found) } else { None }
}
