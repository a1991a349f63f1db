// The pair: crossing a line enters a cell, and a cell hands on lines; each line handed on is followed to its rows before the next is taken. The last line of
// a cell is gone on with in a loop, so that the stack grows only by the others. A line out of reach is not crossed (document 02, A5). Each passage takes one of
// those that are left, and where none is left following ends at once (A13).
// `seen` has two numbers a corner: x and y, less the stand's. `lines` has four numbers a face: the corner at which it ends; the face on its other side, or
// wall; how many sides of its cell follow the next one before it comes round again; and the next side of its cell. `faces` has two numbers a face, first the
// corner at which it starts. `reach` is in millimetres, 0 where it is unlimited.
#![tactic(auto)]

ghost use Rattle.std.specs.Prelude.{ℕ, ◌+◌, ◌*◌, ◌/◌, ◌<◌, ◌≤◌, ◌||◌, List, ◌≡◌, eqb, length, get_or};
ghost use Rattle.plane.specs.Cone.{cross as Cone·cross};
ghost use Rattle.limits.specs.Limits.{most_reach, wall};
ghost use Rattle.reach.specs.Reach.{out_of_reach};
ghost use Rattle.fan.specs.Sight.{fan, follow, row_count, crossings, Whole};
ghost use Rattle.expand.specs.Floor.{seen_at, placed, Near, floor_of, Lines, Starts};
ghost use Rattle.expand.specs.Narrows.{Narrows, Splits};
ghost use Rattle.expand.specs.Remains.{Remains, Follows};

use cells::corner;
use limits::Plan;
use reach::is_in_reach;

// How many rows were written, and how many passages are left; where none is, following has ended before the last row.
#[derive(Clone, Copy)]
pub struct Followed {
    pub rows: usize,
    pub left: usize,
}

// The cross product of two corners seen from the stand: positive where the second is left of the first.
fn turn(seen: &[i32], a: u16, b: u16) -> i64
    requires near { Near seen.now }
    requires a_in_bounds { (a < length seen.now / 2) × (b < length seen.now / 2) }
    ensures { result ≡ Cone·cross (seen_at seen.now a) (seen_at seen.now b) }
{
    let i = 2 * (a as usize);
    let j = 2 * (b as usize);
    let ax = seen[i] as i64;
    let ay = seen[i + 1] as i64;
    let bx = seen[j] as i64;
    let by = seen[j + 1] as i64;
    let left = ax * by;
    let right = ay * bx;
    left - right
}

// A side of an entered cell, and how many sides after it are still to be handed on.
#[derive(Clone, Copy)]
struct Sides {
    side: usize,
    more: usize,
}

// The first of side e of an entered cell and the `more` sides after it that is handed on: sides that end on or right of the right limit are skipped. Where
// it ends on or left of the left limit, no side is handed on after it; else it is the last, or ends strictly between the limits.
fn narrow(seen: &[i32], lines: &[u16], mut e: usize, mut more: usize, r: u16, l: u16) -> Sides
    requires lines { Lines seen.now lines.now }
    requires e_in_bounds { (4 * e + 3 < length lines.now) × (r < length seen.now / 2) × (l < length seen.now / 2) }
    ensures by_index { ((fs : List ℕ) (R : ℕ) → Narrows (floor_of seen.now lines.now fs R) r l more e result.more result.side) × (4 * result.side + 3 < length lines.now) }
    ensures splits { Splits (placed seen.now) (get_or lines.now (4 * result.side) 0) r l result.more }
{
    // no `for`: where it goes on is read of the table, and what is left is returned
    while more > 0 {
        let v = lines[4 * e];
        if turn(seen, r, v) > 0 {
            if turn(seen, v, l) > 0 {
                return Sides { side: e, more };
            }
            return Sides { side: e, more: 0 };
        }
        e = lines[4 * e + 3] as usize;
        more -= 1;
    }
    Sides { side: e, more }
}

// Is a line out of reach, by the corners at which it starts and ends?
fn is_far(seen: &[i32], start: u16, end: u16, reach: u64) -> bool
    requires near { Near seen.now × (reach ≤ most_reach) }
    requires start_in_bounds { (start < length seen.now / 2) × (end < length seen.now / 2) }
    ensures { result ≡ out_of_reach reach (seen_at seen.now start) (seen_at seen.now end) }
{
    if reach == 0 {
        return false;
    }
    let right = corner::at(seen, start as usize);
    let left = corner::at(seen, end as usize);
    !is_in_reach([right, left], reach)
}

// Does sight end at a line that has this across it and is so far?
fn is_end(across: u16, far: bool) -> bool
    ensures { result ≡ (eqb across wall || far) }
{
    across == Plan::WALL || far
}

// Follows the line of face f with limits r and l to its rows, which go to the table from `at` on; `unentered` is how many cells are not yet entered, and
// `left` how many free lines may be passed before following ends.
#[cycle(cross_hand_on)]
pub fn cross(
    seen: &[i32],
    lines: &[u16],
    faces: &[u16],
    reach: u64,
    table: &mut [u16],
    mut f: usize,
    mut r: u16,
    l: u16,
    at: usize,
    mut unentered: usize,
    mut left: usize,
) -> Followed
    requires lines { Lines seen.now lines.now × Starts seen.now lines.now faces.now × (reach ≤ most_reach) }
    requires f_in_bounds { (4 * f + 3 < length lines.now) × (r < length seen.now / 2) × (l < length seen.now / 2) × (0 < left) }
    requires whole { Whole (follow (floor_of seen.now lines.now faces.now reach) unentered f r l) }
    requires l_in_bounds { at + 4 * row_count (follow (floor_of seen.now lines.now faces.now reach) unentered f r l) ≤ length table.old }
    ensures { Follows table.old at left (follow (floor_of seen.now lines.now faces.now reach) unentered f r l) table.new result.rows result.left }
{
    let mut rows = 0;
    loop {
        let end = at + 4 * rows;
        let across = lines[4 * f + 1];
        let start = faces[2 * f];
        let finish = lines[4 * f];
        let far = is_far(seen, start, finish, reach);
        if is_end(across, far) {
            table[end] = f as u16;
            table[end + 1] = r;
            table[end + 2] = l;
            table[end + 3] = u16::from(far);
            return Followed {
                rows: rows + 1,
                left,
            };
        }
        unentered -= 1;
        left -= 1;
        if left == 0 {
            return Followed { rows, left: 0 };
        }
        let g = 4 * (across as usize);
        let more = lines[g + 2] as usize;
        let e = lines[g + 3] as usize;
        let handed = hand_on(
            seen, lines, faces, reach, table, e, more, r, l, end, unentered, left,
        );
        if handed.left == 0 {
            return Followed { rows, left: 0 };
        }
        rows += handed.rows;
        left = handed.left;
        f = handed.last;
        r = handed.right;
    }
}

// What was handed on of a cell but for its last line: how many rows were written and how many passages are left; the last line, and the right limit that is
// left for it.
#[derive(Clone, Copy)]
struct Handed {
    rows: usize,
    left: usize,
    last: usize,
    right: u16,
}

// Hands on side e of an entered cell and the `more` sides after it, but for the last line.
#[cycle(cross_hand_on)]
fn hand_on(
    seen: &[i32],
    lines: &[u16],
    faces: &[u16],
    reach: u64,
    table: &mut [u16],
    mut e: usize,
    mut more: usize,
    mut r: u16,
    l: u16,
    at: usize,
    unentered: usize,
    mut left: usize,
) -> Handed
    requires lines { Lines seen.now lines.now × Starts seen.now lines.now faces.now × (reach ≤ most_reach) }
    requires e_in_bounds { (4 * e + 3 < length lines.now) × (r < length seen.now / 2) × (l < length seen.now / 2) × (0 < left) }
    requires whole { Whole (fan (floor_of seen.now lines.now faces.now reach) (follow (floor_of seen.now lines.now faces.now reach) unentered) more e r l) }
    requires l_in_bounds { at + 4 * row_count (fan (floor_of seen.now lines.now faces.now reach) (follow (floor_of seen.now lines.now faces.now reach) unentered) more e r l) ≤ length table.old }
    ensures left_bound { result.left ≡ 0 → left ≤ crossings (fan (floor_of seen.now lines.now faces.now reach) (follow (floor_of seen.now lines.now faces.now reach) unentered) more e r l) }
    ensures remains { 0 < result.left → Remains table.old at left (fan (floor_of seen.now lines.now faces.now reach) (follow (floor_of seen.now lines.now faces.now reach) unentered) more e r l) table.new (at + 4 * result.rows) result.rows result.left (follow (floor_of seen.now lines.now faces.now reach) unentered result.last result.right l) }
    ensures last_in_bounds { (4 * result.last + 3 < length lines.now) × (result.right < length seen.now / 2) }
{
    let mut rows = 0;
    loop {
        let sides = narrow(seen, lines, e, more, r, l);
        let here = sides.side;
        if sides.more == 0 {
            return Handed {
                rows,
                left,
                last: here,
                right: r,
            };
        }
        let v = lines[4 * here];
        let one = cross(
            seen,
            lines,
            faces,
            reach,
            table,
            here,
            r,
            v,
            at + 4 * rows,
            unentered,
            left,
        );
        if one.left == 0 {
            return Handed {
                rows,
                left: 0,
                last: here,
                right: r,
            };
        }
        rows += one.rows;
        left = one.left;
        e = lines[4 * here + 3] as usize;
        more = sides.more - 1;
        r = v;
    }
}
