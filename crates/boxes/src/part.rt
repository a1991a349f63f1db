// Lists of cells, taken apart by a line parallel to an axis (document 02, A7): which line is taken decides how long a search takes, never what it finds.
ghost use Rattle.std.specs.Prelude.{◌/◌, ◌<◌, ◌≤◌, ◌≡◌, length};
ghost use Rattle.boxes.specs.Parts.{reaching, Listed, Picked};

use crate::{Bounds, read};

// An upright line at the x that is half of `twice`, or a level one at such a y; and a side of it: beyond it, or before it.
#[derive(Clone, Copy)]
pub struct Line {
    pub upright: bool,
    pub twice: i64,
    pub beyond: bool,
}

// Does a box reach to the asked side?
fn is_reaching(b: Bounds, line: Line) -> bool
    ensures { result ≡ reaching b line }
{
    match (line.upright, line.beyond) {
        (true, true) => line.twice < 2 * (b.right as i64),
        (true, false) => 2 * (b.left as i64) < line.twice,
        (false, true) => line.twice < 2 * (b.high as i64),
        (false, false) => 2 * (b.low as i64) < line.twice,
    }
}

// Of the cells listed, those that reach to the asked side: they are written from the beginning, and their count is returned.
pub fn pick(list: &[u16], boxes: &[i32], line: Line, part: &mut [u16]) -> usize
    requires listed { Listed (length boxes.now / 4) list.now }
    requires room { length list.now ≤ length part.old }
    ensures picked { Picked boxes.now line list.now (length list.now) part.new result }
    ensures part_len_unchanged { length part.new ≡ length part.old }
{
    let mut k = 0;
    for &c in list {
        part[k] = c;
        if is_reaching(read(boxes, c as usize), line) {
            k += 1;
        }
    }
    k
}

// How many of the cells listed reach to the asked side.
fn count(list: &[u16], boxes: &[i32], line: Line) -> usize
    requires { Listed (length boxes.now / 4) list.now }
    ensures { result ≤ length list.now }
{
    // not `filter(..).count()`: that branches at each cell, and the check of a plan took up to a sixth longer
    let mut k = 0;
    for &c in list {
        if is_reaching(read(boxes, c as usize), line) {
            k += 1;
        }
    }
    k
}

// The box of all cells listed, of which there is one.
fn extent(list: &[u16], boxes: &[i32]) -> Bounds
    requires listed { Listed (length boxes.now / 4) list.now }
    requires not_empty { 0 < length list.now }
{
    let first = read(boxes, list[0] as usize);
    list.iter()
        .map(|&c| read(boxes, c as usize))
        .fold(first, Bounds::joined)
}

// The line through the middle of a box.
fn through(b: Bounds, upright: bool) -> Line {
    let twice = if upright {
        b.left as i64 + b.right as i64
    } else {
        b.low as i64 + b.high as i64
    };
    Line {
        upright,
        twice,
        beyond: false,
    }
}

// Are both parts so much smaller than the list that there are fewer pairs in them than in it?
fn is_helpful(list: &[u16], boxes: &[i32], line: Line) -> bool
    requires { Listed (length boxes.now / 4) list.now }
{
    let n = list.len() / 4;
    let before = count(list, boxes, line);
    let beyond = count(
        list,
        boxes,
        Line {
            beyond: true,
            ..line
        },
    );
    before <= 3 * n && beyond <= 3 * n && before + beyond <= 5 * n
}

// A line that helps: through the middle of what the list covers, or, where few cells far away keep that from helping, through the middle of one of its
// cells; across the longer side of what it covers rather than across the shorter. Or none of these does.
#[inline(never)] // within a search, it would have each set its list of cells to 0 once more
pub fn choose(list: &[u16], boxes: &[i32]) -> Option<Line>
    requires listed { Listed (length boxes.now / 4) list.now }
    requires not_empty { 0 < length list.now }
{
    let all = extent(list, boxes);
    let one = read(boxes, list[list.len() / 2] as usize);
    let wide = all.right as i64 - all.left as i64;
    let tall = all.high as i64 - all.low as i64;
    let upright = tall < wide;
    [
        through(all, upright),
        through(all, !upright),
        through(one, upright),
        through(one, !upright),
    ]
    .into_iter()
    .find(|&line| is_helpful(list, boxes, line))
}
