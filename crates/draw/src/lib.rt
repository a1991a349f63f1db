// A list of cells of either kind is cut into its cells, and its tables are drawn: of each face the corner at which it starts and the neighbour across
// it, and of each cell its first face (document 01, "The plan file"; document 02, A14).
#![tactic(auto)]

ghost use Rattle.std.specs.Prelude.{List, ℕ, suc, ◌+◌, ◌*◌, ◌^◌, ◌<◌, ◌≤◌, true, ◌≡◌, length, take, drop};
ghost use Rattle.std.proofs.lemmas.List.Edits.{sets};
ghost use Rattle.limits.specs.Limits.{triangles, polygons};
ghost use Rattle.cells.specs.Lists.{cell_count, face_count};
ghost use Rattle.cells.specs.Cut.{cut, is_whole, cells_of, pairs};
ghost use Rattle.draw.specs.Counted.{counted, Tells};

use limits::Plan;

// How many cells and faces a list has.
#[derive(Clone, Copy)]
pub struct Sizes {
    pub cells: usize,
    pub faces: usize,
}

// Six numbers a cell, two a face.
#[tactic(auto, using(crate::proofs::Counts::triangles_or_none))]
fn count_triangles(cells: &[u16]) -> Option<Sizes>
    ensures { result ≡ counted triangles cells.now }
{
    let sizes = Sizes {
        cells: cells.len() / 6,
        faces: cells.len() / 2,
    };
    (cells.len() % 6 == 0).then_some(sizes)
}

// The cells and faces of a list of m numbers of kind 12, where `number` tells number i. Each cell begins with its corner count, which says where the next
// one begins, so the loop goes from cell to cell and counts no place by hand.
pub fn count_polygons<F: Fn(usize) -> u16>(m: usize, number: F) -> Option<Sizes>
    requires m_bound { m < 2 ^ 63 }
    requires callable { (i : ℕ) → i < m → F.pre number i }
    ensures { (ts : List ℕ) → length ts ≡ m → Tells (F.post number) ts → result ≡ counted polygons ts }
{
    let mut at = 0;
    let mut cells = 0;
    let mut faces = 0;
    while at < m {
        let sides = number(at);
        if sides < Plan::LEAST_SIDES || Plan::MOST_SIDES < sides {
            return None;
        }
        let n = sides as usize;
        let last = at + 2 * n;
        if m <= last {
            return None;
        }
        at = last + 1;
        cells += 1;
        faces += n;
    }
    Some(Sizes { cells, faces })
}

// Cuts a list of cells of the kind told into its cells: how many, and how many faces they have.
#[tactic(auto, using(crate::proofs::Counts::other_kind_counted))]
pub fn count(kind: u16, cells: &[u16]) -> Option<Sizes>
    ensures { result ≡ counted kind cells.now }
{
    match kind {
        Plan::TRIANGLES => count_triangles(cells),
        Plan::POLYGONS => count_polygons(cells.len(), |i| cells[i]),
        _ => None,
    }
}

// Draws the faces of one cell, the first of them face f: of each side the corner at which it starts, and the neighbour across it.
fn draw_cell(corners: &[u16], neighbours: &[u16], faces: &mut [u16], f: usize)
    requires as_many { length neighbours.now ≡ length corners.now }
    requires room { 2 * (f + length corners.now) ≤ length faces.old }
    ensures { faces.new ≡ sets faces.old (2 * f) (pairs corners.now neighbours.now) }
{
    for (i, corner) in corners.iter().enumerate() {
        let to = 2 * (f + i);
        faces[to] = *corner;
        faces[to + 1] = neighbours[i];
    }
}

// The tables of cells of three corners. They are drawn before every call: where the corner count is a constant, the loop over a cell's sides is unrolled.
fn draw_triangles(cells: &[u16], faces: &mut [u16], firsts: &mut [u16])
    requires cut_whole { is_whole (cut triangles cells.now) ≡ true }
    requires faces_len { length faces.old ≡ 2 * face_count (cells_of triangles cells.now) }
    requires firsts_len { length firsts.old ≡ suc (cell_count (cells_of triangles cells.now)) }
    requires faces_bound { face_count (cells_of triangles cells.now) < 2 ^ 16 }
    ensures faces_after { faces.new ≡ (cells_of triangles cells.now).faces }
    ensures firsts_after { firsts.new ≡ (cells_of triangles cells.now).firsts }
{
    firsts[0] = 0;
    for (c, cell) in cells.chunks_exact(6).enumerate() {
        let (corners, neighbours) = cell.split_at(3);
        draw_cell(corners, neighbours, faces, 3 * c);
        firsts[c + 1] = (3 * (c + 1)) as u16;
    }
}

// The tables of cells of any number of corners.
fn draw_polygons(cells: &[u16], faces: &mut [u16], firsts: &mut [u16])
    requires cut_whole { is_whole (cut polygons cells.now) ≡ true }
    requires faces_len { length faces.old ≡ 2 * face_count (cells_of polygons cells.now) }
    requires firsts_len { length firsts.old ≡ suc (cell_count (cells_of polygons cells.now)) }
    requires faces_bound { face_count (cells_of polygons cells.now) < 2 ^ 16 }
    ensures faces_after { faces.new ≡ (cells_of polygons cells.now).faces }
    ensures firsts_after { firsts.new ≡ (cells_of polygons cells.now).firsts }
{
    firsts[0] = 0;
    let mut rest = cells;
    let mut c = 0;
    let mut first = 0;
    while let Some((sides, behind)) = rest.split_first() {
        let n = *sides as usize;
        let (corners, behind) = behind.split_at(n);
        let (neighbours, behind) = behind.split_at(n);
        draw_cell(corners, neighbours, faces, first);
        rest = behind;
        c += 1;
        first += n;
        firsts[c] = first as u16;
    }
}

// Draws the tables of a list that is cut into whole cells.
pub fn draw(kind: u16, cells: &[u16], faces: &mut [u16], firsts: &mut [u16])
    requires cut_whole { is_whole (cut kind cells.now) ≡ true }
    requires faces_len { length faces.old ≡ 2 * face_count (cells_of kind cells.now) }
    requires firsts_len { length firsts.old ≡ suc (cell_count (cells_of kind cells.now)) }
    requires faces_bound { face_count (cells_of kind cells.now) < 2 ^ 16 }
    ensures faces_after { faces.new ≡ (cells_of kind cells.now).faces }
    ensures firsts_after { firsts.new ≡ (cells_of kind cells.now).firsts }
{
    if kind == Plan::TRIANGLES {
        draw_triangles(cells, faces, firsts);
    } else {
        draw_polygons(cells, faces, firsts);
    }
}
