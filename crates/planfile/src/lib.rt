// Plan files: the writer and the reader (document 01, "The plan file"; document 02, A14).
#![tactic(auto)]

ghost use Rattle.std.specs.Prelude.{true, ◌≡◌, ◌+◌, ◌*◌, ◌≤◌, length};
ghost use Rattle.limits.specs.Limits.{most_corners, most_cells, most_doors};
ghost use Rattle.records.specs.Bytes.{numbers_at};
ghost use Rattle.records.specs.Record.{framed};
ghost use Rattle.draw.specs.Counted.{counted};
ghost use Rattle.planfile.specs.File.{cells_in, kind_in};
ghost use Rattle.planfile.specs.Calls.{written, lists_checked, lists_left, told as Calls·told, read as Calls·read};

use draw::Sizes;
use limits::{Plan, Refusal};
use records::{bytes, list, record};

// The counts of the plan that was read, the kind of its list of cells, and how many numbers that list has.
#[derive(Clone, Copy)]
pub struct ReadPlan {
    pub counts: Plan,
    pub kind: u16,
    pub numbers: usize,
}

// Writes the one file of three lists, the cells in a list of the kind told.
pub fn write(
    corners: &[i32],
    cells: &[u16],
    doors: &[u16],
    kind: u16,
    file: &mut [u8],
) -> Result<Plan, Refusal>
    ensures { (result, file.new) ≡ written kind corners.now cells.now doors.now file.old }
{
    let plan = checking::check(corners, cells, doors, kind)?;
    let second = 6 + 4 * corners.len();
    let third = second + 6 + 2 * cells.len();
    let end = third + 6 + 2 * doors.len();
    if file.len() < end {
        return Err(Refusal::Room);
    }
    record::put_corners(file, corners);
    record::put_numbers(file, second, kind as usize, cells);
    record::put_numbers(file, third, 3, doors);
    Ok(plan)
}

// The cells and faces of a framed file's list of cells, which is of this kind and has m numbers, from `at` on. It may be longer than any list that is
// accepted, so it is counted where it stands.
fn count(file: &[u8], at: usize, m: usize, kind: u16) -> Option<Sizes>
    requires file_value { framed file.now ≡ true }
    requires m_in_bounds { at + 2 * m ≤ length file.now }
    requires kind_value { kind ≡ kind_in file.now }
    requires m_value { numbers_at 2 file.now at m ≡ cells_in file.now }
    ensures { result ≡ counted kind (cells_in file.now) }
{
    if kind == Plan::TRIANGLES {
        return Some(Sizes {
            cells: m / 6,
            faces: m / 2,
        });
    }
    draw::count_polygons(m, |i| bytes::two(file, at + 2 * i))
}

// Checks three lists, the cells in a list of the kind told, and hands them over, where each has room in the list that is lent for it.
fn hand_over(
    cs: &[i32],
    ts: &[u16],
    ds: &[u16],
    kind: u16,
    corners: &mut [i32],
    cells: &mut [u16],
    doors: &mut [u16],
) -> Result<Plan, Refusal>
    ensures value { result ≡ lists_checked kind cs.now ts.now ds.now (length corners.old) (length cells.old) (length doors.old) }
    ensures doors_after { (corners.new, (cells.new, doors.new)) ≡ lists_left result cs.now ts.now ds.now corners.old cells.old doors.old }
{
    let plan = checking::check(cs, ts, ds, kind)?;
    if corners.len() < cs.len() {
        return Err(Refusal::Room);
    }
    if cells.len() < ts.len() {
        return Err(Refusal::Room);
    }
    if doors.len() < ds.len() {
        return Err(Refusal::Room);
    }
    corners[..cs.len()].copy_from_slice(cs);
    cells[..ts.len()].copy_from_slice(ts);
    doors[..ds.len()].copy_from_slice(ds);
    Ok(plan)
}

// Reads a framed file: its cells are counted, its lists are decoded into lists of their own, checked, and then handed over.
fn read_framed(
    file: &[u8],
    cs: &mut [i32],
    ts: &mut [u16],
    ds: &mut [u16],
    corners: &mut [i32],
    cells: &mut [u16],
    doors: &mut [u16],
) -> Result<ReadPlan, Refusal>
    requires file_value { framed file.now ≡ true }
    requires most_corners_in_bounds { 2 * most_corners ≤ length cs.old }
    requires most_cells_in_bounds { 17 * most_cells ≤ length ts.old }
    requires most_doors_in_bounds { most_doors ≤ length ds.old }
    ensures { (result, (corners.new, (cells.new, doors.new))) ≡ Calls·read file.now corners.old cells.old doors.old }
{
    let second = record::end(file, 0);
    let third = record::end(file, second);
    let kind = record::kind(file, second);
    let n = (second - 6) / 4;
    let m = (third - second - 6) / 2;
    let k = (file.len() - third - 6) / 2;
    let sizes = count(file, second + 6, m, kind).ok_or(Refusal::Frame)?;
    let told = Plan {
        corners: n / 2,
        cells: sizes.cells,
        doors: k,
    };
    if !told.is_sized() {
        return Err(Refusal::Size);
    }
    list::get_corners(file, 6, &mut cs[..n]);
    list::get_numbers(file, second + 6, &mut ts[..m]);
    list::get_numbers(file, third + 6, &mut ds[..k]);
    let counts = hand_over(&cs[..n], &ts[..m], &ds[..k], kind, corners, cells, doors)?;
    Ok(ReadPlan {
        counts,
        kind,
        numbers: m,
    })
}

// Reads the three lists of a file.
pub fn read(
    file: &[u8],
    corners: &mut [i32],
    cells: &mut [u16],
    doors: &mut [u16],
) -> Result<ReadPlan, Refusal>
    ensures { (result, (corners.new, (cells.new, doors.new))) ≡ Calls·read file.now corners.old cells.old doors.old }
{
    if !record::is_framed(file) {
        return Err(Refusal::Frame);
    }
    // a cell of 8 corners is 17 numbers: its corner count, its corners and its neighbours
    let mut cs = [0i32; 2 * Plan::MOST_CORNERS];
    let mut ts = [0u16; 17 * Plan::MOST_CELLS];
    let mut ds = [0u16; Plan::MOST_DOORS];
    read_framed(file, &mut cs, &mut ts, &mut ds, corners, cells, doors)
}
