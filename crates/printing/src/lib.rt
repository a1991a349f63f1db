// The printing program's answer (document 01, "Printing program"): a query record, then a plan; the lines are written into a lent text.
#![tactic(auto)]

ghost use Rattle.std.specs.Prelude.{true, ◌≡◌, ◌*◌, ◌≤◌, length};
ghost use Rattle.limits.specs.Limits.{most_corners, most_cells, most_doors};
ghost use Rattle.printing.specs.Print.{most_text, begins as Print·begins, file_listed, lines, blank_table, printed, answered, Within};
ghost use Rattle.printing.specs.Reply.{printed_reply, print_replies};
ghost use Rattle.text.specs.Wrote.{Wrote};

use manopluea::{Counts, Listing, Plan, Query, Refusal, Stand, Terms};
use records::{bits, bytes};

// Longer input is refused before all else.
pub const MOST_INPUT: usize = 65536;

// A text of so many bytes has room for every answer.
pub const MOST_TEXT: usize = 64 + 24 * Plan::MOST_CORNERS;

// Does the input begin with a record of this kind, with a body of so many bytes?
#[tactic(auto, unfolding(crate::specs::Print::begins))]
fn begins(input: &[u8], kind: u16, size: usize) -> bool
    requires { size ≤ 26 }
    ensures { result ≡ Print·begins input.now kind size }
{
    6 + size <= input.len()
        && bytes::four(input, 0) as usize == size
        && bytes::two(input, 4) == kind
}

// Lists a plan file by way of three lists that have room for the largest plan.
fn list_read(
    file: &[u8],
    corners: &mut [i32],
    cells: &mut [u16],
    doors: &mut [u16],
    setting: u64,
    stand: Stand,
    table: &mut [u16],
) -> Result<Counts, Refusal>
    requires { (2 * most_corners ≤ length corners.old) × ((17 * most_cells ≤ length cells.old) × (most_doors ≤ length doors.old)) }
    ensures { (result, table.new) ≡ file_listed file.now setting stand table.old }
{
    let plan = manopluea::read(file, corners, cells, doors)?;
    manopluea::list(
        &corners[..2 * plan.counts.corners],
        &cells[..plan.numbers],
        &doors[..plan.counts.doors],
        Terms { kind: plan.kind },
        Listing {
            query: Query {
                setting,
                stand,
                reach: None,
            },
            ceiling: None,
        },
        table,
    )
}

// Lists a plan file.
fn list_file(file: &[u8], setting: u64, stand: Stand, table: &mut [u16]) -> Result<Counts, Refusal>
    ensures { (result, table.new) ≡ file_listed file.now setting stand table.old }
{
    let mut corners = [0i32; 2 * Plan::MOST_CORNERS];
    let mut cells = [0u16; 17 * Plan::MOST_CELLS];
    let mut doors = [0u16; Plan::MOST_DOORS];
    list_read(
        file,
        &mut corners,
        &mut cells,
        &mut doors,
        setting,
        stand,
        table,
    )
}

// The lines of a plan file's listing.
fn print_file(file: &[u8], setting: u64, stand: Stand, text: &mut [u8]) -> usize
    requires { most_text ≤ length text.old }
    ensures { Wrote text.old 0 (lines (file_listed file.now setting stand blank_table)) text.new result }
{
    let mut table = [0u16; 4 * Plan::MOST_CORNERS];
    match list_file(file, setting, stand, &mut table) {
        Err(r) => text::put_refusal(text, r),
        Ok(counts) => text::put_listing(text, &table, counts.rows, counts.crossings),
    }
}

// The lines of an input.
fn print_input(input: &[u8], text: &mut [u8]) -> usize
    requires { most_text ≤ length text.old }
    ensures { Wrote text.old 0 (printed input.now) text.new result }
{
    if MOST_INPUT < input.len() {
        return text::put_refusal(text, Refusal::Size);
    }
    if begins(input, 4, 24) {
        let stand = Stand::Point(bits::f64_at(input, 14), bits::f64_at(input, 22));
        return print_file(&input[30..], bits::u64_at(input, 6), stand, text);
    }
    if begins(input, 5, 26) {
        let corner = bytes::two(input, 14);
        let stand = Stand::Offset(corner, bits::f64_at(input, 16), bits::f64_at(input, 24));
        return print_file(&input[32..], bits::u64_at(input, 6), stand, text);
    }
    text::put_refusal(text, Refusal::Frame)
}

// Bytes in, bytes out: what is printed for this input; how many bytes its lines take, or ROOM where the text could not hold every answer.
pub fn print(input: &[u8], text: &mut [u8]) -> Result<usize, Refusal>
    ensures answer { (result, text.new) ≡ answered input.now text.old }
    ensures numbers { (printed_reply result, text.new) ≡ print_replies input.now text.old }
    ensures within { Within result (length text.new) }
{
    if text.len() < MOST_TEXT {
        return Err(Refusal::Room);
    }
    let end = print_input(input, text);
    Ok(end)
}
