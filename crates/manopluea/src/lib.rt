// Manopluea: the public calls, and all that a client needs to read (documents 01 and 02).
//
// A plan is three lists of whole numbers: corners x, y, x, y, .. in millimetres; cells; doors, a face number each. The list of cells is of kind 2, cells of
// three corner numbers and three neighbours (65535 is wall), or of kind 12, in which each cell of 3 to 8 corners has its corner count before it (document
// 02, A14): the caller says which. Faces are numbered in the order of the list: the sides of the first cell, then those of the second, and so on; for
// kind 2 that is 3·cell + side. In a door setting bit i is one while door i is shut. What is asked of a plan comes in one struct, `Query`: door setting, stand
// and reach, which is stated or not; `Listing` adds a ceiling of crossings, and `Morning` has what several stands share.
//
// Every call takes every input and has no `requires`. Its promise is one equation, said twice: the answer, with what stands in the lent memory at exit,
// is a definition of the input and of what stood there at entry; and so are the paper's reply number, place and values (`checked_reply`,
// `found_reply`, `listed_reply` give them for each case of an answer). Where a call is refused, every lent table, list and file keeps its contents; on
// 0, what lies beyond what was written does. The lowest number that applies is the reply, where REACH goes after STAND and before LINE. docs/PROMISES.md says
// what determines each part, docs/THEOREMS.md what is proved of the definitions, the three demands first (proofs/Demands.antt).
#![tactic(auto)]

ghost use Rattle.std.specs.Prelude.{◌≡◌};
ghost use Rattle.cells.specs.Check.{checked};
ghost use Rattle.planfile.specs.Calls.{written, read as Calls·read};
ghost use Rattle.stand.specs.Find.{found};
ghost use Rattle.sight.specs.Ceiling.{listed_up_to};
ghost use Rattle.tablet.specs.Drawing.{drawn};
ghost use Rattle.doors.specs.Change.{changed};
ghost use Rattle.morning.specs.Morning.{listed_stands};
ghost use Rattle.limits.specs.Reply.{checked_reply};
ghost use Rattle.planfile.specs.Reply.{read_numbers};
ghost use Rattle.stand.specs.Reply.{found_reply};
ghost use Rattle.sight.specs.Reply.{listed_reply};
ghost use Rattle.manopluea.specs.Calls.{check_replies, read_replies, write_replies, find_replies, list_replies, draw_replies, change_replies, list_stands_replies};

pub use limits::{Plan, Refusal};
pub use morning::Morning;
pub use planfile::ReadPlan;
pub use sight::list::Counts;
pub use sight::view::Query;
pub use stand::locate::Footing;
pub use stand::spot::Stand;

// What a call is told of its lists: which kind the list of cells is in, 2 or 12; every other number is FRAME. (A number and no enum, here and below: C passes
// it, each of its values is answered, and the definitions of the calls are of it, so that every clause would turn an enum back into it.)
#[derive(Clone, Copy)]
pub struct Terms {
    pub kind: u16,
}

// What the listing is asked: a query, and a ceiling of crossings, which is stated or not.
#[derive(Clone, Copy)]
pub struct Listing {
    pub query: Query,
    pub ceiling: Option<u64>,
}

// The plan check. Accepted with the counts of corners, cells and doors; else FRAME, SIZE, CORNER, CELL, NEIGHBOUR or DOOR, the lowest number that applies,
// at its least place; and after them OVERLAP, where some point, whole or fractional, is strictly inside two cells, at the least cell of any such pair
// (document 02, A7).
pub fn check(corners: &[i32], cells: &[u16], doors: &[u16], terms: Terms) -> Result<Plan, Refusal>
    ensures answer { result ≡ checked terms.kind corners.now cells.now doors.now }
    ensures numbers { checked_reply result ≡ check_replies terms.kind corners.now cells.now doors.now }
{
    let kind = terms.kind;
    checking::check(corners, cells, doors, kind)
}

// The reader: the three lists of a plan file go into the lent lists, from their beginning. Accepted with the counts, which kind the list of cells is in,
// and how many numbers that list has; else 1 to 6 and 17 as the check has them, or ROOM where any list is shorter than its numbers.
pub fn read(
    file: &[u8],
    corners: &mut [i32],
    cells: &mut [u16],
    doors: &mut [u16],
) -> Result<ReadPlan, Refusal>
    ensures answer { (result, (corners.new, (cells.new, doors.new))) ≡ Calls·read file.now corners.old cells.old doors.old }
    ensures numbers { (read_numbers result, (corners.new, (cells.new, doors.new))) ≡ read_replies file.now corners.old cells.old doors.old }
{
    planfile::read(file, corners, cells, doors)
}

// The writer: the one file of three lists, its cells in a record of the kind told, goes into the lent bytes, from their beginning. Accepted with the
// counts; else 1 to 6 and 17 as the check has them, or ROOM where the bytes are shorter than the file. Reading what was written returns the lists and their
// kind, writing what was read the same bytes.
pub fn write(
    corners: &[i32],
    cells: &[u16],
    doors: &[u16],
    terms: Terms,
    file: &mut [u8],
) -> Result<Plan, Refusal>
    ensures answer { (result, file.new) ≡ written terms.kind corners.now cells.now doors.now file.old }
    ensures numbers { (checked_reply result, file.new) ≡ write_replies terms.kind corners.now cells.now doors.now file.old }
{
    let kind = terms.kind;
    planfile::write(corners, cells, doors, kind, file)
}

// Where the stand is under a door setting: strictly inside a cell, the least-numbered, which is the only one; else strictly within a side that is free under
// the setting, of the least-numbered cell, its least side (document 02, A4). Else 1 to 6 and 17 as the check has them, SETTING, STAND where a number or
// corner is not accepted, LINE where the stand is on some cell's border, OUTSIDE where it is inside or on no cell.
pub fn find(
    corners: &[i32],
    cells: &[u16],
    doors: &[u16],
    terms: Terms,
    setting: u64,
    stand: Stand,
) -> Result<Footing, Refusal>
    ensures answer { result ≡ found terms.kind corners.now cells.now doors.now setting stand }
    ensures numbers { found_reply result ≡ find_replies terms.kind corners.now cells.now doors.now setting stand }
{
    let kind = terms.kind;
    find::find(corners, cells, doors, kind, setting, stand)
}

// The listing: the walls seen from a stand under a door setting, four numbers a row (face on the side seen, right limit, left limit, and 0 in reach or 1
// out of reach), in the order of the expansion. From a stand strictly within a free side, its cell's other sides are expanded in order after it, then the
// neighbour's; the line that it stands on is not crossed. Where a reach is stated, a free line out of reach is not crossed and gives a row too (document
// 02, A5): a line is in reach when some point of the whole of it is, seen or not. Replies row count and crossings; else 1 to 6 and 17 as the check has them,
// SETTING, STAND, REACH for a stated number that is not 1 to 262,144, LINE, OUTSIDE, ROOM for a table below 4·corners numbers, or CEILING where the crossings
// exceed the ceiling that is stated (document 02, A13); the work stops when it is passed.
pub fn list(
    corners: &[i32],
    cells: &[u16],
    doors: &[u16],
    terms: Terms,
    listing: Listing,
    table: &mut [u16],
) -> Result<Counts, Refusal>
    ensures answer { (result, table.new) ≡ listed_up_to terms.kind corners.now cells.now doors.now listing.query listing.ceiling table.old }
    ensures numbers { (listed_reply result, table.new) ≡ list_replies terms.kind corners.now cells.now doors.now listing.query listing.ceiling table.old }
{
    let kind = terms.kind;
    let query = listing.query;
    let ceiling = listing.ceiling;
    sight::list::list(corners, cells, doors, kind, query, ceiling, table)
}

// The drawing (document 02, A2): the listing's counts, and into a lent list of single-precision numbers four a row, row by row in the listing's order,
// repeats included: x and y of the right limit's offset from the stand, then of the left limit's. Each is exactly the whole-millimetre difference, zero plus
// zero. Refuses as the listing does without a ceiling, with ROOM for a list below 4·corners numbers; then FAR, where some corner that a row names is more
// than 16,777,216 mm from the stand in either axis, also where that difference would fit.
pub fn draw(
    corners: &[i32],
    cells: &[u16],
    doors: &[u16],
    terms: Terms,
    query: Query,
    offsets: &mut [f32],
) -> Result<Counts, Refusal>
    ensures answer { (result, offsets.new) ≡ drawn terms.kind corners.now cells.now doors.now query offsets.old }
    ensures numbers { (listed_reply result, offsets.new) ≡ draw_replies terms.kind corners.now cells.now doors.now query offsets.old }
{
    let kind = terms.kind;
    tablet::drawing::draw(corners, cells, doors, kind, query, offsets)
}

// The door change: from the true list under the old setting, the list and crossings with one door shut or opened, within the same reach. A door out of reach
// keeps its row, shut or open. Refuses as the listing does, with LINE also, for a stand on a side, where the door's line holds it strictly within; then
// CHANGE where there is no such door or it is already in that state, and ROWS where the given list is not the true one.
pub fn change(
    corners: &[i32],
    cells: &[u16],
    doors: &[u16],
    terms: Terms,
    query: Query,
    given: &[u16],
    door: usize,
    shut: bool,
    table: &mut [u16],
) -> Result<Counts, Refusal>
    ensures answer { (result, table.new) ≡ changed terms.kind corners.now cells.now doors.now query given.now door shut table.old }
    ensures numbers { (listed_reply result, table.new) ≡ change_replies terms.kind corners.now cells.now doors.now query given.now door shut table.old }
{
    let kind = terms.kind;
    doors::change(corners, cells, doors, kind, query, given, door, shut, table)
}

// A morning's stands together: as many of the stands as are asked for, listed one after another in the order given, as `list` lists each of them with the one
// setting, the one reach and the one ceiling, which each stand has for itself. The rows stand one behind the other from the beginning of the table, and three
// numbers a stand (reply number, row count, crossings) from that of the replies; a refused stand has counts 0, writes no row and stops no other. Replies the
// sums of rows and crossings. Else 1 to 6 and 17 (SIZE also for more than 32 stands), SETTING, or ROOM for a table below 4·corners·stands numbers or fewer
// than 3·stands places for the replies, before any stand is looked at.
pub fn list_stands(
    corners: &[i32],
    cells: &[u16],
    doors: &[u16],
    terms: Terms,
    morning: Morning,
    stands: [Stand; Plan::MOST_STANDS],
    table: &mut [u16],
    replies: &mut [u64],
) -> Result<Counts, Refusal>
    ensures answer { (result, (table.new, replies.new)) ≡ listed_stands terms.kind corners.now cells.now doors.now morning stands table.old replies.old }
    ensures numbers { (listed_reply result, (table.new, replies.new)) ≡ list_stands_replies terms.kind corners.now cells.now doors.now morning stands table.old replies.old }
{
    let kind = terms.kind;
    morning::list_stands(corners, cells, doors, kind, morning, stands, table, replies)
}
