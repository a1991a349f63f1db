// The public calls for C and Rust: each slice passes as a pointer and a length, each reply is seven numbers (document 01, "Reply numbers"):
// number, place, and up to five values. A reply with room for fewer is left alone, and so is all other lent memory.
// include/manopluea.h has the promise of each function in words, specs/Reply.antt what each leaves as a function of the input.
// C has no enums with values and keeps its names: a reach or a ceiling is a flag with a number, and each call with a stand is two, for a point and for an offset.
#![tactic(auto)]

ghost use Rattle.std.specs.Prelude.{◌≡◌};
ghost use Rattle.std.specs.Bool.{then_some};
ghost use Rattle.stand.specs.declared.spot.Stand.TheVariants.{Point, Offset};
ghost use Rattle.exports.specs.Reply.{query, check_left, read_left, write_left, find_left, list_left, draw_left, change_left, list_stands_left, print_left};

use manopluea::{Counts, Listing, Morning, Query, Refusal, Stand, Terms};

mod reply;

// The plan check; the values are the counts of corners, cells and doors.
#[unsafe(no_mangle)]
pub extern "C" fn manopluea_check(
    corners: &[i32],
    cells: &[u16],
    doors: &[u16],
    kind: u16,
    reply: &mut [u64],
)
    ensures { reply.new ≡ check_left kind corners.now cells.now doors.now reply.old }
{
    if reply.len() < 7 {
        return;
    }
    let answer = manopluea::check(corners, cells, doors, Terms { kind });
    reply::put(reply, answer);
}

// Reads the three lists of a plan file; the values are the counts, the kind of the list of cells and how many numbers it has.
#[unsafe(no_mangle)]
pub extern "C" fn manopluea_read(
    file: &[u8],
    corners: &mut [i32],
    cells: &mut [u16],
    doors: &mut [u16],
    reply: &mut [u64],
)
    ensures { ((corners.new, (cells.new, doors.new)), reply.new) ≡ read_left file.now corners.old cells.old doors.old reply.old }
{
    if reply.len() < 7 {
        return;
    }
    let answer = manopluea::read(file, corners, cells, doors);
    reply::put(reply, answer);
}

// Writes the one file of three lists; the values are the counts.
#[unsafe(no_mangle)]
pub extern "C" fn manopluea_write(
    corners: &[i32],
    cells: &[u16],
    doors: &[u16],
    kind: u16,
    file: &mut [u8],
    reply: &mut [u64],
)
    ensures { (file.new, reply.new) ≡ write_left kind corners.now cells.now doors.now file.old reply.old }
{
    if reply.len() < 7 {
        return;
    }
    let answer = manopluea::write(corners, cells, doors, Terms { kind }, file);
    reply::put(reply, answer);
}

// Where a stand is that is a point; the values are the cell, whether it is strictly within a side, and that side.
#[unsafe(no_mangle)]
pub extern "C" fn manopluea_find_point(
    corners: &[i32],
    cells: &[u16],
    doors: &[u16],
    kind: u16,
    setting: u64,
    x: f64,
    y: f64,
    reply: &mut [u64],
)
    ensures { reply.new ≡ find_left kind corners.now cells.now doors.now setting (Point x y) reply.old }
{
    if reply.len() < 7 {
        return;
    }
    let answer = manopluea::find(
        corners,
        cells,
        doors,
        Terms { kind },
        setting,
        Stand::Point(x, y),
    );
    reply::put(reply, answer);
}

// Where a stand is that is an offset from a corner; the values are the cell, whether it is strictly within a side, and that side.
#[unsafe(no_mangle)]
pub extern "C" fn manopluea_find_offset(
    corners: &[i32],
    cells: &[u16],
    doors: &[u16],
    kind: u16,
    setting: u64,
    corner: u16,
    dx: f64,
    dy: f64,
    reply: &mut [u64],
)
    ensures { reply.new ≡ find_left kind corners.now cells.now doors.now setting (Offset corner dx dy) reply.old }
{
    if reply.len() < 7 {
        return;
    }
    let answer = manopluea::find(
        corners,
        cells,
        doors,
        Terms { kind },
        setting,
        Stand::Offset(corner, dx, dy),
    );
    reply::put(reply, answer);
}

// A query for a caller that has no enums: whether a reach is stated, and which; where none is, the number means nothing.
fn query_of(setting: u64, stand: Stand, stated: bool, reach: u64) -> Query
    ensures { result ≡ query setting stand stated reach }
{
    Query {
        setting,
        stand,
        reach: stated.then_some(reach),
    }
}

// A listing's query with its ceiling, which is told likewise.
fn listing_of(query: Query, limited: bool, ceiling: u64) -> Listing
    ensures query { result.query ≡ query }
    ensures ceiling { result.ceiling ≡ then_some limited ceiling }
{
    Listing {
        query,
        ceiling: limited.then_some(ceiling),
    }
}

// The listing from a point; the values are row count and crossings.
#[unsafe(no_mangle)]
pub extern "C" fn manopluea_list_point(
    corners: &[i32],
    cells: &[u16],
    doors: &[u16],
    kind: u16,
    setting: u64,
    x: f64,
    y: f64,
    stated: bool,
    reach: u64,
    limited: bool,
    ceiling: u64,
    table: &mut [u16],
    reply: &mut [u64],
)
    ensures { (table.new, reply.new) ≡ list_left kind corners.now cells.now doors.now setting (Point x y) stated reach limited ceiling table.old reply.old }
{
    if reply.len() < 7 {
        return;
    }
    let answer = manopluea::list(
        corners,
        cells,
        doors,
        Terms { kind },
        listing_of(
            query_of(setting, Stand::Point(x, y), stated, reach),
            limited,
            ceiling,
        ),
        table,
    );
    reply::put(reply, answer);
}

// The listing from an offset; the values are row count and crossings.
#[unsafe(no_mangle)]
pub extern "C" fn manopluea_list_offset(
    corners: &[i32],
    cells: &[u16],
    doors: &[u16],
    kind: u16,
    setting: u64,
    corner: u16,
    dx: f64,
    dy: f64,
    stated: bool,
    reach: u64,
    limited: bool,
    ceiling: u64,
    table: &mut [u16],
    reply: &mut [u64],
)
    ensures { (table.new, reply.new) ≡ list_left kind corners.now cells.now doors.now setting (Offset corner dx dy) stated reach limited ceiling table.old reply.old }
{
    if reply.len() < 7 {
        return;
    }
    let answer = manopluea::list(
        corners,
        cells,
        doors,
        Terms { kind },
        listing_of(
            query_of(setting, Stand::Offset(corner, dx, dy), stated, reach),
            limited,
            ceiling,
        ),
        table,
    );
    reply::put(reply, answer);
}

// The drawing from a point; the values are row count and crossings.
#[unsafe(no_mangle)]
pub extern "C" fn manopluea_draw_point(
    corners: &[i32],
    cells: &[u16],
    doors: &[u16],
    kind: u16,
    setting: u64,
    x: f64,
    y: f64,
    stated: bool,
    reach: u64,
    offsets: &mut [f32],
    reply: &mut [u64],
)
    ensures { (offsets.new, reply.new) ≡ draw_left kind corners.now cells.now doors.now setting (Point x y) stated reach offsets.old reply.old }
{
    if reply.len() < 7 {
        return;
    }
    let answer = manopluea::draw(
        corners,
        cells,
        doors,
        Terms { kind },
        query_of(setting, Stand::Point(x, y), stated, reach),
        offsets,
    );
    reply::put(reply, answer);
}

// The drawing from an offset; the values are row count and crossings.
#[unsafe(no_mangle)]
pub extern "C" fn manopluea_draw_offset(
    corners: &[i32],
    cells: &[u16],
    doors: &[u16],
    kind: u16,
    setting: u64,
    corner: u16,
    dx: f64,
    dy: f64,
    stated: bool,
    reach: u64,
    offsets: &mut [f32],
    reply: &mut [u64],
)
    ensures { (offsets.new, reply.new) ≡ draw_left kind corners.now cells.now doors.now setting (Offset corner dx dy) stated reach offsets.old reply.old }
{
    if reply.len() < 7 {
        return;
    }
    let answer = manopluea::draw(
        corners,
        cells,
        doors,
        Terms { kind },
        query_of(setting, Stand::Offset(corner, dx, dy), stated, reach),
        offsets,
    );
    reply::put(reply, answer);
}

// The door change from a point: the given list, the door and its wished state; the values are row count and crossings.
#[unsafe(no_mangle)]
pub extern "C" fn manopluea_change_point(
    corners: &[i32],
    cells: &[u16],
    doors: &[u16],
    kind: u16,
    setting: u64,
    x: f64,
    y: f64,
    stated: bool,
    reach: u64,
    given: &[u16],
    door: usize,
    shut: bool,
    table: &mut [u16],
    reply: &mut [u64],
)
    ensures { (table.new, reply.new) ≡ change_left kind corners.now cells.now doors.now setting (Point x y) stated reach given.now door shut table.old reply.old }
{
    if reply.len() < 7 {
        return;
    }
    let answer = manopluea::change(
        corners,
        cells,
        doors,
        Terms { kind },
        query_of(setting, Stand::Point(x, y), stated, reach),
        given,
        door,
        shut,
        table,
    );
    reply::put(reply, answer);
}

// The door change from an offset.
#[unsafe(no_mangle)]
pub extern "C" fn manopluea_change_offset(
    corners: &[i32],
    cells: &[u16],
    doors: &[u16],
    kind: u16,
    setting: u64,
    corner: u16,
    dx: f64,
    dy: f64,
    stated: bool,
    reach: u64,
    given: &[u16],
    door: usize,
    shut: bool,
    table: &mut [u16],
    reply: &mut [u64],
)
    ensures { (table.new, reply.new) ≡ change_left kind corners.now cells.now doors.now setting (Offset corner dx dy) stated reach given.now door shut table.old reply.old }
{
    if reply.len() < 7 {
        return;
    }
    let answer = manopluea::change(
        corners,
        cells,
        doors,
        Terms { kind },
        query_of(setting, Stand::Offset(corner, dx, dy), stated, reach),
        given,
        door,
        shut,
        table,
    );
    reply::put(reply, answer);
}

// A morning's stands together, three numbers a stand: corner, x, y, where the corner -1 makes a point; the values are the sums of rows and crossings.
#[unsafe(no_mangle)]
pub extern "C" fn manopluea_list_stands(
    corners: &[i32],
    cells: &[u16],
    doors: &[u16],
    kind: u16,
    setting: u64,
    stands: &[f64],
    stated: bool,
    reach: u64,
    limited: bool,
    ceiling: u64,
    table: &mut [u16],
    replies: &mut [u64],
    reply: &mut [u64],
)
    ensures { ((table.new, replies.new), reply.new) ≡ list_stands_left kind corners.now cells.now doors.now setting stands.now stated reach limited ceiling table.old replies.old reply.old }
{
    if reply.len() < 7 {
        return;
    }
    if stands.len() % 3 != 0 {
        reply::put::<Counts>(reply, Err(Refusal::Frame));
        return;
    }
    let count = stands.len() / 3;
    let given = stands::stands_of(stands);
    let reach = stated.then_some(reach);
    let ceiling = limited.then_some(ceiling);
    let answer = manopluea::list_stands(
        corners,
        cells,
        doors,
        Terms { kind },
        Morning {
            setting,
            count,
            reach,
            ceiling,
        },
        given,
        table,
        replies,
    );
    reply::put(reply, answer);
}

// What the printing program prints for an input; the value is how many bytes of the text it is.
#[unsafe(no_mangle)]
pub extern "C" fn manopluea_print(input: &[u8], text: &mut [u8], reply: &mut [u64])
    ensures { (text.new, reply.new) ≡ print_left input.now text.old reply.old }
{
    if reply.len() < 7 {
        return;
    }
    let answer = printing::print(input, text);
    reply::put(reply, answer);
}
