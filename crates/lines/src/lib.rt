// The table of lines: four numbers a face. The corner at which the face ends; the face on its other side, or wall where sight ends; how many sides of its
// cell follow the next one before it comes round again; and the next side of its cell.
#![tactic(auto)]

ghost use Rattle.std.specs.Prelude.{suc, ◌+◌, ◌*◌, ◌<◌, ◌≤◌, [], ◌≡◌, length};
ghost use Rattle.limits.specs.Limits.{most_cells, most_sides, wall};
ghost use Rattle.cells.specs.Lists.{cell_count, face_count, first, neighbour, back};
ghost use Rattle.cells.specs.Backed.{Backed};
ghost use Rattle.face.specs.Tables.{around, tables};
ghost use Rattle.lines.specs.Lined.{SoundCells, across as Lined·across, Drawn, Lined, with_face, shut_line};

use face::Cells;
use limits::Plan;

// What the table has of a face.
#[derive(Clone, Copy)]
struct Line {
    end: u16,
    across: u16,
    more: u16,
    next: u16,
}

// Draws the line of face f. Its numbers are written one by one: a copy of four from an array takes several times as long.
fn draw_side(lines: &mut [u16], f: usize, line: Line)
    requires { 4 * f + 3 < length lines.old }
    ensures { lines.new ≡ with_face lines.old f line.end line.across line.more line.next }
{
    let at = 4 * f;
    lines[at] = line.end;
    lines[at + 1] = line.across;
    lines[at + 2] = line.more;
    lines[at + 3] = line.next;
}

// The side after side f, of the cell whose sides go from `begin` to before `end`: as `Cells::next`, which would read both numbers again for each side.
#[tactic(auto, using(face::proofs::Tables::comes_round, face::proofs::Tables::goes_on))]
fn after(f: usize, begin: usize, end: usize) -> usize
    requires { f < end }
    ensures { result ≡ around begin end f }
{
    if f + 1 == end { begin } else { f + 1 }
}

// What is across face f, without doors.
fn beyond(cells: &Cells, backs: &[u16], f: usize) -> u16
    requires backed { Backed (tables cells.now) backs.now }
    requires f_bound { f < face_count (tables cells.now) }
    ensures { result ≡ Lined·across (tables cells.now) [] 0 f }
{
    if cells.neighbour(f) == Plan::WALL as usize {
        Plan::WALL
    } else {
        backs[f]
    }
}

// The lines of one cell, without doors.
fn draw_cell(cells: &Cells, backs: &[u16], lines: &mut [u16], c: usize)
    requires backed { Backed (tables cells.now) backs.now }
    requires c_bound { c < cell_count (tables cells.now) }
    requires few_faces { face_count (tables cells.now) ≤ most_sides * most_cells }
    requires drawn { Drawn (tables cells.now) (Lined·across (tables cells.now) [] 0) (first (tables cells.now) c) lines.old }
    ensures { Drawn (tables cells.now) (Lined·across (tables cells.now) [] 0) (first (tables cells.now) (suc c)) lines.new }
{
    let begin = cells.first(c);
    let end = cells.end(c);
    let more = (end - begin - 2) as u16;
    for f in begin..end {
        let next = after(f, begin, end);
        let line = Line {
            end: cells.faces[2 * next],
            across: beyond(cells, backs, f),
            more,
            next: next as u16,
        };
        draw_side(lines, f, line);
    }
}

// The lines of the cells, without doors.
fn draw(cells: &Cells, backs: &[u16], lines: &mut [u16])
    requires backed { Backed (tables cells.now) backs.now }
    requires few_faces { face_count (tables cells.now) ≤ most_sides * most_cells }
    requires lines_len { length lines.old ≡ 4 * face_count (tables cells.now) }
    ensures { Lined (tables cells.now) [] 0 lines.new }
{
    for c in 0..cells.count() {
        draw_cell(cells, backs, lines, c);
    }
}

// Sight ends at both faces of a line.
fn shut(cells: &Cells, backs: &[u16], f: usize, lines: &mut [u16])
    requires backed { Backed (tables cells.now) backs.now }
    requires f_bound { f < face_count (tables cells.now) }
    requires no_wall { neighbour (tables cells.now) f ≡ wall → ⊥ }
    requires back_bound { back (tables cells.now) f < face_count (tables cells.now) }
    requires lines_len { length lines.old ≡ 4 * face_count (tables cells.now) }
    ensures { lines.new ≡ shut_line (tables cells.now) f lines.old }
{
    let g = backs[f] as usize;
    lines[4 * f + 1] = Plan::WALL;
    lines[4 * g + 1] = Plan::WALL;
}

// Sight ends at the doors that are shut.
fn shut_doors(cells: &Cells, backs: &[u16], doors: &[u16], setting: u64, lines: &mut [u16])
    requires sound_cells { SoundCells (tables cells.now) doors.now }
    requires backed { Backed (tables cells.now) backs.now }
    requires lined { Lined (tables cells.now) [] 0 lines.old }
    ensures { Lined (tables cells.now) doors.now setting lines.new }
{
    for i in 0..doors.len() {
        if setting::is_shut(setting, i) {
            shut(cells, backs, doors[i] as usize, lines);
        }
    }
}

// The lines of an accepted plan under its setting.
pub fn lines_of(cells: &Cells, backs: &[u16], doors: &[u16], setting: u64, lines: &mut [u16])
    requires sound_cells { SoundCells (tables cells.now) doors.now }
    requires backed { Backed (tables cells.now) backs.now }
    requires lines_len { length lines.old ≡ 4 * face_count (tables cells.now) }
    ensures { Lined (tables cells.now) doors.now setting lines.new }
{
    draw(cells, backs, lines);
    shut_doors(cells, backs, doors, setting, lines);
}
