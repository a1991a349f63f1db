// The cells of a plan in lent tables: two numbers a face, the corner at which it starts and the neighbour across it; of each cell its first face.
#![tactic(auto)]

ghost use Rattle.cells.specs.Lists.{tabled};
ghost use Rattle.cells.specs.Sound.{Numbered};

// The two tables, and what is known of them: faces are numbered in file order, the sides of a cell one after another.
#[derive(Clone, Copy)]
pub struct Cells<'a> {
    pub faces: &'a [u16],
    pub firsts: &'a [u16],
    pub ghost numbered: { Numbered (tabled faces.now firsts.now) },
}

impl Cells<'_> {
    ghost use Rattle.std.specs.Prelude.{suc, ◌<◌, ◌≡◌};
    ghost use Rattle.cells.specs.Lists.{cell_count, face_count, first as Lists·first, start as Lists·start, neighbour as Lists·neighbour, next as Lists·next};
    ghost use Rattle.cells.proofs.Faces.{SideOf};
    ghost use Rattle.face.specs.Tables.{around, tables};

    // How many cells there are.
    pub fn count(&self) -> usize
        ensures { result ≡ cell_count (tables self.now) }
    {
        self.firsts.len() - 1
    }

    // The corner at which face f starts.
    #[tactic(auto, unfolding(cells::specs::Lists::start))]
    pub fn start(&self, f: usize) -> usize
        requires { f < face_count (tables self.now) }
        ensures { result ≡ Lists·start (tables self.now) f }
    {
        self.faces[2 * f] as usize
    }

    // The neighbour across face f.
    #[tactic(auto, unfolding(cells::specs::Lists::neighbour))]
    pub fn neighbour(&self, f: usize) -> usize
        requires { f < face_count (tables self.now) }
        ensures { result ≡ Lists·neighbour (tables self.now) f }
    {
        self.faces[2 * f + 1] as usize
    }

    // The first face of cell c; of the cell after the last, the number of faces.
    pub fn first(&self, c: usize) -> usize
        requires { c < suc (cell_count (tables self.now)) }
        ensures { result ≡ Lists·first (tables self.now) c }
    {
        self.firsts[c] as usize
    }

    // The face after the last of cell c.
    pub fn end(&self, c: usize) -> usize
        requires { c < cell_count (tables self.now) }
        ensures { result ≡ Lists·first (tables self.now) (suc c) }
    {
        self.first(c + 1)
    }

    // The side of cell c after its side f; of a face before the first of the cell, the one after it.
    pub fn next(&self, c: usize, f: usize) -> usize
        requires c_bound { c < cell_count (tables self.now) }
        requires f_bound { f < Lists·first (tables self.now) (suc c) }
        ensures value { result ≡ around (Lists·first (tables self.now) c) (Lists·first (tables self.now) (suc c)) f }
        ensures of_a_side { SideOf (tables self.now) c f → result ≡ Lists·next (tables self.now) f }
    {
        if self.end(c) == f + 1 {
            self.first(c)
        } else {
            f + 1
        }
    }
}
