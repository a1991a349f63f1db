// Two cells: whether a side of one has the other on its line or right of it (document 02, A7).
ghost use Rattle.plane.specs.Side.{point, Near};
ghost use Rattle.face.specs.Tables.{tables};
ghost use Rattle.boxes.specs.Boxes.{Boxed};
ghost use Rattle.overlap.specs.Search.{Ready};

use boxes::Bounds;
use cells::corner;
use face::Cells;

// The cells of a plan with the box of each: what is known when cells are compared.
#[derive(Clone, Copy)]
pub struct WithBoxes<'a> {
    pub corners: &'a [i32],
    pub cells: Cells<'a>,
    pub boxes: &'a [i32],
    pub ghost ready: { Ready corners.now (tables cells) },
    pub ghost boxed: { Boxed corners.now (tables cells) boxes.now },
}

// The two ends of a side.
#[derive(Clone, Copy)]
struct Ends {
    from: [i64; 2],
    towards: [i64; 2],
    ghost from_near: { Near (point from) },
    ghost towards_near: { Near (point towards) },
}

impl WithBoxes<'_> {
    ghost use Rattle.std.specs.Prelude.{suc, ◌<◌, ◌≤◌, false, not, ◌&&◌, ◌≡◌, length};
    ghost use Rattle.std.specs.Option.{MatchOption};
    ghost use Rattle.cells.specs.Least.{least, before};
    ghost use Rattle.cells.specs.Lists.{cell_count, face_count, first, side_count, start as Lists·start, corner_at};
    ghost use Rattle.cells.specs.Check.{some_face, separates};
    ghost use Rattle.cells.proofs.Faces.{SideOf};
    ghost use Rattle.boxes.specs.Boxes.{box_at, meeting};
    ghost use Rattle.boxes.specs.Parts.{Listed};
    ghost use Rattle.overlap.specs.Search.{cut_off, EndsOf, Apart, Passes, Found, Against, Settles};

    // The corner at which face f starts.
    fn start(&self, f: usize) -> [i64; 2]
        requires { f < face_count (tables self.now.cells) }
        ensures corner { point result ≡ corner_at self.now.corners.now (Lists·start (tables self.now.cells) f) }
        ensures near { Near (point result) }
    {
        corner::at(self.corners, self.cells.start(f))
    }

    // The two ends of side f of cell c.
    fn ends(&self, c: usize, f: usize) -> Ends
        requires c_bound { c < cell_count (tables self.now.cells) }
        requires side_of { SideOf (tables self.now.cells) c f }
        ensures { EndsOf self.now.corners.now (tables self.now.cells) f (point result.from) (point result.towards) }
    {
        let from = self.start(f);
        let towards = self.start(self.cells.next(c, f));
        Ends { from, towards }
    }

    // Is every corner of cell d on the line through two ends or right of it?
    fn is_cut_off(&self, ends: Ends, d: usize) -> bool
        requires { d < cell_count (tables self.now.cells) }
        ensures { result ≡ cut_off self.now.corners.now (tables self.now.cells) (point ends.from) (point ends.towards) d }
    {
        !(self.cells.first(d)..self.cells.end(d)).any(|g| plane::is_right([
            ends.from,
            ends.towards,
            self.start(g),
        ]))
    }

    // Does side f of cell c separate it from cell d?
    fn is_separating(&self, c: usize, f: usize, d: usize) -> bool
        requires c_bound { c < cell_count (tables self.now.cells) }
        requires side_of { SideOf (tables self.now.cells) c f }
        requires d_bound { d < cell_count (tables self.now.cells) }
        ensures { result ≡ separates self.now.corners.now (tables self.now.cells) d f }
    {
        self.is_cut_off(self.ends(c, f), d)
    }

    // The first side of cell c that separates it from cell d.
    fn separating(&self, c: usize, d: usize) -> Option<usize>
        requires c_bound { c < cell_count (tables self.now.cells) }
        requires d_bound { d < cell_count (tables self.now.cells) }
        ensures { result ≡ before (first (tables self.now.cells) (suc c)) (least (separates self.now.corners.now (tables self.now.cells) d) (side_count (tables self.now.cells) c) (first (tables self.now.cells) c)) }
    {
        (self.cells.first(c)..self.cells.end(c)).find(|&f| self.is_separating(c, f, d))
    }

    // Cells c and d, which no side of c separates: where no side of d does either, the lesser of them, if it is less than the best so far.
    fn with_pair(&self, c: usize, d: usize, best: usize) -> usize
        requires c_bound { c < cell_count (tables self.now.cells) }
        requires d_bound { d < cell_count (tables self.now.cells) }
        requires by_no_side { some_face (tables self.now.cells) c (separates self.now.corners.now (tables self.now.cells) d) ≡ false }
        ensures found { Found self.now.corners.now (tables self.now.cells) best result }
        ensures passes { Passes self.now.corners.now (tables self.now.cells) result c d }
    {
        if c == d || self.separating(d, c).is_some() {
            return best;
        }
        let lesser = c.min(d);
        best.min(lesser)
    }

    // May cell d overlap a cell with this box and a side with these ends? Where their boxes do not meet, or all of d lies on that side's line or right of it,
    // it does not.
    fn may_overlap(&self, own: Bounds, ends: Ends, d: usize) -> bool
        requires { d < cell_count (tables self.now.cells) }
        ensures { result ≡ (meeting own (box_at self.now.boxes.now d) && not (cut_off self.now.corners.now (tables self.now.cells) (point ends.from) (point ends.towards) d)) }
    {
        own.meets(boxes::read(self.boxes, d)) && !self.is_cut_off(ends, d)
    }

    // The first place of a list from place `from` on at which cell c's side k does not tell at once that the cell there is apart from c: neither by their
    // boxes, nor by that side. Cells are often separated by the side that separated the one before.
    fn past_the_apart(&self, list: &[u16], from: usize, c: usize, k: usize) -> Option<usize>
        requires listed { Listed (cell_count (tables self.now.cells)) list.now }
        requires c_bound { c < cell_count (tables self.now.cells) }
        requires side_of { SideOf (tables self.now.cells) c k }
        requires from_in_bounds { from ≤ length list.now }
        ensures { MatchOption
            result
            (Apart self.now.corners.now (tables self.now.cells) list.now c from (length list.now))
            (λ i. (i < length list.now) × Apart self.now.corners.now (tables self.now.cells) list.now c from i) }
    {
        let own = boxes::read(self.boxes, c);
        let ends = self.ends(c, k);
        (from..list.len()).find(|&i| self.may_overlap(own, ends, list[i] as usize))
    }

    // The cell at place s of a list against every later one.
    fn against_later(&self, list: &[u16], s: usize, best: usize) -> usize
        requires listed { Listed (cell_count (tables self.now.cells)) list.now }
        requires s_in_bounds { s < length list.now }
        ensures { Against self.now.corners.now (tables self.now.cells) list.now s (suc s) (length list.now) best result }
    {
        let c = list[s] as usize;
        let mut k = self.cells.first(c);
        let mut least = best;
        let mut u = s + 1;
        while let Some(i) = self.past_the_apart(list, u, c, k) {
            let d = list[i] as usize;
            match self.separating(c, d) {
                Some(f) => k = f,
                None => least = self.with_pair(c, d, least),
            }
            u = i + 1;
        }
        least
    }

    // Every two cells of a list: the least cell of an overlapping pair, if it is less than the best so far.
    pub fn compare(&self, list: &[u16], best: usize) -> usize
        requires { Listed (cell_count (tables self.now.cells)) list.now }
        ensures { Settles self.now.corners.now (tables self.now.cells) list.now best result }
    {
        let mut least = best;
        for s in 0..list.len() {
            least = self.against_later(list, s, least);
        }
        least
    }
}
