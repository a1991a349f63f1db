// The corners of a plan seen from a stand: two numbers a corner, taken once a stand. A difference of two coordinates fits 32 bits.
ghost use Rattle.std.specs.Prelude.{◌+◌, ◌*◌, ◌<◌, ◌%◌, ◌≡◌, length, set};
ghost use Rattle.plane.specs.Side.{point, Near};
ghost use Rattle.plane.specs.Cone.{minus};
ghost use Rattle.cells.specs.Lists.{corner_count, corner_at};
ghost use Rattle.cells.specs.Sound.{CornersNear};
ghost use Rattle.sight.specs.Seen.{SeenFrom};

use cells::corner;

// Corner i less the stand, in whole millimetres.
pub fn difference(corners: &[i32], i: usize, q: [i64; 2]) -> [i64; 2]
    requires corners_near { CornersNear corners.now × Near (point q) }
    requires i_bound { i < corner_count corners.now }
    ensures { point result ≡ minus (corner_at corners.now i) (point q) }
{
    let p = corner::at(corners, i);
    [p[0] - q[0], p[1] - q[1]]
}

// Corner i.
fn see_corner(corners: &[i32], q: [i64; 2], seen: &mut [i32], i: usize)
    requires corners_near { CornersNear corners.now × Near (point q) }
    requires i_bound { i < corner_count corners.now }
    requires seen_len { length seen.old ≡ length corners.now }
    ensures { seen.new ≡ set (set seen.old (2 * i) (minus (corner_at corners.now i) (point q)).x) (2 * i + 1) (minus (corner_at corners.now i) (point q)).y }
{
    let [x, y] = difference(corners, i, q);
    seen[2 * i] = x as i32;
    seen[2 * i + 1] = y as i32;
}

// All corners.
pub fn see(corners: &[i32], q: [i64; 2], seen: &mut [i32])
    requires corners_near { CornersNear corners.now × Near (point q) }
    requires seen_len { length seen.old ≡ length corners.now }
    ensures { SeenFrom corners.now (point q) seen.new }
{
    for i in 0..corners.len() / 2 {
        see_corner(corners, q, seen, i);
    }
}
