// The offset of a corner from the stand, in single precision.
ghost use Rattle.std.specs.Prelude.{◌<◌, false, ◌≡◌};
ghost use Rattle.plane.specs.Side.{point, Near};
ghost use Rattle.cells.specs.Lists.{corner_count};
ghost use Rattle.cells.specs.Sound.{CornersNear};
ghost use Rattle.sight.specs.Listing.{seen};
ghost use Rattle.tablet.specs.Drawing.{far, offset};

use limits::Plan;
use sight::seen::difference;

// Two whole numbers of millimetres, as the screen library takes them.
#[derive(Clone, Copy)]
pub struct Offset {
    pub x: f32,
    pub y: f32,
}

// Is corner i too far from the stand to be drawn, in either axis?
pub fn is_far(corners: &[i32], i: usize, q: [i64; 2]) -> bool
    requires corners_near { CornersNear corners.now × Near (point q) }
    requires i_bound { i < corner_count corners.now }
    ensures { result ≡ far (seen corners.now (point q) i) }
{
    let d = difference(corners, i, q);
    let most = Plan::MOST_OFFSET;
    let near = -most..=most;
    !near.contains(&d[0]) || !near.contains(&d[1])
}

// The offset of corner i, which is not too far: each number is exactly the difference, since single precision has every whole number up to 2^24.
pub fn offset_of(corners: &[i32], i: usize, q: [i64; 2]) -> Offset
    requires corners_near { CornersNear corners.now × Near (point q) }
    requires i_bound { (i < corner_count corners.now) × (far (seen corners.now (point q) i) ≡ false) }
    ensures { result ≡ offset (seen corners.now (point q) i) }
{
    let [x, y] = difference(corners, i, q);
    Offset {
        x: x as f32,
        y: y as f32,
    }
}
