// Corners: 8 bytes each, signed 32-bit x then y.
ghost use Rattle.std.specs.Prelude.{◌<◌, ◌≡◌};
ghost use Rattle.plane.specs.Side.{point};
ghost use Rattle.cells.specs.Lists.{corner_count, corner_at};

// Corner i, its coordinates widened.
pub fn at(corners: &[i32], i: usize) -> [i64; 2]
    requires { i < corner_count corners.now }
    ensures { point result ≡ corner_at corners.now i }
{
    let x = corners[2 * i];
    let y = corners[2 * i + 1];
    [x as i64, y as i64]
}
