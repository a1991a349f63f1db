// The ceiling of crossings (document 02, A13).
ghost use Rattle.std.specs.Prelude.{◌≡◌};
ghost use Rattle.sight.specs.Ceiling.{allowance as Ceiling·allowance};

// No listing has as many crossings.
pub const ENOUGH: usize = 9223372036854775808;

// With how many passages left a listing begins whose ceiling is n: one more, so that none is left when the ceiling is passed.
pub fn allowance(n: u64) -> usize
    ensures { result ≡ Ceiling·allowance n }
{
    let most = n as usize;
    if most < ENOUGH {
        return most + 1;
    }
    ENOUGH
}
