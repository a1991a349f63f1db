// Products of two words and their order (document 02, A5 and A8): squares of side values pass 64 bits.
#![tactic(auto)]

ghost use Rattle.std.specs.Prelude.{◌*◌, ◌≡◌, leb};

// The product of two words.
pub fn product(a: u64, b: u64) -> u128
    ensures { result ≡ a * b }
{
    a as u128 * b as u128
}

// Is x at most y? (A function, since the wrong version `low_words_compared_first` is one of it.)
pub fn is_at_most(x: u128, y: u128) -> bool
    ensures { result ≡ leb x y }
{
    x <= y
}
