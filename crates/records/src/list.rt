// Lists of numbers as bytes, signed ones by their two's complement. (Two pairs, and not one over a trait of numbers: the trait, its two impls and their laws
// would be longer than the two loops that they save, and at `u16` each clause would map the identity over the numbers.)
ghost use Rattle.std.specs.Prelude.{◌≡◌, map, ◌+◌, ◌*◌, ◌≤◌, length};
ghost use Rattle.std.proofs.lemmas.List.Edits.{sets};
ghost use Rattle.records.specs.Bytes.{all_bytes, numbers_at, complement, signed};

use crate::bytes;

// Writes coordinates, four bytes each, from `at` on.
pub fn put_corners(s: &mut [u8], at: usize, corners: &[i32])
    requires { at + 4 * length corners.now ≤ length s.old }
    ensures { s.new ≡ sets s.old at (all_bytes 4 (map complement corners.now)) }
{
    for (i, z) in corners.iter().enumerate() {
        bytes::put_four(s, at + 4 * i, z.cast_unsigned() as usize);
    }
}

// Writes numbers, two bytes each, from `at` on.
#[tactic(auto, using(crate::proofs::Stores::number_put), unfolding(crate::specs::Bytes::all_bytes))]
pub fn put_numbers(s: &mut [u8], at: usize, numbers: &[u16])
    requires { at + 2 * length numbers.now ≤ length s.old }
    ensures { s.new ≡ sets s.old at (all_bytes 2 numbers.now) }
{
    for (i, n) in numbers.iter().enumerate() {
        bytes::put_two(s, at + 2 * i, *n as usize);
    }
}

// Fills a list with the coordinates from `at` on.
pub fn get_corners(s: &[u8], at: usize, corners: &mut [i32])
    requires { at + 4 * length corners.old ≤ length s.now }
    ensures { corners.new ≡ map signed (numbers_at 4 s.now at (length corners.old)) }
{
    for (i, z) in corners.iter_mut().enumerate() {
        *z = bytes::four(s, at + 4 * i).cast_signed();
    }
}

// Fills a list with the numbers from `at` on.
#[tactic(auto, using(crate::proofs::Stores::number_got, crate::proofs::Stores::sets_all, crate::proofs::Spelled::length_numbers_at), unfolding(crate::specs::Bytes::numbers_at))]
pub fn get_numbers(s: &[u8], at: usize, numbers: &mut [u16])
    requires { at + 2 * length numbers.old ≤ length s.now }
    ensures { numbers.new ≡ numbers_at 2 s.now at (length numbers.old) }
{
    for (i, n) in numbers.iter_mut().enumerate() {
        *n = bytes::two(s, at + 2 * i);
    }
}
