// Records: a four-byte length of the body, a two-byte kind, then the body.
ghost use Rattle.std.specs.Prelude.{◌++◌, ◌≡◌, ◌+◌, ◌*◌, ◌^◌, ◌<◌, ◌≤◌, length};
ghost use Rattle.std.proofs.lemmas.List.Edits.{sets};
ghost use Rattle.records.specs.Bytes.{bytes, all_bytes};
ghost use Rattle.records.specs.Record.{record_of, corner_record, kind_at, end_of, is_record, is_cells, framed};

use crate::{bytes, list};

// Writes a body's length and kind from `at` on.
#[tactic(auto, using(crate::proofs::Stores::head_put))]
fn put_head(s: &mut [u8], at: usize, len: usize, kind: usize)
    requires { at + 6 ≤ length s.old }
    ensures { s.new ≡ sets s.old at (bytes 4 len ++ bytes 2 kind) }
{
    bytes::put_four(s, at, len);
    bytes::put_two(s, at + 4, kind);
}

// Writes the corners' record at the beginning.
#[tactic(auto, using(crate::proofs::Stores::corner_record_put))]
pub fn put_corners(s: &mut [u8], corners: &[i32])
    requires { 6 + 4 * length corners.now ≤ length s.old }
    ensures { s.new ≡ sets s.old 0 (corner_record corners.now) }
{
    put_head(s, 0, 4 * corners.len(), 1);
    list::put_corners(s, 6, corners);
}

// Writes a record of two-byte numbers from `at` on.
#[tactic(auto, using(crate::proofs::Stores::number_record_put))]
pub fn put_numbers(s: &mut [u8], at: usize, kind: usize, numbers: &[u16])
    requires { at + 6 + 2 * length numbers.now ≤ length s.old }
    ensures { s.new ≡ sets s.old at (record_of kind (all_bytes 2 numbers.now)) }
{
    put_head(s, at, 2 * numbers.len(), kind);
    list::put_numbers(s, at + 6, numbers);
}

// Where the record that begins at `at` ends.
#[tactic(auto, unfolding(crate::specs::Record::end_of))]
pub fn end(s: &[u8], at: usize) -> usize
    requires { at + 6 ≤ length s.now }
    ensures value { result ≡ end_of s.now at }
    ensures upper_bound { result < at + 6 + 2 ^ 32 }
{
    at + 6 + bytes::four(s, at) as usize
}

// The kind of the record that begins at `at`.
pub fn kind(s: &[u8], at: usize) -> u16
    requires { at + 6 ≤ length s.now }
    ensures { result ≡ kind_at s.now at }
{
    bytes::two(s, at + 4)
}

// Is the record that begins at `at` of this kind, and its body a multiple of `size`?
#[tactic(auto, unfolding(crate::specs::Record::is_record))]
fn is_of(s: &[u8], at: usize, wanted: u16, size: u32) -> bool
    requires at_in_bounds { at + 6 ≤ length s.now }
    requires size_nonzero { 0 < size }
    ensures { result ≡ is_record s.now at wanted size }
{
    kind(s, at) == wanted && bytes::four(s, at) % size == 0
}

// Is the record that begins at `at` a list of cells, of either kind?
#[tactic(auto, unfolding(crate::specs::Record::is_cells))]
fn is_cells(s: &[u8], at: usize) -> bool
    requires { at + 6 ≤ length s.now }
    ensures { result ≡ is_cells s.now at }
{
    is_of(s, at, 2, 12) || is_of(s, at, 12, 2)
}

// Is the file the three records in their order, and nothing after them?
#[tactic(auto, using(crate::proofs::Frames::past_the_end, crate::proofs::Frames::end_after), unfolding(crate::specs::Record::framed))]
pub fn is_framed(s: &[u8]) -> bool
    ensures { result ≡ framed s.now }
{
    if s.len() < 6 {
        return false;
    }
    let second = end(s, 0);
    if s.len() < second + 6 {
        return false;
    }
    let third = end(s, second);
    if s.len() < third + 6 {
        return false;
    }
    end(s, third) == s.len() && is_of(s, 0, 1, 8) && is_cells(s, second) && is_of(s, third, 3, 2)
}
