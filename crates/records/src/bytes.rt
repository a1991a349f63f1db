// Numbers as bytes: little-endian.
ghost use Rattle.std.specs.Prelude.{◌≡◌, ◌+◌, ◌≤◌, length};
ghost use Rattle.std.proofs.lemmas.List.Edits.{sets};
ghost use Rattle.records.specs.Bytes.{bytes, number_at};

// The number in the two bytes from `at` on.
#[tactic(auto, unfolding(crate::specs::Bytes::number_at))]
pub fn two(s: &[u8], at: usize) -> u16
    requires { at + 2 ≤ length s.now }
    ensures { result ≡ number_at 2 s.now at }
{
    u16::from_le_bytes([s[at], s[at + 1]])
}

// The number in the four bytes from `at` on.
#[tactic(auto, unfolding(crate::specs::Bytes::number_at))]
pub fn four(s: &[u8], at: usize) -> u32
    requires { at + 4 ≤ length s.now }
    ensures { result ≡ number_at 4 s.now at }
{
    u32::from_le_bytes([s[at], s[at + 1], s[at + 2], s[at + 3]])
}

// Writes a number's two lowest bytes from `at` on.
pub fn put_two(s: &mut [u8], at: usize, n: usize)
    requires { at + 2 ≤ length s.old }
    ensures { s.new ≡ sets s.old at (bytes 2 n) }
{
    s[at..at + 2].copy_from_slice(&n.to_le_bytes()[..2]);
}

// Writes a number's four lowest bytes from `at` on.
pub fn put_four(s: &mut [u8], at: usize, n: usize)
    requires { at + 4 ≤ length s.old }
    ensures { s.new ≡ sets s.old at (bytes 4 n) }
{
    s[at..at + 4].copy_from_slice(&n.to_le_bytes()[..4]);
}
