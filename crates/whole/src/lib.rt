// Numbers out of bytes: of one, and little-endian of two and of four.
#![tactic(auto)]

ghost use Rattle.std.specs.Prelude.{◌≡◌, ◌+◌, ◌<◌, ◌≤◌, length};
ghost use Rattle.std.specs.Int.{w16, w32};
ghost use Rattle.std.proofs.Common.{to_z};
ghost use Rattle.whole.specs.Whole.{Signed};
ghost use Rattle.whole.specs.Bytes.{u16_at, u32_at, i16_at, i32_at};

// The number of two bytes at `at`.
pub fn u16_at(s: &[u8], at: usize) -> u16
    requires { at + 2 ≤ length s.now }
    ensures { result ≡ u16_at s.now at }
{
    u16::from_le_bytes([s[at], s[at + 1]])
}

// The number of four bytes at `at`.
pub fn u32_at(s: &[u8], at: usize) -> u32
    requires { at + 4 ≤ length s.now }
    ensures { result ≡ u32_at s.now at }
{
    u32::from_le_bytes([s[at], s[at + 1], s[at + 2], s[at + 3]])
}

// The number that 16 bits stand for in two's complement.
fn short(n: u16) -> i16
    ensures { result ≡ to_z w16 n }
{
    n.cast_signed()
}

// The signed number of two bytes at `at`.
pub fn i16_at(s: &[u8], at: usize) -> i64
    requires { at + 2 ≤ length s.now }
    ensures { Signed w16 (i16_at s.now at) result }
{
    i64::from(short(u16_at(s, at)))
}

// The signed number of four bytes at `at`, as a window's end or a number of a list.
pub fn int_at(s: &[u8], at: usize) -> i32
    requires { at + 4 ≤ length s.now }
    ensures { result ≡ i32_at s.now at }
{
    u32_at(s, at).cast_signed()
}

// The same in 64 bits.
pub fn i32_at(s: &[u8], at: usize) -> i64
    requires { at + 4 ≤ length s.now }
    ensures { Signed w32 (i32_at s.now at) result }
{
    i64::from(int_at(s, at))
}
