ghost use Rattle.std.specs.Prelude.{◌≡◌, ◌+◌, ◌<◌, length};
ghost use Rattle.smi_base.specs.Bytes.{u16_at, u32_at, u64_at};

/// Returns the number in the two bytes from a place on.
#[inline(always)]
pub fn u16_at(b: &[u8], at: usize) -> u16
    requires { at + 1 < length b.now }
    ensures { result ≡ u16_at b.now at }
{
    u16::from_be_bytes([b[at], b[at + 1]])
}

/// Returns the number in the four bytes from a place on.
#[inline(always)]
pub fn u32_at(b: &[u8], at: usize) -> u32
    requires { at + 3 < length b.now }
    ensures { result ≡ u32_at b.now at }
{
    u32::from_be_bytes([b[at], b[at + 1], b[at + 2], b[at + 3]])
}

/// Returns the number in the eight bytes from a place on.
#[inline(always)]
pub fn u64_at(b: &[u8], at: usize) -> u64
    requires { at + 7 < length b.now }
    ensures { result ≡ u64_at b.now at }
{
    u64::from_be_bytes([
        b[at],
        b[at + 1],
        b[at + 2],
        b[at + 3],
        b[at + 4],
        b[at + 5],
        b[at + 6],
        b[at + 7],
    ])
}
