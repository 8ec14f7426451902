// Little-endian numbers at a place of a slice of bytes.
ghost use Rattle.std.specs.Prelude.{◌≡◌, ◌+◌, ◌≤◌, length};
ghost use Rattle.integers.specs.LittleEndian.{unsigned_at, signed_at};

// 16-bit unsigned.
pub fn unsigned16(s: &[u8], at: usize) -> u16
    requires { at + 2 ≤ length s.now }
    ensures { result ≡ unsigned_at 2 s.now at }
{
    u16::from_le_bytes([s[at], s[at + 1]])
}

// 8-bit signed.
pub fn signed8(s: &[u8], at: usize) -> i64
    requires { at + 1 ≤ length s.now }
    ensures { result ≡ signed_at 1 s.now at }
{
    s[at].cast_signed() as i64
}

// 16-bit signed.
pub fn signed16(s: &[u8], at: usize) -> i64
    requires { at + 2 ≤ length s.now }
    ensures { result ≡ signed_at 2 s.now at }
{
    i16::from_le_bytes([s[at], s[at + 1]]) as i64
}

// 32-bit signed.
pub fn signed32(s: &[u8], at: usize) -> i64
    requires { at + 4 ≤ length s.now }
    ensures { result ≡ signed_at 4 s.now at }
{
    i32::from_le_bytes([s[at], s[at + 1], s[at + 2], s[at + 3]]) as i64
}
