//! Numbers at a place of some bytes, big-endian.

ghost use Rattle.std.specs.Prelude.{◌≡◌, ◌+◌, ◌≤◌, length};
ghost use Rattle.std.specs.Int.{to_be_bytes, w16, w32, w64};
ghost use Rattle.cl_types.specs.Bytes.{with_bytes};
ghost use Rattle.frame_model.specs.Frames.{number_16, number_32, number_64};

use byteorder::{BigEndian, ByteOrder};

/// The number in the 2 bytes from `at` on.
pub fn u16_at(bytes: &[u8], at: usize) -> u16
    requires { at + 2 ≤ length bytes.now }
    ensures { result ≡ number_16 at bytes.now }
{
    BigEndian::read_u16(&bytes[at..])
}

/// The number in the 4 bytes from `at` on.
pub fn u32_at(bytes: &[u8], at: usize) -> u32
    requires { at + 4 ≤ length bytes.now }
    ensures { result ≡ number_32 at bytes.now }
{
    BigEndian::read_u32(&bytes[at..])
}

/// The number in the 8 bytes from `at` on.
pub fn u64_at(bytes: &[u8], at: usize) -> u64
    requires { at + 8 ≤ length bytes.now }
    ensures { result ≡ number_64 at bytes.now }
{
    BigEndian::read_u64(&bytes[at..])
}

/// Writes the number over the 2 bytes from `at` on.
pub fn put_u16(out: &mut [u8], at: usize, n: u16)
    requires { at + 2 ≤ length out.old }
    ensures { out.new ≡ with_bytes at (to_be_bytes w16 n) out.old }
{
    BigEndian::write_u16(&mut out[at..], n);
}

/// Writes the number over the 4 bytes from `at` on.
pub fn put_u32(out: &mut [u8], at: usize, n: u32)
    requires { at + 4 ≤ length out.old }
    ensures { out.new ≡ with_bytes at (to_be_bytes w32 n) out.old }
{
    BigEndian::write_u32(&mut out[at..], n);
}

/// Writes the number over the 8 bytes from `at` on.
pub fn put_u64(out: &mut [u8], at: usize, n: u64)
    requires { at + 8 ≤ length out.old }
    ensures { out.new ≡ with_bytes at (to_be_bytes w64 n) out.old }
{
    BigEndian::write_u64(&mut out[at..], n);
}
