//! Copying to the front of a buffer.

ghost use Rattle.std.specs.Prelude.{◌≡◌, length, min, take};

// Copies what fits of the bytes to the front of the buffer, and tells how many those are.
pub fn copy_front(bytes: &[u8], buf: &mut [u8]) -> usize
    ensures count { result ≡ min (length bytes.now) (length buf.old) }
    ensures front { take result buf.new ≡ take result bytes.now }
    ensures size { length buf.new ≡ length buf.old }
{
    let count = bytes.len().min(buf.len());
    buf[..count].copy_from_slice(&bytes[..count]);
    count
}
