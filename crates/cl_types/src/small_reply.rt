//! A reply in few bytes, as the node keeps it for retries.

ghost use Rattle.std.specs.Prelude.{◌≡◌, ◌-◌, ◌≤◌, length, drop};
ghost use Rattle.cl_types.specs.Bytes.{zeros};

/// A reply as it is kept for retries: its status, and its value as it is written in a frame, at most 16 bytes. The
/// bytes behind the value are zeros.
#[derive(Clone, Copy)]
pub struct SmallReply {
    /// 0, or the refusal's number.
    pub status: u8,
    /// How many bytes the value has.
    pub len: u8,
    pub bytes: [u8; 16],
    ghost within: { len ≤ 16 },
    ghost rest: { drop len bytes ≡ zeros (16 - len) },
}

impl SmallReply {
    ghost use Rattle.cl_types.specs.SmallReplies.{value_of};

    /// The reply with this status and this value.
    pub fn create(status: u8, value: &[u8]) -> SmallReply
        requires { length value.now ≤ 16 }
        ensures status { result.status ≡ status }
        ensures value { value_of result ≡ value.now }
    {
        let mut bytes = [0; 16];
        let len = value.len();
        bytes[..len].copy_from_slice(value);
        SmallReply {
            status,
            len: len as u8,
            bytes,
        }
    }

    /// The value.
    pub fn value(&self) -> &[u8]
        ensures { result.now ≡ value_of self.now }
    {
        &self.bytes[..self.len as usize]
    }
}
