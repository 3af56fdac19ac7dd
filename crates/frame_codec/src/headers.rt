//! The 26 bytes in front of a body: the start of a frame, its head, and the length of its body.

ghost use Rattle.std.specs.Prelude.{◌≡◌, ◌+◌, ◌≤◌, ◌++◌, drop, length, IfOk, IfSome, is_some};
ghost use Rattle.std.specs.Result.{result_err};
ghost use Rattle.cl_types.specs.Config.{is_within};
ghost use Rattle.cl_types.specs.Kinds.{kind_number};
ghost use Rattle.frame_model.specs.Faults.{first_fault};
ghost use Rattle.frame_model.specs.Frames.{head_in, header_checks};
ghost use Rattle.frame_codec.specs.Parts.{IsHeaderOf, head_checks, header_of};

use crate::places::{put_u16, put_u64, u16_at, u64_at};
use cl_types::call::Kind;
use cl_types::frame::{BadFrame, FieldName, Head};
use cl_types::numbers::{ClientNo, try_pid};

/// How many bytes stand in front of a body.
pub const HEADER_BYTES: usize = 26;

/// The first two bytes of a frame.
const MAGIC: [u8; 2] = [0x43, 0x4c];

/// The version of the format.
const VERSION: u8 = 1;

/// What a reply's number of its kind is above its request's.
pub const REPLY: u8 = 128;

/// The header of a frame that has as many bytes as it tells.
#[derive(Clone, Copy)]
pub struct Header {
    pub kind: Kind,
    pub head: Head,
}

/// The kind of this number. `None` comes exactly where the number is none from 1 to 6.
fn try_kind(number: u8) -> Option<Kind>
    ensures some { is_some result ≡ is_within 1 6 number }
    ensures value { IfSome result (λ kind. kind_number kind ≡ number) }
{
    match number {
        1 => Some(Kind::Alloc),
        2 => Some(Kind::Free),
        3 => Some(Kind::Read),
        4 => Some(Kind::Write),
        5 => Some(Kind::Atomic),
        6 => Some(Kind::Offload),
        _ => None,
    }
}

/// Reads the head in a header: whose frame it is, and its ids.
fn read_head(bytes: &[u8]) -> Result<Head, BadFrame>
    requires { 26 ≤ length bytes.now }
    ensures fault { result_err result ≡ first_fault (head_checks bytes.now) }
    ensures value { IfOk result (λ head. head ≡ head_in bytes.now) }
{
    let client = ClientNo(u16_at(bytes, 4));
    let Some(pid) = try_pid(u16_at(bytes, 6)) else {
        return Err(BadFrame::Field(FieldName::Pid));
    };
    let id = u64_at(bytes, 8);
    if id == 0 {
        return Err(BadFrame::Field(FieldName::Id));
    }
    let orig = u64_at(bytes, 16);
    if orig == 0 || orig > id {
        return Err(BadFrame::Field(FieldName::Orig));
    }
    Ok(Head {
        client,
        pid,
        id,
        orig,
    })
}

/// Reads a header, of a frame with a number of its kind from `base + 1` to `base + 6`. `base` is 0
/// for a request and 128 for a reply.
pub fn read_header(base: u8, bytes: &[u8]) -> Result<Header, BadFrame>
    requires { base ≤ 128 }
    ensures fault { let is_kind = is_within (base + 1) (base + 6) in
        result_err result ≡ first_fault (header_checks is_kind bytes.now) }
    ensures read { IfOk result (λ header. IsHeaderOf base bytes.now header) }
{
    let have = bytes.len();
    if have < HEADER_BYTES {
        return Err(BadFrame::Short {
            have,
            need: HEADER_BYTES,
        });
    }
    if bytes[0] != MAGIC[0] || bytes[1] != MAGIC[1] {
        return Err(BadFrame::Magic);
    }
    if bytes[2] != VERSION {
        return Err(BadFrame::Version(bytes[2]));
    }
    let Some(kind) = try_kind(bytes[3].wrapping_sub(base)) else {
        return Err(BadFrame::Kind(bytes[3]));
    };
    let need = HEADER_BYTES + usize::from(u16_at(bytes, 24));
    if have < need {
        return Err(BadFrame::Short { have, need });
    }
    if need < have {
        return Err(BadFrame::Long { have, need });
    }
    let head = read_head(bytes)?;
    Ok(Header { kind, head })
}

/// Writes the header of a frame whose kind has this number and whose body has `len` bytes.
pub fn write_header(number: u8, head: &Head, len: u16, out: &mut [u8])
    requires { 26 ≤ length out.old }
    ensures { out.new ≡ header_of number head.now len ++ drop 26 out.old }
{
    out[..4].copy_from_slice(&[MAGIC[0], MAGIC[1], VERSION, number]);
    put_u16(out, 4, head.client.0);
    put_u16(out, 6, head.pid.number());
    put_u64(out, 8, head.id);
    put_u64(out, 16, head.orig);
    put_u16(out, 24, len);
}
