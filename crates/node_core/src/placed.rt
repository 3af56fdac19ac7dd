//! Replies on their way into a frame.

ghost use Rattle.std.specs.Prelude.{◌≡◌, ◌+◌, ◌<◌, ◌≤◌, ◌∷◌, drop, length, IsTrue};
ghost use Rattle.cl_types.specs.SmallReplies.{value_of};
ghost use Rattle.cl_types.specs.Kinds.{kind_number};
ghost use Rattle.cl_types.specs.declared.limits.TheConstants.{FRAME_ROOM, REPLY_BYTES};
ghost use Rattle.frame_model.specs.Frames.{IsHead, reply_frame};
ghost use Rattle.frame_codec.specs.Writing.{IsWritten};
ghost use Rattle.node_core.specs.Placed.{may_place, placed_in};
ghost use Rattle.node_core.specs.declared.placed.TheConstants.{SMALL_REPLY_BYTES, STATUS_AT, VALUE_AT};

use cl_types::call::Kind;
use cl_types::frame::Head;
use cl_types::limits::{FRAME_ROOM, PART_BYTES, REPLY_BYTES};
use cl_types::numbers::Addr;
use cl_types::reply::{Refusal, ReplyRef};
use cl_types::small_reply::SmallReply;
use frame_codec::{HEADER_BYTES, write_got, write_reply};

// How the frame of a reply lies: its header, its status of one byte, and its value. docs/FORMATS.md draws it.

/// The place of a reply's status in its frame: behind the header.
pub const STATUS_AT: usize = HEADER_BYTES;

/// The place of a reply's value in its frame: behind the status.
pub const VALUE_AT: usize = STATUS_AT + 1;

/// The greatest number of bytes of a reply's frame that is kept: a `SmallReply` has a value of at most 16 bytes.
pub const SMALL_REPLY_BYTES: usize = VALUE_AT + 16;

// The greatest reply carries the bytes of a part.
const _: () = prove!(REPLY_BYTES == VALUE_AT + PART_BYTES as usize);

/// A reply of which the bytes that were got, where there are any, stand at their place in the frame.
#[derive(Clone, Copy, Debug, PartialEq, Eq)]
pub enum PlacedReply {
    /// The request was refused, and nothing was changed.
    Refused(Refusal),
    /// A Free or a Write was done.
    Nothing,
    /// An Alloc was done: the first address of the range.
    At(Addr),
    /// An Atomic was done: the old word.
    Word(u64),
    /// A Read or an Offload was done: so many bytes.
    Got(usize),
}

/// Writes the frame of a reply around its bytes, and tells how many bytes it has.
pub fn write_frame(head: &Head, kind: Kind, reply: PlacedReply, out: &mut [u8]) -> usize
    requires room { FRAME_ROOM ≤ length out.old }
    requires head { IsHead head.now }
    requires reply { IsTrue (may_place kind reply) }
    ensures short { result ≤ REPLY_BYTES }
    ensures written { let frame = reply_frame head.now kind (placed_in reply out.old) in
        IsWritten frame result out.old out.new }
{
    match reply {
        PlacedReply::Refused(refusal) => {
            write_reply(head, kind, &ReplyRef::Refused(refusal), out)
        }
        PlacedReply::Nothing => write_reply(head, kind, &ReplyRef::Nothing, out),
        PlacedReply::At(addr) => write_reply(head, kind, &ReplyRef::At(addr), out),
        PlacedReply::Word(word) => write_reply(head, kind, &ReplyRef::Word(word), out),
        PlacedReply::Got(len) => write_got(head, kind, len, out),
    }
}

/// The status and the value of the reply in a frame, to be kept.
pub fn small_in(frame: &[u8]) -> SmallReply
    requires room { VALUE_AT ≤ length frame.now }
    requires short { length frame.now ≤ SMALL_REPLY_BYTES }
    ensures { result.status ∷ value_of result ≡ drop STATUS_AT frame.now }
{
    SmallReply::create(frame[STATUS_AT], &frame[VALUE_AT..])
}
