//! `Noted`: a record.

ghost use Rattle.std.specs.Prelude.{◌≡◌};
ghost use Rattle.node_model.specs.Nodes.{same_name};
ghost use Rattle.retry_buffer.specs.Kept.{name_of};

use cl_types::call::Kind;
use cl_types::numbers::ClientNo;
use cl_types::small_reply::SmallReply;

/// A reply, the name of its request, and when it was noted.
#[derive(Clone, Copy)]
pub struct Noted {
    /// In ticks.
    pub moment: u64,
    pub client: ClientNo,
    pub kind: Kind,
    /// The id of the first sending.
    pub orig: u64,
    pub reply: SmallReply,
}

impl Noted {
    /// Whether this is the name of the request.
    pub fn is_of(&self, client: ClientNo, kind: Kind, orig: u64) -> bool
        ensures { result ≡ same_name (record { client = client; kind = kind; orig = orig }) (name_of self.now) }
    {
        client == self.client && kind.number() == self.kind.number() && orig == self.orig
    }
}
