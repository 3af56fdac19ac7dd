//! What a reader finds in a frame. A view borrows the bytes that it was read from.

use cl_types::call::Kind;
use cl_types::frame::Head;
use cl_types::reply::ReplyRef;
use cl_types::request::RequestRef;

/// A request with its head.
#[derive(Clone, Copy)]
pub struct RequestView<'a> {
    pub head: Head,
    pub body: RequestRef<'a>,
}

/// A reply with its head, and the kind of the request that it answers.
#[derive(Clone, Copy)]
pub struct ReplyView<'a> {
    pub head: Head,
    pub kind: Kind,
    pub body: ReplyRef<'a>,
}
