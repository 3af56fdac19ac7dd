//! `Note`: what a world keeps of a frame that was sent, beside its bytes.

use cl_types::reply::Part;
use cl_types::request::Request;

/// A note on a frame.
#[derive(Drop)]
pub struct Note {
    /// The part that the frame carries.
    pub part: Part,
    /// The request that the frame answers, where the node looked it up: its entry is made where the
    /// reply is taken.
    pub looked: Option<Request>,
}
