//! Frames, read where they lie and written in place.
//!
//! `read_request` and `read_reply` judge bytes that come from outside. `write_request`,
//! `write_reply`, `write_got` and `write_small` spell a value at the start of a buffer. No call takes
//! memory.
//!
//! A contract sees bytes as a list, and the view of a frame as its head and the request or reply
//! that it borrows (`request_of`, `reply_of`); the view of a reply has its kind too. Which bytes
//! spell which value, and which fault is told of others, stands in `flat_model`.
//!
//! That a call reads each field once, and that no byte is copied but those of a payload that is
//! written, can be seen in the code, and no clause says it.
#![tactic(auto)]

mod headers;
pub mod laws;
mod places;
mod reply_reader;
mod reply_writer;
mod request_reader;
mod request_writer;
mod views;

pub use crate::headers::HEADER_BYTES;
pub use crate::reply_reader::read_reply;
pub use crate::reply_writer::{write_got, write_reply, write_small};
pub use crate::request_reader::read_request;
pub use crate::request_writer::{kind_of, write_request};
pub use crate::views::{ReplyView, RequestView};
pub use cl_types::frame::{BadFrame, FieldName, Head};
