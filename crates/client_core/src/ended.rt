//! A call that has ended.

use cl_types::call::Call;
use cl_types::numbers::CallNo;
use cl_types::reply::Answer;

/// A call that has ended, its buffer filled as the answer tells.
#[derive(Drop)]
pub struct Ended {
    pub no: CallNo,
    pub answer: Answer,
    pub call: Call,
}
