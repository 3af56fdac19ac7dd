//! The numbers of `clio.h`: those that C hands in, and those that it is answered.

ghost use Rattle.std.specs.Prelude.{◌≡◌};
ghost use Rattle.frame_model.specs.Frames.{status_of};
ghost use Rattle.clio_c.specs.Numbers.{fault_number as number_of, heard_number as number_heard, op_named, perm_named};

use cl_types::call::{AtomicOp, Perm};
use cl_types::frame::IssueFault;
use cl_types::reply::Refusal;
use client_core::Heard;

/// What was asked for was done.
pub const OK: u32 = 0;

/// An allocation was refused.
pub const NO_MEMORY: u32 = 100;

/// An argument is out of its range.
pub const BAD_ARGUMENT: u32 = 101;

/// The client has issued 2^32 - 1 calls, and takes no other.
pub const USED_UP: u32 = 102;

/// The permission of this number.
pub fn perm_of(perm: u8) -> Option<Perm>
    ensures { result ≡ perm_named perm }
{
    match perm {
        1 => Some(Perm::ReadOnly),
        2 => Some(Perm::WriteOnly),
        3 => Some(Perm::ReadWrite),
        _ => None,
    }
}

/// The operation of this number on a word: `a` is what is added or expected, `b` what is put.
pub fn op_of(op: u8, a: u64, b: u64) -> Option<AtomicOp>
    ensures { result ≡ op_named op a b }
{
    match op {
        1 => Some(AtomicOp::Lock),
        2 => Some(AtomicOp::Unlock),
        3 => Some(AtomicOp::Add { n: a }),
        4 => Some(AtomicOp::Cas { expect: a, put: b }),
        _ => None,
    }
}

/// The number of a fault.
pub fn fault_number(fault: IssueFault) -> u32
    ensures { result ≡ number_of fault }
{
    match fault {
        IssueFault::QueueFull => 1,
        IssueFault::Empty => 2,
        IssueFault::TooLong { .. } => 3,
        IssueFault::BadAddress { .. } => 4,
        IssueFault::Misaligned { .. } => 5,
    }
}

/// The number of what was heard.
pub fn heard_number(heard: Heard) -> u32
    ensures { result ≡ number_heard heard }
{
    match heard {
        Heard::Took(_) => 0,
        Heard::Ended(_) => 1,
        Heard::Late { .. } => 2,
        Heard::Unfit { .. } => 3,
        Heard::Other { .. } => 4,
        Heard::Bad(_) => 5,
    }
}

/// The number of a refusal, which is its status in a frame.
pub fn refusal_number(refusal: Refusal) -> u64
    ensures { result ≡ status_of refusal }
{
    match refusal {
        Refusal::NoMapping => 1,
        Refusal::NoPermission => 2,
        Refusal::NoPage => 3,
        Refusal::NoRange => 4,
        Refusal::NoOffload => 5,
        Refusal::ObjectFull => 6,
        Refusal::NoKey => 7,
        Refusal::BadOp => 8,
    }
}
