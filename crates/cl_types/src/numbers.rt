//! Numbers with a meaning. A clause sees each as the record of its one field, and a `Pid` as its number.

ghost use Rattle.std.specs.Prelude.{◌≡◌, ◌<◌, ◌≤◌, ◌↔◌, IsSome, IfSome};

use std::marker::Model;

/// The greatest number of a process. The numbers above it are those of the offloads' spaces.
pub const LAST_PID: u16 = 65_279;

/// The number of the first offload's space, behind those of the processes.
pub const OFFLOAD_SPACES: u16 = 65_280;

/// The number of a client: any. Two clients of one node never share a number.
#[derive(Clone, Copy, Debug, PartialEq, Eq)]
pub struct ClientNo(pub u16);

/// The number of a call of one client, from 1 in order of issue.
#[derive(Clone, Copy, Debug, PartialEq, Eq)]
pub struct CallNo(pub u32);

/// The number of a page in its space: 1 to 65,535. Page 0 is never mapped.
#[derive(Clone, Copy, Debug, PartialEq, Eq)]
pub struct Vpn(pub u16);

/// The number of a physical page of the node, from 0.
#[derive(Clone, Copy, Debug, PartialEq, Eq)]
pub struct PageNo(pub u32);

/// An address in a space, in bytes: the number of its page times 4,096, plus the offset in the page. A good one is
/// below 2^28.
#[derive(Clone, Copy, Debug, PartialEq, Eq)]
pub struct Addr(pub u32);

/// The number of any space: a process's own, or `OFFLOAD_SPACES` + k for offload k.
#[derive(Clone, Copy, Debug, PartialEq, Eq)]
pub struct Space16(pub u16);

/// The number of a process: 1 to `LAST_PID`.
#[derive(Clone, Copy, Debug, PartialEq, Eq)]
pub struct Pid(u16);

impl Model for Pid {
    ghost use Rattle.std.specs.Prelude.{ℕ, ◌<◌, ◌≤◌};
    ghost use Rattle.cl_types.specs.declared.numbers.TheConstants.{LAST_PID};

    ghost Value = { ℕ };

    ghost view = { λ pid. pid.0 };

    ghost invariant = { λ pid. (0 < pid.0) × (pid.0 ≤ LAST_PID) };

    ghost inverse = { λ n. record { 0 = n } };
}

impl Pid {
    /// The number.
    pub fn number(self) -> u16
        ensures value { result ≡ self }
        ensures range { (0 < result) × (result ≤ LAST_PID) }
    {
        self.0
    }
}

/// The process of this number. `None` comes exactly where the number is 0 or above `LAST_PID`.
pub fn try_pid(n: u16) -> Option<Pid>
    ensures some { IsSome result ↔ ((0 < n) × (n ≤ LAST_PID)) }
    ensures value { IfSome result (λ pid. pid ≡ n) }
{
    if n == 0 || n > LAST_PID {
        return None;
    }
    Some(Pid(n))
}
