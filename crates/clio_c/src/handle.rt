//! A client on the heap, as C holds it.

ghost use Rattle.std.specs.Prelude.{◌≡◌};
ghost use Rattle.client_model.specs.Client.{ClientState};

use crate::loose::Loose;
use client_core::Client;
use std::alloc::Global;
use std::marker::Model;

/// The address of a client. The allocator takes no bytes.
#[repr(C)]
pub struct Handle {
    at: *mut u8,
    alloc: Global,
    pub ghost value: { ClientState },
}

impl Model for Handle {
    ghost use Rattle.clio_c.specs.Owned.{keeps};
    ghost use Rattle.client_model.specs.Client.{ClientState};

    ghost also_owns = { λ h. keeps h.alloc h.at h.value };
}

impl Handle {
    fn into_loose(self) -> Loose<Client, Global>
        ensures { result.value ≡ self.value }
    {
        let Handle { at, alloc } = self;
        Loose {
            at: at as *mut Client,
            alloc,
        }
    }

    /// The client, in its box.
    pub fn into_box(self) -> Box<Client>
        ensures { result.value ≡ self.value }
    {
        self.into_loose().into_box()
    }
}

/// The address alone.
pub fn address(at: *mut Client) -> *mut u8
    ensures { result ≡ at }
{
    at as *mut u8
}
