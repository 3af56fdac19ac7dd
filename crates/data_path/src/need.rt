//! What a request needs of a page's permission.

ghost use Rattle.std.specs.Prelude.{◌≡◌};
ghost use Rattle.data_path.specs.Access.{allows};

use cl_types::call::Perm;

/// What is to be done with the bytes of a page.
#[derive(Clone, Copy, Debug, PartialEq, Eq)]
pub enum Need {
    /// They are read.
    Read,
    /// They are written.
    Write,
    /// They are read and written.
    Change,
}

/// Whether the permission is enough.
pub fn is_allowed(need: Need, perm: Perm) -> bool
    ensures { result ≡ allows need perm }
{
    match (need, perm) {
        (_, Perm::ReadWrite) => true,
        (Need::Read, Perm::ReadOnly) => true,
        (Need::Write, Perm::WriteOnly) => true,
        (_, Perm::ReadOnly) | (_, Perm::WriteOnly) => false,
    }
}
