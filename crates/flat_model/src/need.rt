//! What a request needs of a page's permission.

ghost use Rattle.std.specs.Prelude.{◌≡◌};
ghost use Rattle.flat_model.specs.Rows.{allows};
ghost use Rattle.flat_model.specs.Step.{may_read};

use cl_types::call::Perm;

/// What is to be done with a page that gets bytes by it.
#[derive(Clone, Copy)]
pub enum Need {
    /// It is written.
    Write,
    /// It is read and written.
    Change,
}

/// Whether the page may be read.
pub fn may_be_read(perm: Perm) -> bool
    ensures { result ≡ may_read perm }
{
    match perm {
        Perm::ReadOnly | Perm::ReadWrite => true,
        Perm::WriteOnly => false,
    }
}

/// Whether the page's permission is enough.
pub fn is_allowed(need: Need, perm: Perm) -> bool
    ensures { result ≡ allows need perm }
{
    match (need, perm) {
        (_, Perm::ReadWrite) => true,
        (Need::Write, Perm::WriteOnly) => true,
        (_, Perm::WriteOnly) | (_, Perm::ReadOnly) => false,
    }
}
