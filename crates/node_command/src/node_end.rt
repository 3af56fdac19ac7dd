//! How the command ends.

ghost use Rattle.std.specs.Prelude.{◌≡◌};
ghost use Rattle.node_command.specs.Ends.{end_by};
ghost use Rattle.node_command.specs.Writing.{cut_end, ends_by};

use cl_types::items::NoMemory;
use node_core::Node;
use wire_loop::ServeEnd;

/// How the command ended.
#[derive(Drop)]
pub enum NodeEnd {
    /// The node was served, to as many datagrams or idle turns as were asked for.
    Served(Node),
    /// The configuration does not open.
    BadNode,
    /// The bind failed, or a receive or a send.
    WireFault,
    /// A write failed.
    WriteFault,
    /// An allocation was refused.
    NoMemory,
}

/// Why a line was not written.
#[derive(Clone, Copy, Debug, PartialEq, Eq)]
pub enum Cut {
    /// A write failed: the sink's count of faults rose.
    WriteFault,
    /// An allocation was refused.
    NoMemory,
}

impl From<NoMemory> for Cut {
    ghost use Rattle.std.specs.Prelude.{◌≡◌};
    ghost use Rattle.node_command.specs.declared.node_end.Cut.TheVariants.{NoMemory};

    ghost from_gives = { λ _ cut. cut ≡ NoMemory };

    fn from(_error: NoMemory) -> Self {
        Cut::NoMemory
    }
}

/// The end of a command whose text was cut.
pub fn end_of_cut(cut: Cut) -> NodeEnd
    ensures { result ≡ cut_end cut }
{
    match cut {
        Cut::WriteFault => NodeEnd::WriteFault,
        Cut::NoMemory => NodeEnd::NoMemory,
    }
}

/// The end of a command whose node was served to this end.
pub fn end_of_served(how: ServeEnd, node: Node) -> NodeEnd
    ensures { result ≡ end_by how node }
{
    match how {
        ServeEnd::Frames | ServeEnd::Idles { frames: _ } => NodeEnd::Served(node),
        ServeEnd::WireFault { frames: _ } => NodeEnd::WireFault,
    }
}

/// The end of a command whose node was served to this end, or whose text was cut.
pub fn end_of_serving(ended: Result<ServeEnd, Cut>, node: Node) -> NodeEnd
    ensures { result ≡ ends_by ended node }
{
    match ended {
        Ok(how) => end_of_served(how, node),
        Err(cut) => end_of_cut(cut),
    }
}
