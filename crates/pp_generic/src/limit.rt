//! How large a sort may become.

ghost use Rattle.std.specs.Prelude.{◌≡◌, ◌+◌, OnOk};

use crate::NoMemory;

/// The most nodes of a sort that is made with others in the place of its parameters; for a larger one there is no
/// memory. A type that is written down has fewer nodes, since a source has at most 262,144 bytes, two or more a node.
pub const MOST_NODES: u32 = 1 << 17;

/// Takes one of the nodes that are left. The only error is want of memory: none is left.
pub(crate) fn take_node(left: &mut u32) -> Result<(), NoMemory>
    ensures { OnOk result (left.new + 1 ≡ left.old) }
{
    if *left == 0 {
        return Err(NoMemory);
    }
    *left -= 1;
    Ok(())
}
