// A task: a formula as nodes, each before the nodes of its operands.
ghost use Rattle.std.specs.Prelude.{◌≡◌, ◌≤◌, [], vec_len};
ghost use Rattle.ltlf.specs.Nodes.{temporal_nodes};

use crate::node::Node;
use std::alloc::Global;

// A task has at most this many signs and letters.
pub const MAX_SIGNS: usize = 64;

// A task for `actions` actions. The zero task has no actions and no nodes.
#[derive(Drop)]
pub struct Task {
    pub(crate) actions: u8,
    pub(crate) nodes: Vec<Node>,
    ghost small: { actions ≤ 16 },
    ghost few: { vec_len nodes ≤ 64 },
    ghost mild: { temporal_nodes nodes.items ≤ 7 },
}

impl Task {
    // The zero task, into which a text can be read.
    pub fn zero(heap: Global) -> Task
        ensures actions { result.actions ≡ 0 }
        ensures nodes { result.nodes.items ≡ [] }
    {
        Task {
            actions: 0,
            nodes: Vec::new(heap),
        }
    }

    // The number of actions that the task was read for.
    pub fn actions(&self) -> u8
        ensures { result ≡ self.now.actions }
    {
        self.actions
    }

    // The nodes, the outermost sign first.
    pub fn nodes(&self) -> &[Node]
        ensures { result.now ≡ self.now.nodes.items }
    {
        self.nodes.as_slice()
    }
}
