// Which nodes are sequential loops: their entries hold bindings.
ghost use Rattle.std.specs.Prelude.{◌≡◌, map, ◌≤◌, length};
ghost use Rattle.nets.specs.View.{node_of};
ghost use Rattle.call_hold.specs.Holdings.{holds_by, HoldsAre};

use nets::Node;
use nets::kinds::is_sequential;

// 0 for a node whose entries hold nothing, else 1 or 2 for a loop that reads table variable 0 or 1.
fn holds_by(d: Node) -> u8
    ensures { result ≡ holds_by (node_of d) }
{
    if !is_sequential(d.kind) {
        return 0;
    }
    if d.read == 0 { 1 } else { 2 }
}

// For every number that an entry's node can have, so that nothing is asked of it. This is handed to what goes through stacks in place of the nodes, which are
// many times as long.
pub fn all_holds(nodes: &[Node]) -> [u8; 256]
    requires { length nodes.now ≤ 128 }
    ensures { HoldsAre (map node_of nodes.now) result }
{
    let mut holds = [0; 256];
    for (i, d) in nodes.iter().enumerate() {
        holds[i] = holds_by(*d);
    }
    holds
}
