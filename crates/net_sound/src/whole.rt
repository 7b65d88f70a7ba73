// Soundness as a test, for any net, also one whose counts are out of range.
ghost use Rattle.std.specs.Prelude.{◌≡◌};
ghost use Rattle.nets.specs.Sound.{sound};
ghost use Rattle.nets.specs.View.{view};

use crate::saved::threads_ok;
use net_parts::lists::{aliases_ok, net_tables_ok};
use net_parts::nodes::net_nodes_ok;
use nets::Net;

// A net may come from outside, so each count is judged before it is trusted.
pub fn sound_net(net: &Net) -> bool
    ensures { result ≡ sound (view net.now) }
{
    let Some(aliases) = net.aliases.get(..net.aliascount) else {
        return false;
    };
    let Some(tables) = net.tables.get(..net.tablecount) else {
        return false;
    };
    let Some(nodes) = net.nodes.get(..net.nodecount) else {
        return false;
    };
    let Some(threads) = net.threads.get(..net.threadcount) else {
        return false;
    };
    aliases_ok(aliases)
        & net_tables_ok(tables)
        & net_nodes_ok(nodes)
        & threads_ok(nodes, threads, &net.saved)
}
