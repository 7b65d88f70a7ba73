// Node records, group 4: checks 4 and 8.
ghost use Rattle.std.specs.Prelude.{[], map, MatchResult};
ghost use Rattle.nets.specs.View.{node_of, nodes_of};
ghost use Rattle.load_walk.specs.Walking.{put_nodes, LeadsPast, Stops, Going};

use crate::blanks::blank_node;
use crate::walk::{Item, walk};
use files::Fault;
use load_walk::walking::first_fault;
use load_walk::{Reach, Read};
use nets::Node;
use record_bytes::RECORD;
use record_nodes::nodes::node_read;

impl Item for Node {
    const GROUP: u8 = 4;

    ghost GROUP = { 4 };

    ghost ROOM = { 128 };

    ghost put = { λ ds. put_nodes (map node_of ds) };

    ghost Kept = { λ ds. Unit {0} };

    fn read(place: usize, r: &[u8; RECORD], before: &[Node]) -> Result<Node, Fault> {
        let node = node_read(r);
        first_fault(place, node.is_some(), true, before.len() < 128)?;
        Ok(node.unwrap())
    }
}

pub fn nodes_from(file: &[u8], from: Reach) -> Result<Read<Node, 128>, Fault>
    requires { Going file.now 4 from }
    ensures { MatchResult result
        (λ read. LeadsPast file.now 4 from read.reach (put_nodes []) (put_nodes (nodes_of read.count read.items)))
        (λ fault. Stops file.now from fault (put_nodes [])) }
{
    walk(file, from, blank_node())
}
