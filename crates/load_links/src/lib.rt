// Check 9: the links of nodes and starts to the nodes of the file, record by record.
#![tactic(auto)]

ghost use Rattle.std.specs.Prelude.{◌≡◌, cond, ◌+◌, ◌≤◌, T, eqb, ltb, length};
ghost use Rattle.std.specs.List.{list_all};
ghost use Rattle.record_bytes.specs.Decoding.{records_in};
ghost use Rattle.files.specs.Loading.{first_bad_link};
ghost use Rattle.load_walk.specs.Walking.{Whole, is_good, LinkIs};

use load_walk::walking::record_at;
use net_parts::nodes::links_at;
use record_bytes::RECORD;
use record_forms::group_of;

// Check 9 of a start: its node is among the `n` nodes.
fn start_ok(node: u8, n: usize) -> bool
    ensures { result ≡ ltb node n }
{
    (node as usize) < n
}

// The number of the node met next, after a record of this group.
fn number_after(group: u8, j: usize) -> usize
    requires { j ≤ 256 }
    ensures { result ≡ cond (eqb group 4) (j + 1) j }
{
    if group == 4 { j + 1 } else { j }
}

// Check 9 of one record, with `n` nodes in all; `j` is the number of the node met next, which is this record's if it is a node.
fn link_ok(r: &[u8; RECORD], n: usize, j: usize) -> bool
    ensures { LinkIs n j r.now result }
{
    let kind = r[0];
    match group_of(kind) {
        4 => links_at(kind, r[1], r[2], j, n),
        5 => start_ok(r[2], n),
        _ => true,
    }
}

// The place of the first record that fails check 9.
pub fn bad_link(file: &[u8], n: usize) -> Option<usize>
    requires { Whole file.now × T (list_all is_good (records_in file.now)) }
    ensures { result ≡ first_bad_link n 0 0 (records_in file.now) }
{
    let mut j: usize = 0;
    for i in 0..file.len() / RECORD {
        let r = record_at(file, i);
        if !link_ok(r, n, j) {
            return Some(i);
        }
        j = number_after(group_of(r[0]), j);
    }
    None
}
