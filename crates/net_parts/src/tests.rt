// Slices longer than the arrays of a net, which has at most 8 tables and 128 nodes.
use crate::lists::{net_tables_ok, tables_ok};
use crate::nodes::{net_nodes_ok, nodes_ok};
use nets::kinds::DROP;
use nets::{Node, Table};
use rows::{Function, Operands, Relation, Row, Selector, Test};
use values::{Locality, Operand, Site, Value};

// A table without rows, of one column of Ints; its name is a letter.
fn table_of(letter: u8) -> Table {
    let row = Row {
        cells: [Value::Int(0); 4],
    };
    let content = Relation {
        columns: 1,
        kinds: [1, 0, 0, 0],
        rows: [row; 16],
        count: 0,
    };
    Table {
        site: Site(1),
        name: u32::from_be_bytes([letter, b' ', b' ', b' ']),
        content,
    }
}

#[test]
fn nine_tables_are_judged_and_are_too_many_for_a_net(rt: HostRuntime) {
    let mut tables = b"ABCDEFGHI".map(|letter| table_of(letter));
    assert!(rt; tables_ok(&tables));
    assert!(rt; net_tables_ok(&tables[..8]));
    assert!(rt; !net_tables_ok(&tables));
    tables[8].site = Site(8);
    assert!(rt; !tables_ok(&tables));
    tables[8] = tables[0];
    assert!(rt; !tables_ok(&tables));
}

// Drops table T at locality 1, and ends the thread.
fn drop_node() -> Node {
    let none = Operands {
        fields: [Operand::Absent; 4],
        count: 0,
    };
    Node {
        kind: DROP,
        next: 255,
        body: 0,
        name: u32::from_be_bytes(*b"T   "),
        bound: 0,
        read: 0,
        function: Function::Unused,
        column: 0,
        columns: 0,
        kinds: [0; 4],
        locality: Operand::ConstLoc(Locality(1)),
        selector: Selector {
            template: none,
            test: Test::Always,
            left: Operand::Absent,
            right: Operand::Absent,
        },
        tuple: none,
        result: Operand::Absent,
    }
}

#[test]
fn nodes_past_128_are_judged_and_are_too_many_for_a_net(rt: HostRuntime) {
    let mut nodes = [drop_node(); 129];
    assert!(rt; nodes_ok(&nodes));
    assert!(rt; net_nodes_ok(&nodes[..128]));
    assert!(rt; !net_nodes_ok(&nodes));
    nodes[0].next = 128;
    assert!(rt; nodes_ok(&nodes));
    nodes[128].body = 1;
    assert!(rt; !nodes_ok(&nodes));
}
