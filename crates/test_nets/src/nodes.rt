// Nodes with some fields exchanged, by bytes.
use crate::programs::{bare, four, giving, matching, placed, selecting, two};
use nets::Node;
use record_bytes::{field, text_in};
use record_nodes::nodes::{function_at, test_at};
use record_nodes::operands::operand_in;
use rows::{Operands, Selector, Test};
use values::Operand;

// Operands of which so many count; `alike` says that all four are the first.
fn operands_of(count: u8, alike: bool, a: Operand, b: Operand) -> Operands {
    let list = if alike { four(a) } else { two(a, b) };
    Operands {
        count: count as usize,
        ..list
    }
}

// Body, table variables and name.
fn numbered(node: Node, e: [u8; 24]) -> Node {
    Node {
        body: e[5],
        bound: e[6],
        read: e[7],
        name: text_in(field(&e, 16)),
        ..node
    }
}

// Columns of other kinds.
fn making(node: Node, e: [u8; 24]) -> Node {
    Node {
        columns: e[5] as usize,
        kinds: [e[12], e[13], e[14], e[15]],
        ..node
    }
}

// Another predicate.
fn testing(node: Node, test: Test, left: Operand, right: Operand) -> Node {
    let selector = Selector {
        test,
        left,
        right,
        ..node.selector
    };
    selecting(node, selector)
}

// 4 another kind, 5 body, table variables and name, 6 function and column, 7 columns, 8 a drop with another next, 9 L, 10 T, 11 t, 12 the predicate, 13 T'.
pub fn node_of(node: Node, e: [u8; 24]) -> Node {
    let a = operand_in(field(&e, 8));
    let b = operand_in(field(&e, 16));
    match e[3] {
        4 => bare(e[5], 255),
        5 => numbered(node, e),
        6 => Node {
            function: function_at(e[5]),
            column: e[6],
            ..node
        },
        7 => making(node, e),
        8 => placed(24, e[5]),
        9 => Node {
            locality: a,
            ..node
        },
        10 => selecting(node, matching(operands_of(e[5], e[6] == 1, a, b))),
        11 => giving(node, operands_of(e[5], e[6] == 1, a, b)),
        12 => testing(node, test_at(e[5]), a, b),
        _ => Node { result: a, ..node },
    }
}
