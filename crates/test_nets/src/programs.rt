// The nodes of the net: node i is of kind 16 + i, and node 11 is a drop that the loops have as their body.
use crate::contents::CARD;
use nets::Node;
use rows::{Function, Operands, Selector, Test};
use values::{Locality, Operand};

// ---- operands

pub fn two(a: Operand, b: Operand) -> Operands {
    let none = Operand::Formal(99);
    Operands {
        fields: [a, b, none, none],
        count: 2,
    }
}

// No operands; what lies past the count is out of range.
fn none() -> Operands {
    Operands {
        fields: [Operand::Formal(99); 4],
        count: 0,
    }
}

// Four operands of one sort, no formals.
pub fn four(a: Operand) -> Operands {
    Operands {
        fields: [a; 4],
        count: 4,
    }
}

// Any row of two columns.
fn formals() -> Operands {
    two(Operand::Formal(3), Operand::Formal(4))
}

pub fn matching(template: Operands) -> Selector {
    Selector {
        template,
        test: Test::Always,
        left: Operand::Absent,
        right: Operand::Absent,
    }
}

// Rows of a number below 40.
fn below_forty() -> Selector {
    Selector {
        template: formals(),
        test: Test::Less,
        left: Operand::Var(4),
        right: Operand::ConstInt(40),
    }
}

// ---- nodes

// A node that uses no field beside next.
pub fn bare(kind: u8, next: u8) -> Node {
    Node {
        kind,
        next,
        body: 0,
        name: 0,
        bound: 0,
        read: 0,
        function: Function::Unused,
        column: 0,
        columns: 0,
        kinds: [4; 4],
        locality: Operand::Absent,
        selector: matching(none()),
        tuple: none(),
        result: Operand::Absent,
    }
}

// A node on the table CARD at the site that locality 1 means.
pub fn placed(kind: u8, next: u8) -> Node {
    Node {
        name: CARD,
        locality: Operand::ConstLoc(Locality(1)),
        ..bare(kind, next)
    }
}

// The same node with another template and predicate.
pub fn selecting(node: Node, selector: Selector) -> Node {
    Node { selector, ..node }
}

pub fn giving(node: Node, tuple: Operands) -> Node {
    Node { tuple, ..node }
}

// The sum of the second column, bound to variable 5.
fn aggregate(next: u8) -> Node {
    Node {
        function: Function::Sum,
        column: 1,
        selector: below_forty(),
        result: Operand::Formal(5),
        ..placed(22, next)
    }
}

// Text and Int.
fn create(next: u8) -> Node {
    Node {
        columns: 2,
        kinds: [2, 1, 4, 4],
        ..placed(23, next)
    }
}

pub fn looping(kind: u8, next: u8) -> Node {
    Node {
        body: 11,
        selector: matching(formals()),
        ..bare(kind, next)
    }
}

// The same loop over table variable 1.
pub fn over_second(node: Node) -> Node {
    Node { read: 1, ..node }
}

// ---- all of them

pub fn nodes() -> [Node; 128] {
    let row = two(Operand::ConstText(0x4e455731), Operand::Plus(0, 1));
    let values = two(Operand::Var(3), Operand::Var(4));
    let mut nodes = [bare(99, 0); 128];
    nodes[0] = giving(placed(16, 1), row);
    nodes[1] = placed(17, 2);
    nodes[2] = selecting(placed(18, 3), below_forty());
    nodes[3] = giving(selecting(placed(19, 4), below_forty()), values);
    nodes[4] = giving(selecting(bare(20, 5), below_forty()), values);
    nodes[5] = giving(selecting(placed(21, 6), below_forty()), values);
    nodes[6] = aggregate(7);
    nodes[7] = create(8);
    nodes[8] = placed(24, 9);
    nodes[9] = looping(25, 10);
    nodes[10] = looping(26, 255);
    nodes[11] = placed(24, 255);
    nodes
}
