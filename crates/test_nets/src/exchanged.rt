// Nets by bytes: one net with one part exchanged for another. Of 24 bytes, byte 2 says which net, byte 3 which part, and the others its place and what it becomes. Operands are as in records.
// Nets: 0 the sound one with two aliases, two tables, a node of each kind and two threads; 1 to 5 eight tables, all aliases, all nodes, eight threads, eight entries; 6 a loop past the nodes; 7 loops over both
// table variables, node 7 a sequential and node 8 a parallel one over table variable 1, and a stack by bytes.
// Parts: 1 counts, 2 an alias, 3 a table, 4 to 13 a node, 14 to 17 a thread, 18 what a loop's entry holds. What lies past a count is out of every range, and so is what is saved for
// an entry that holds nothing.
use crate::contents::{CARD, cards, content_of, logs, no_relation};
use crate::nodes::node_of;
use crate::programs::{looping, nodes, over_second, placed};
use crate::saved::saved_of;
use crate::stacks::{nested, thread_of};
use crate::threads::{busy_thread, eight_entries, no_thread};
use nets::{Alias, Net, Node, Table, Thread};
use record_bytes::{field, text_in};
use rows::Relation;
use values::{Locality, Site};

// ---- aliases

fn alias(site: u8, locality: u8, means: u8) -> Alias {
    Alias {
        site: Site(site),
        locality: Locality(locality),
        means: Site(means),
    }
}

// Every locality 1..7 of every site.
fn all_aliases() -> [Alias; 56] {
    let mut aliases = [alias(0, 1, 0); 56];
    for i in 0..56_u8 {
        aliases[i as usize] = alias(i / 7, i % 7 + 1, i % 8);
    }
    aliases
}

fn aliases_of(e: [u8; 24]) -> [Alias; 56] {
    if e[2] == 2 {
        return all_aliases();
    }
    let mut aliases = [alias(9, 9, 9); 56];
    aliases[0] = alias(0, 1, 1);
    aliases[1] = alias(1, 2, 0);
    if e[3] == 2 {
        aliases[1] = alias(e[4], e[5], e[6]);
    }
    aliases
}

// ---- tables

fn table(site: u8, name: u32, content: Relation) -> Table {
    Table {
        site: Site(site),
        name,
        content,
    }
}

// CARD and seven names above it, at site 0.
fn eight_tables() -> [Table; 8] {
    let mut tables = [table(0, CARD, cards()); 8];
    for i in 0..8_u8 {
        tables[i as usize].name = CARD + (i as u32);
    }
    tables
}

fn tables_of(e: [u8; 24]) -> [Table; 8] {
    let name = text_in(field(&e, 16));
    if e[2] == 1 {
        return eight_tables();
    }
    let mut tables = [table(9, 0, no_relation()); 8];
    tables[0] = table(1, CARD, cards());
    tables[1] = table(0, 0x4c4f4753, logs());
    if e[3] == 3 {
        tables[0] = table(e[4], name, content_of(e));
    }
    tables
}

// ---- nodes

// Drops, but for the loop that the threads are in.
fn all_nodes() -> [Node; 128] {
    let mut nodes = [placed(24, 255); 128];
    nodes[9] = looping(25, 10);
    nodes
}

fn nodes_of(e: [u8; 24]) -> [Node; 128] {
    if e[2] == 3 {
        return all_nodes();
    }
    let mut nodes = nodes();
    if e[2] == 6 {
        nodes[12] = looping(25, 255);
    }
    if e[2] == 7 {
        nodes[7] = over_second(looping(25, 8));
        nodes[8] = over_second(looping(26, 9));
    }
    if (3 < e[3]) & (e[3] < 14) {
        let at = (e[4] % 128) as usize;
        nodes[at] = node_of(nodes[at], e);
    }
    nodes
}

// ---- threads

fn whole_thread(e: [u8; 24]) -> Thread {
    let thread = busy_thread();
    if e[2] == 5 {
        return eight_entries(thread);
    }
    if e[2] == 7 {
        return nested(thread, e);
    }
    thread
}

fn first_thread(e: [u8; 24]) -> Thread {
    let thread = whole_thread(e);
    if (13 < e[3]) & (e[3] < 18) {
        return thread_of(thread, e);
    }
    thread
}

fn threads_of(e: [u8; 24]) -> [Thread; 8] {
    let other = if e[2] == 4 {
        busy_thread()
    } else {
        no_thread()
    };
    let mut threads = [other; 8];
    threads[0] = first_thread(e);
    threads[1] = busy_thread();
    threads
}

// ---- the net

// A count as the bytes tell it, or that of a full list, or of the other nets.
fn count_of(told: bool, number: u8, full: bool, many: usize, few: usize) -> usize {
    if told {
        number as usize
    } else if full {
        many
    } else {
        few
    }
}

pub fn exchanged(e: [u8; 24]) -> Net {
    let told = e[3] == 1;
    let aliases = aliases_of(e);
    let tables = tables_of(e);
    let nodes = nodes_of(e);
    let threads = threads_of(e);
    let saved = saved_of(whole_thread(e), threads, e);
    Net {
        aliases,
        aliascount: count_of(told, e[4], e[2] == 2, 56, 2),
        tables,
        tablecount: count_of(told, e[5], e[2] == 1, 8, 2),
        nodes,
        nodecount: count_of(told, e[6], e[2] == 3, 128, 12),
        threads,
        threadcount: count_of(told, e[7], e[2] == 4, 8, 2),
        saved,
    }
}
