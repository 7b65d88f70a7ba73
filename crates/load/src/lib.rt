// Loading: checks 1 to 9 in order, and the net and picks of a file that passes them.
#![tactic(auto)]

ghost use Rattle.std.specs.Prelude.{◌≡◌, Ok, Err, List, MatchResult};
ghost use Rattle.nets.specs.declared.Saved.{Saved};
ghost use Rattle.nets.specs.View.{view};
ghost use Rattle.record_bytes.specs.Decoding.{records_in};
ghost use Rattle.files.specs.Empty.{blank_net};
ghost use Rattle.files.specs.Engine.{LoadIs};
ghost use Rattle.files.specs.Loading.{nothing_read, stopped, read_all, rejected, accepted, load_bytes};
ghost use Rattle.load_walk.specs.Walking.{Whole};
ghost use Rattle.load.specs.Lengths.{LengthPasses, LengthFails, Finishes, net_read, picks_read};

use files::{Fault, Loaded};
use load_groups::aliases::aliases_from;
use load_groups::blanks::{blank_net, blank_saved};
use load_groups::contents::rows_from;
use load_groups::ending::reach_end;
use load_groups::nodes::nodes_from;
use load_groups::picks::picks_from;
use load_groups::starts::starts_from;
use load_groups::tables::tables_from;
use load_links::bad_link;
use load_walk::{Reach, Read};
use nets::{Alias, Net, Node, Pick, Table, Thread};
use record_bytes::RECORD;

// Checks 1 and 2, which ask for the length alone: of a file in memory, or of one that is longer than any that loads.
pub fn length_fault(length: usize) -> Result<(), Fault>
    ensures { MatchResult result (λ whole. LengthPasses length) (λ fault. LengthFails length fault) }
{
    let count = length / RECORD;
    if length % RECORD != 0 {
        return Err(Fault {
            number: 1,
            place: count,
        });
    }
    if 256 < count {
        return Err(Fault {
            number: 2,
            place: 256,
        });
    }
    Ok(())
}

// What the records of a file gave, group by group. The net is put together from it where it is handed back: it is more than twice as large, and what a `Result` holds is copied.
#[derive(Clone, Copy)]
struct Records {
    aliases: Read<Alias, 56>,
    tables: Read<Table, 8>,
    nodes: Read<Node, 128>,
    threads: Read<Thread, 8>,
    picks: Read<Pick, 256>,
}

// Checks 3 to 8, group after group.
fn read_all(file: &[u8]) -> Result<Records, Fault>
    requires { Whole file.now }
    ensures { MatchResult result
        (λ read. (saved : List Saved) → Finishes (read_all 0 nothing_read (records_in file.now)) (view (net_read saved read)) (picks_read read))
        (λ fault. read_all 0 nothing_read (records_in file.now) ≡ stopped fault.number fault.place) }
{
    let start = Reach { place: 0, group: 0 };
    let aliases = aliases_from(file, start)?;
    let labels = tables_from(file, aliases.reach)?;
    let tables = rows_from(file, labels)?;
    let nodes = nodes_from(file, tables.reach)?;
    let threads = starts_from(file, nodes.reach)?;
    let picks = picks_from(file, threads.reach)?;
    reach_end(file, picks.reach)?;
    Ok(Records {
        aliases,
        tables,
        nodes,
        threads,
        picks,
    })
}

// The first fault of checks 1 to 9, or what the records gave.
fn file_read(file: &[u8]) -> Result<Records, Fault>
    ensures { MatchResult result
        (λ read. (saved : List Saved) → load_bytes file.now ≡ accepted (view (net_read saved read)) (picks_read read))
        (λ fault. load_bytes file.now ≡ rejected fault.number fault.place) }
{
    length_fault(file.len())?;
    let read = read_all(file);
    if let Ok(records) = &read {
        if let Some(place) = bad_link(file, records.nodes.count) {
            return Err(Fault { number: 9, place });
        }
    }
    read
}

// A refused file: the empty net and no picks.
fn refused(fault: Fault) -> Loaded
    ensures { (result.verdict ≡ Err fault) × (result.net ≡ blank_net) × (result.pickcount ≡ 0) }
{
    Loaded {
        verdict: Err(fault),
        net: blank_net(),
        picks: [Pick { thread: 0, row: 0 }; 256],
        pickcount: 0,
    }
}

// What the records gave, as a net and picks. A function of its own, since `load` copied more where it put the net together itself.
fn accepted(read: &Records) -> Loaded
    ensures { (result.verdict ≡ Ok tt) × (result.net ≡ net_read result.net.saved read.now) × (result.picks ≡ read.now.picks.items) × (result.pickcount ≡ read.now.picks.count) }
{
    let aliases = read.aliases.items;
    let tables = read.tables.items;
    let nodes = read.nodes.items;
    let threads = read.threads.items;
    let picks = read.picks.items;
    let saved = blank_saved();
    Loaded {
        verdict: Ok(()),
        net: Net {
            aliases,
            aliascount: read.aliases.count,
            tables,
            tablecount: read.tables.count,
            nodes,
            nodecount: read.nodes.count,
            threads,
            threadcount: read.threads.count,
            saved: [saved; 64],
        },
        picks,
        pickcount: read.picks.count,
    }
}

// The net and the picks, or the first fault.
pub fn load(file: &[u8]) -> Loaded
    ensures { LoadIs file.now result }
{
    let read = match file_read(file) {
        Ok(read) => read,
        Err(fault) => return refused(fault),
    };
    accepted(&read)
}
