// Start records, group 5: checks 4 and 8.
ghost use Rattle.std.specs.Prelude.{ℕ, ◌≡◌, List, [], map, MatchResult};
ghost use Rattle.nets.specs.declared.Saved.{Saved};
ghost use Rattle.nets.specs.Nets as M;
ghost use Rattle.nets.specs.View.{no_thread, thread_of, threads_of};
ghost use Rattle.record_bytes.specs.Bytes.{at};
ghost use Rattle.record_bytes.specs.Decoding.{site_at};
ghost use Rattle.files.specs.Loading.{fresh};
ghost use Rattle.load_walk.specs.Walking.{put_threads, Each, Unheld, unheld_of, Leads, Stops, Going};

use crate::blanks::blank_thread;
use crate::walk::{Item, walk};
use files::Fault;
use load_walk::walking::first_fault;
use load_walk::{Reach, Read};
use nets::{Entry, Frame, Thread};
use record_bytes::RECORD;
use record_forms::{record_site, start_form};

// A thread with nothing bound and one node to run. An entry to run holds nothing, so whatever is saved at its place is no matter.
fn start_in(r: &[u8; RECORD]) -> Thread
    ensures { (bs : ℕ → M.Bindings) → thread_of bs result ≡ fresh (site_at 1 r.now) (at r.now 2) }
{
    let mut t = Thread {
        site: record_site(r),
        depth: 1,
        ..blank_thread()
    };
    t.stack[0] = Frame {
        entry: Entry::Run(r[2]),
        visit: [false; 16],
    };
    t
}

impl Item for Thread {
    const GROUP: u8 = 5;

    ghost GROUP = { 5 };

    ghost ROOM = { 8 };

    ghost put = { λ ts. put_threads (map unheld_of ts) };

    ghost Kept = { Each Unheld no_thread };

    fn read(place: usize, r: &[u8; RECORD], before: &[Thread]) -> Result<Thread, Fault> {
        first_fault(place, start_form(r), true, before.len() < 8)?;
        Ok(start_in(r))
    }
}

// The threads that start, whatever the nodes are and whatever is saved.
pub fn starts_from(file: &[u8], from: Reach) -> Result<Read<Thread, 8>, Fault>
    requires { Going file.now 5 from }
    ensures { MatchResult result
        (λ read. ((ds : List M.Node) (saved : List Saved) → Leads file.now from read.reach (put_threads []) (put_threads (threads_of ds saved read.count read.items))) × Going file.now 6 read.reach)
        (λ fault. Stops file.now from fault (put_threads [])) }
{
    walk(file, from, blank_thread())
}
