// A thread as records.
ghost use Rattle.std.specs.Prelude.{◌≡◌, ◌*◌, ◌≤◌, length};
ghost use Rattle.value_bytes.specs.Bytes.{end_to_end};
ghost use Rattle.call_hold.specs.Holdings.{stack_given, thread_given, ThreadShaped};

use crate::bindings::{bindings_records, put_bindings};
use crate::entries::{entry_records, held_by, put_with_held};
use crate::records::thread_head;
use nets::{Saved, Thread};
use record_bytes::RECORD;

// How many records the entries have, each with what it holds. `saved` has a place for each entry.
fn count_stack(t: Thread, saved: [Saved; 8], holds: [u8; 256]) -> usize
    requires { ThreadShaped holds saved t }
    ensures { (result ≡ length (stack_given holds saved t t.depth)) × (result ≤ 408) }
{
    let mut total = 0;
    for i in 0..t.depth {
        let held = held_by(t.stack[i], holds);
        total += entry_records(held, t.relations, saved[i]);
    }
    total
}

// The stack from the top down.
fn put_stack(out: &mut [u8], t: Thread, saved: [Saved; 8], holds: [u8; 256])
    requires { ThreadShaped holds saved t × (length out.old ≡ length (stack_given holds saved t t.depth) * 104) }
    ensures { out.new ≡ end_to_end (stack_given holds saved t t.depth) }
{
    let mut at = 0;
    for left in (0..t.depth).rev() {
        let f = t.stack[left];
        let held = held_by(f, holds);
        let end = at + entry_records(held, t.relations, saved[left]) * RECORD;
        put_with_held(&mut out[at..end], f, held, t.relations, saved[left]);
        at = end;
    }
}

// How many records a thread has: its own, those of its bindings, and those of its entries.
pub fn count_records(t: Thread, saved: [Saved; 8], holds: [u8; 256]) -> usize
    requires { ThreadShaped holds saved t }
    ensures { (result ≡ length (thread_given holds saved t)) × (result ≤ 459) }
{
    1 + bindings_records(t.relations) + count_stack(t, saved, holds)
}

pub fn put_records(out: &mut [u8], t: Thread, saved: [Saved; 8], holds: [u8; 256])
    requires { ThreadShaped holds saved t × (length out.old ≡ length (thread_given holds saved t) * 104) }
    ensures { out.new ≡ end_to_end (thread_given holds saved t) }
{
    let middle = RECORD + bindings_records(t.relations) * RECORD;
    let end = out.len();
    out[0..RECORD].copy_from_slice(&thread_head(t.site, t.depth));
    put_bindings(&mut out[RECORD..middle], t.vars, t.relations);
    put_stack(&mut out[middle..end], t, saved, holds);
}
