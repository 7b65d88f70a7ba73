// Picks carried out one after the other. The net stays where it is: its elements are read and stored at their places here, since a net handed on is a net copied.
#![tactic(auto)]

ghost use Rattle.std.specs.Prelude.{◌≡◌, ◌≤◌, T, length};
ghost use Rattle.value_bytes.specs.Bytes.{put_all};
ghost use Rattle.nets.specs.Sound.{sound};
ghost use Rattle.nets.specs.View.{view};
ghost use Rattle.step_bytes.specs.PickBytes.{picks_in};
ghost use Rattle.step_bytes.specs.AnswerBytes.{answers_put};
ghost use Rattle.step_left.specs.Carried.{CarriedIs, reached_by};

use crate::closing::close_up;
use nets::kinds::{CREATE, DROP, binds_relation};
use nets::tables::find_table;
use nets::{Entry, Net, Refusal, Saved, Table, TableVariable};
use step_bytes::answers::{has_room, put_answer_at};
use step_bytes::picks::pick_at;
use step_decide::decide;
use step_effect::effects::{bound_after, content_after};
use step_effect::tables::{created, puts_rows};
use step_left::Carried;
use step_meets::Setting;
use step_meets::found::{over, shown, site_or_any};
use step_meets::parts::{answer_of, bound_tables, source_of};
use step_meets::sites::site_of;
use step_rows::judged;
use step_thread::{ends_round, forked, node_of, run_frame};
use value_eval::eval_in;
use value_totals::{add_count, zero};

mod closing;

// Requires a sound net unless the list is empty; an empty list answers 10. All answers go to the start of `out` if it has room for all of them; else `out` stays as it is.
pub fn carry_out(from: Net, picks: &[u8], out: &mut [u8]) -> Carried
    requires { 2 ≤ length picks.now → T (sound (view from)) }
    ensures { CarriedIs from (picks_in picks.now) (reached_by from result) × (out.new ≡ put_all (answers_put (view from) (picks_in picks.now)) out.old) }
{
    let count = picks.len() / 2;
    let room = has_room(out.len(), count);
    let mut net = from;
    let mut added = zero();
    let mut taken = zero();
    let mut answer = Err(Refusal::Unsound);
    for i in 0..count {
        let pick = pick_at(picks, i);

        // ---- check 11: the thread, and the node of its top entry
        let thread_place = pick.thread as usize;
        let threadcount = net.threadcount;
        if threadcount <= thread_place {
            answer = Err(Refusal::NoThread);
            put_answer_at(out, room, i, answer);
            continue;
        }
        let mut thread = net.threads[thread_place];
        let depth = thread.depth;
        let top = depth - 1;
        let frame = thread.stack[top];
        let node_number = node_of(frame) as usize;
        let node = net.nodes[node_number];
        let kind = node.kind;

        // ---- for check 17: whether a loop entry of the thread holds the table variable to be bound
        let binds = binds_relation(kind);
        let mut held = false;
        if binds {
            for level in 0..depth {
                let other = thread.stack[level];
                let entry = other.entry;
                match entry {
                    Entry::Run(_) => continue,
                    Entry::Loop(looping) => {
                        let n = looping as usize;
                        held = held | (node.bound == net.nodes[n].read);
                    }
                }
            }
        }

        // ---- for checks 13 to 15: the site that L means, and the table there
        let vars = thread.vars;
        let home = thread.site;
        let locality = node.locality;
        let aliases = &net.aliases[..net.aliascount];
        let located = site_of(aliases, home, eval_in(locality, vars));
        let site = site_or_any(located);
        let tablecount = net.tablecount;
        let place = find_table(&net.tables[..tablecount], site, node.name);
        let found = place.is_some();
        // Where none is found the first place of the array: what stands there is not shown.
        let slot = place.unwrap_or(0);
        let table = net.tables[slot];
        let inside = table.content;
        let content = shown(found, inside);

        // ---- checks 12 to 20: what the pick comes to. Rows are judged before the checks, also for a pick that is then refused: it saves a done pick a branch.
        let read = node.read as usize;
        let variable = thread.relations[read];
        let source = source_of(kind, variable, content);
        let rows_judged = judged(node, source, vars);
        let setting = Setting {
            located,
            found,
            held,
            tables: tablecount,
            threads: threadcount,
            row: pick.row,
        };
        let bound_flags = bound_tables(thread);
        let decision = decide(
            vars,
            depth,
            bound_flags,
            frame,
            node,
            content,
            source,
            rows_judged,
            setting,
        );
        answer = answer_of(decision);
        put_answer_at(out, room, i, answer);
        let Ok(decided) = decision else {
            continue;
        };
        added = add_count(added, decided.done.added);
        taken = add_count(taken, decided.done.taken);

        // ---- the thread after it: its variables, its top frame with the body above it, and the table variable bound
        let vars_after = decided.vars;
        let waiting = decided.frame;
        let above = over(depth, top);
        thread.vars = vars_after;
        thread.stack[above] = run_frame(node.body);
        thread.stack[top] = waiting;
        thread.depth = decided.depth;
        if binds {
            let bound = node.bound as usize;
            let content_bound = bound_after(node, content, source, vars, rows_judged);
            thread.relations[bound] = Some(content_bound);
        }

        // ---- the tables: the one found gives way, a new one goes last, a removed one closes up. A `match` and no closure handed in: each arm stores in the net, which is not handed on.
        match kind {
            CREATE => {
                net.tables[tablecount] = created(site, node, content);
                net.tablecount = tablecount + 1;
            }
            DROP => {
                close_up(&mut net.tables, slot, tablecount);
                net.tablecount = tablecount - 1;
            }
            _ => {
                if puts_rows(kind) {
                    let owner = table.site;
                    let content_put = content_after(node, content, source, vars, rows_judged);
                    net.tables[slot] = Table {
                        site: owner,
                        name: table.name,
                        content: content_put,
                    };
                }
            }
        }

        // ---- what entries of loops hold: at the first round the bindings before it; where the entry above a sequential loop's is removed, they come back
        if decided.saves {
            let other = thread.relations[1 - read];
            net.saved[thread_place * 8 + top] = Saved { vars, other };
        }
        if (decided.depth < depth) & (1 < depth) {
            let under = depth - 2;
            let outer = thread.stack[under];
            let outer_number = node_of(outer) as usize;
            if ends_round(outer, net.nodes[outer_number].kind) {
                let held_there = net.saved[thread_place * 8 + under];
                let vars_back = held_there.vars;
                let other_back = held_there.other;
                let other_number = 1 - net.nodes[outer_number].read as usize;
                thread.vars = vars_back;
                thread.relations[other_number] = other_back;
            }
        }

        // ---- the threads: one without entries is removed, and the list closes up, with what entries of its threads hold; a fork goes last
        if decided.depth == 0 {
            let last = threadcount - 1;
            close_up(&mut net.threads, thread_place, threadcount);
            net.threadcount = last;
            let end = last * 8;
            let first = thread_place * 8;
            for hole in first..end {
                let owner = hole / 8;
                if hole % 8 < net.threads[owner].depth {
                    let kept = net.saved[hole + 8];
                    net.saved[hole] = kept;
                }
            }
            continue;
        }
        net.threads[thread_place] = thread;
        if let Some(inner) = decided.inner {
            net.threads[threadcount] = forked(thread, inner, node.body);
            net.threadcount = threadcount + 1;
            continue;
        }
    }
    let contents = net.tables;
    let processes = net.threads;
    let saved = net.saved;
    Carried {
        tables: contents,
        tablecount: net.tablecount,
        threads: processes,
        threadcount: net.threadcount,
        saved,
        answer,
        added,
        taken,
    }
}
