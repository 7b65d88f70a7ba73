// What a pick comes to: checks 12 to 20 in their order, and where the thread goes on.
#![tactic(auto)]

ghost use Rattle.std.specs.Prelude.{◌≡◌, true, cond, T, ltb};
ghost use Rattle.nets.specs.Nets.{is_loop};
ghost use Rattle.nets.specs.Scenes.{Scene};
ghost use Rattle.nets.specs.Steps.{check13, check14, check15};
ghost use Rattle.nets.specs.View.{kind_at};
ghost use Rattle.nets.specs.Answers.{is_doing, said_of};
ghost use Rattle.step_effect.specs.EffectContracts.{is_step, JudgedIs, Doing};
ghost use Rattle.step_meets.specs.Situations.{situation, Rest, whole, Handed, answer_in};
ghost use Rattle.step_meets.specs.MeetContracts.{Meets, Fine, Known, Flagged, SourceIs, Sourced, DecidedAt, DecidedIs};

use nets::kinds::{has_locality, is_create, is_loop, is_parallel, needs_table};
use nets::{Done, Entry, Frame, Node, Refusal};
use rows::Relation;
use step_answer::says;
use step_effect::Judged;
use step_effect::effects::vars_after;
use step_loop::round;
use step_meets::parts::onward;
use step_meets::{Decided, Decision, Setting};
use step_reads::reads_ok;
use step_thread::{Opened, is_run, node_of};
use values::Vars;

// A loop's pick neither adds nor takes rows.
const NO_ROWS: Done = Done { added: 0, taken: 0 };

// A round of a parallel loop needs a place for its thread, and one of a sequential loop a place on the stack.
fn room_for_round(parallel: bool, threads: usize, depth: usize) -> bool
    ensures { result ≡ cond parallel (ltb threads 8) (ltb depth 8) }
{
    if parallel {
        return threads < 8;
    }
    depth < 8
}

// A loop: a round, or over and on to next.
fn decide_loop(
    vars: Vars,
    depth: usize,
    frame: Frame,
    node: Node,
    content: Relation,
    source: Relation,
    s: Setting,
) -> Decision
    requires { T (is_loop (kind_at node.kind)) × Handed (λ w. Fine (situation (whole vars depth w) w.saved frame node content s) × Known (situation (whole vars depth w) w.saved frame node content s) × SourceIs (situation (whole vars depth w) w.saved frame node content s) source) }
    ensures { (w : Rest) → Fine (situation (whole vars depth w) w.saved frame node content s) → Known (situation (whole vars depth w) w.saved frame node content s) → SourceIs (situation (whole vars depth w) w.saved frame node content s) source → (c : Scene) → Meets (situation (whole vars depth w) w.saved frame node content s) c → DecidedAt (situation (whole vars depth w) w.saved frame node content s) source c result }
{
    let template = node.selector.template;
    let parallel = is_parallel(node.kind);
    let room = room_for_round(parallel, s.threads, depth);
    let Some(opened) = round(template, source, frame, vars, s.row, room)? else {
        return Ok(onward(depth, frame, node.next, vars, NO_ROWS));
    };
    let Opened { visit, vars: inner } = opened;
    let waiting = Decided {
        done: NO_ROWS,
        saves: is_run(frame),
        frame: Frame {
            entry: Entry::Loop(node_of(frame)),
            visit,
        },
        depth,
        vars,
        inner: None,
    };
    if parallel {
        return Ok(Decided {
            inner: Some(inner),
            ..waiting
        });
    }
    Ok(Decided {
        depth: depth + 1,
        vars: inner,
        ..waiting
    })
}

fn decide_step(
    vars: Vars,
    depth: usize,
    frame: Frame,
    node: Node,
    content: Relation,
    source: Relation,
    j: Judged,
    s: Setting,
) -> Decision
    requires { T (is_step (kind_at node.kind)) × JudgedIs node source vars j × Handed (λ w. Fine (situation (whole vars depth w) w.saved frame node content s) × Known (situation (whole vars depth w) w.saved frame node content s) × SourceIs (situation (whole vars depth w) w.saved frame node content s) source) }
    ensures { ((w : Rest) → Fine (situation (whole vars depth w) w.saved frame node content s) → Known (situation (whole vars depth w) w.saved frame node content s) → SourceIs (situation (whole vars depth w) w.saved frame node content s) source → (c : Scene) → Meets (situation (whole vars depth w) w.saved frame node content s) c → check13 c ≡ true → check14 c ≡ true → check15 c ≡ true → DecidedAt (situation (whole vars depth w) w.saved frame node content s) source c result) × (T (is_doing (said_of (answer_in result))) → Doing node content source vars) }
{
    let done = says(node, content, source, vars, j, s.held, s.tables)?;
    let after = vars_after(node, content, source, vars, j);
    Ok(onward(depth, frame, node.next, after, done))
}

// What a pick comes to at a node, in a thread of these variables, with a stack of this height and `frame` on top, and with these table variables bound. The contract is for any thread that has these parts.
pub fn decide(
    vars: Vars,
    depth: usize,
    bound: [bool; 2],
    frame: Frame,
    node: Node,
    content: Relation,
    source: Relation,
    j: Judged,
    s: Setting,
) -> Decision
    requires { JudgedIs node source vars j × Handed (λ w. Fine (situation (whole vars depth w) w.saved frame node content s) × Flagged w bound × Sourced (situation (whole vars depth w) w.saved frame node content s) source) }
    ensures { (w : Rest) → Fine (situation (whole vars depth w) w.saved frame node content s) → Flagged w bound → Sourced (situation (whole vars depth w) w.saved frame node content s) source → DecidedIs (situation (whole vars depth w) w.saved frame node content s) source result }
{
    let kind = node.kind;
    let found = s.found;
    if !reads_ok(node, vars, bound) {
        return Err(Refusal::Unbound);
    }
    if has_locality(kind) & s.located.is_none() {
        return Err(Refusal::NoSite);
    }
    if needs_table(kind) & !found {
        return Err(Refusal::NoTable);
    }
    if is_create(kind) & found {
        return Err(Refusal::TableThere);
    }
    if is_loop(kind) {
        return decide_loop(vars, depth, frame, node, content, source, s);
    }
    decide_step(vars, depth, frame, node, content, source, j, s)
}
