// The engine for programs in C and Rust: a net file and picks in, bytes out. Every call answers every input.
#![tactic(auto)]

ghost use Rattle.call_rules.specs.Calls.{TablesIs, AnswersIs, ThreadsIs, TraceIs, PageAfterIs, PicksIs};

use call_each::answers::call_answers;
use call_each::picks::call_picks;
use call_each::table_page::call_page;
use call_each::tables::call_tables;
use call_each::threads::call_threads;
use call_each::trace::call_trace;
use call_rules::tell;
use values::Site;

// Alike but for the call that each makes, since C programs call each by its own name.

// The tables left after all picks, as records that load again.
#[unsafe(no_mangle)]
pub extern "C" fn tivgeral_tables(
    file: &[u8],
    picks: &[u8],
    out: &mut [u8],
    place: &mut usize,
) -> u8
    ensures { TablesIs file.now picks.now out.old out.new result place.new }
{
    tell(call_tables(file, picks, out), place)
}

// The answer to each pick.
#[unsafe(no_mangle)]
pub extern "C" fn tivgeral_answers(
    file: &[u8],
    picks: &[u8],
    out: &mut [u8],
    place: &mut usize,
) -> u8
    ensures { AnswersIs file.now picks.now out.old out.new result place.new }
{
    tell(call_answers(file, picks, out), place)
}

// The threads left after all picks.
#[unsafe(no_mangle)]
pub extern "C" fn tivgeral_threads(
    file: &[u8],
    picks: &[u8],
    out: &mut [u8],
    place: &mut usize,
) -> u8
    ensures { ThreadsIs file.now picks.now out.old out.new result place.new }
{
    tell(call_threads(file, picks, out), place)
}

// The net after the first `from` picks and after each further one, with all that threads hold, as long as there is room.
#[unsafe(no_mangle)]
pub extern "C" fn tivgeral_trace(
    file: &[u8],
    picks: &[u8],
    from: usize,
    out: &mut [u8],
    place: &mut usize,
) -> u8
    ensures { TraceIs file.now picks.now from out.old out.new result place.new }
{
    tell(call_trace(file, picks, from, out), place)
}

// The page of one table after all picks.
#[unsafe(no_mangle)]
pub extern "C" fn tivgeral_page(
    file: &[u8],
    picks: &[u8],
    site: u8,
    name: u32,
    out: &mut [u8],
    place: &mut usize,
) -> u8
    ensures { PageAfterIs file.now picks.now (record { 0 = site }) name out.old out.new result place.new }
{
    tell(call_page(file, picks, Site(site), name, out), place)
}

// The file's own picks.
#[unsafe(no_mangle)]
pub extern "C" fn tivgeral_picks(file: &[u8], out: &mut [u8], place: &mut usize) -> u8
    ensures { PicksIs file.now out.old out.new result place.new }
{
    tell(call_picks(file, out), place)
}
