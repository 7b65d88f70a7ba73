// The call for the moments of a run.
ghost use Rattle.std.specs.Prelude.{◌≡◌, ◌<◌, IfErr};
ghost use Rattle.call_rules.specs.Openings.{number_of, number_told, place_told};
ghost use Rattle.call_rules.specs.Calls.{TraceIs};

use call_open::open_file;
use call_rules::Reply;
use call_trace::trace_from;

pub fn call_trace(file: &[u8], picks: &[u8], from: usize, out: &mut [u8]) -> Reply
    ensures told { TraceIs file.now picks.now from out.old out.new (number_told result) (place_told result) }
    ensures refused { IfErr result (λ why. (0 < number_of why) × (out.new ≡ out.old)) }
{
    let net = open_file(file, picks)?;
    trace_from(net, picks, from, out)
}
