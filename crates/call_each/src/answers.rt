// The call for the answers to all picks.
ghost use Rattle.std.specs.Prelude.{◌≡◌, ◌<◌, IfErr};
ghost use Rattle.call_rules.specs.Openings.{number_of, number_told, place_told};
ghost use Rattle.call_rules.specs.Calls.{AnswersIs};

use call_open::open_file;
use call_rules::Reply;
use call_run::answers_given;

pub fn call_answers(file: &[u8], picks: &[u8], out: &mut [u8]) -> Reply
    ensures told { AnswersIs file.now picks.now out.old out.new (number_told result) (place_told result) }
    ensures refused { IfErr result (λ why. (0 < number_of why) × (out.new ≡ out.old)) }
{
    let net = open_file(file, picks)?;
    answers_given(net, picks, out)
}
