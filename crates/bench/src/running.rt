// Chains of picks.
use crate::Chained;
use crate::picking::{chain_length, pick_at};
use crate::summing::with_answer;
use nets::{Done, Stepped};
use steps::step;

// A chain, soundness tested at each step.
pub fn chain(from: Chained, kind: u8) -> Chained {
    let mut s = Stepped {
        answer: Ok(Done { added: 0, taken: 0 }),
        net: from.net,
    };
    let mut sum = from.sum;
    for n in 0..chain_length(kind) {
        s = step(s.net, pick_at(kind, n));
        sum = with_answer(sum, s.answer);
    }
    Chained { net: s.net, sum }
}
