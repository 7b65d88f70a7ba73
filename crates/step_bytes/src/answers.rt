// Answers as bytes, 24 each.
ghost use Rattle.std.specs.Prelude.{◌≡◌, cond, ◌+◌, ◌*◌, ◌≤◌, T, leb, length};
ghost use Rattle.value_bytes.specs.Bytes.{eight_bytes, put_at};
ghost use Rattle.nets.specs.Answers.{said_of};
ghost use Rattle.step_bytes.specs.AnswerBytes.{three_bytes, answer_bytes};

use nets::refusals::number_of;
use nets::{Answer, Done};

// The bytes of an answer.
pub const ANSWER: usize = 24;

// ---- one answer

// Eight bytes, little endian.
fn put_number(out: &mut [u8], n: usize)
    requires { length out.old ≡ 8 }
    ensures { out.new ≡ eight_bytes n }
{
    out.copy_from_slice(&n.to_le_bytes());
}

fn put_three(out: &mut [u8], number: usize, added: usize, taken: usize)
    requires { length out.old ≡ 24 }
    ensures { out.new ≡ three_bytes number added taken }
{
    put_number(&mut out[0..8], number);
    put_number(&mut out[8..16], added);
    put_number(&mut out[16..24], taken);
}

fn put_answer(out: &mut [u8], answer: Answer)
    requires { length out.old ≡ 24 }
    ensures { out.new ≡ answer_bytes (said_of answer) }
{
    match answer {
        Ok(Done { added, taken }) => {
            put_three(out, 0, added, taken);
        }
        Err(why) => {
            put_three(out, number_of(why), 0, 0);
        }
    }
}

// ---- the answers to a list

// A buffer of this length has room for so many answers.
pub fn has_room(length: usize, count: usize) -> bool
    ensures { result ≡ leb (count * 24) length }
{
    count <= length / ANSWER
}

// The answer to pick `i` at its place, if there is room for the answers to all picks.
pub fn put_answer_at(out: &mut [u8], room: bool, i: usize, answer: Answer)
    requires { T room → i * 24 + 24 ≤ length out.old }
    ensures { out.new ≡ cond room (put_at (i * 24) (answer_bytes (said_of answer)) out.old) out.old }
{
    if room {
        put_answer(&mut out[i * ANSWER..i * ANSWER + ANSWER], answer);
    }
}
