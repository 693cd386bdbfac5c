// The calls for C: each gives the answer's length, or the refusal's number as a negative. None has a `requires`. The rules are those of `calls`.
#![tactic(auto)]

ghost use Rattle.std.specs.Prelude.{◌≡◌, [], ◌≤◌, length};
ghost use Rattle.words.specs.Bounds.{longest_answer};
ghost use Rattle.frame.specs.Exchange.{number, answer_length};
ghost use Rattle.calls.specs.Calls.{raw_exchange, raw_insertion, raw_removal, result_of, Returns};

use frame::Verdict;

// The answer's length, or the refusal's number as a negative.
fn result_of(verdict: Verdict) -> i32
    requires { answer_length verdict ≤ longest_answer }
    ensures { result ≡ result_of (number verdict) (answer_length verdict) }
{
    match verdict {
        Ok(len) => len as i32,
        Err(refusal) => -(refusal.number() as i32),
    }
}

// One host message: the answer's length, or the refusal's number as a negative.
#[unsafe(no_mangle)]
pub extern "C" fn card_reader_message(
    raw: &mut [u8],
    image: &mut [u8],
    message: &[u8],
    answer: &mut [u8],
) -> i32
    ensures { Returns (raw_exchange raw.old image.old message.now (length answer.old)) result raw.new
        image.new answer.old answer.new }
{
    let verdict = calls::message(raw, image, message, answer);
    result_of(verdict)
}

// A card is put in: 0, or the refusal's number as a negative.
#[unsafe(no_mangle)]
pub extern "C" fn card_reader_insert(raw: &mut [u8], kind: u8, image: &[u8]) -> i32
    ensures { Returns (raw_insertion raw.old kind image.now) result raw.new image.now [] [] }
{
    let verdict = calls::insert(raw, kind, image);
    result_of(verdict)
}

// The card is taken out: 0, or -4.
#[unsafe(no_mangle)]
pub extern "C" fn card_reader_remove(raw: &mut [u8]) -> i32
    ensures { Returns (raw_removal raw.old) result raw.new [] [] [] }
{
    let verdict = calls::remove(raw);
    result_of(verdict)
}
