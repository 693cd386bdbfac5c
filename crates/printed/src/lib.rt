// What a session prints, put into a lent buffer part by part: the line of a record that is done, and what is printed where the session stops.
// No public function has a `requires`: any record, any body and whatever is held has its one line.
#![tactic(auto)]

ghost use Rattle.std.specs.Prelude.{◌≡◌, ◌+◌, ◌*◌, ◌≤◌, length, take};
ghost use Rattle.lines.specs.Lines.{line, Puts};
ghost use Rattle.printed.specs.Printed.{comes_of, bad, parting};
ghost use Rattle.printed.specs.Turns.{Turns};

use copies::lay;
use lines::put_line;
use records::{Mark, Record, Stop};
use sitting::Held;
use words::{LARGEST_HELD, LINE, ROOM};

// A record that is done and told: what is held now, and the length of its line.
// A length, as std's `read` gives one, and no slice: `Turns` says every byte of the lent buffer, those behind the line too.
#[derive(Clone, Copy)]
pub struct Turned {
    pub held: Held,
    pub len: usize,
}

// One whole record is done, and its line is put into the buffer. The buffers come one by one: each has its size and its clause.
pub fn turn(
    mark: Mark,
    body: &[u8],
    held: Held,
    image: &mut [u8; LARGEST_HELD],
    answer: &mut [u8; ROOM],
    out: &mut [u8; LINE],
) -> Turned
    ensures { Turns mark (comes_of mark body.now held.slot (take held.size image.old)) result
        image.old image.new answer.old answer.new out.old out.new }
{
    let done = sitting::perform(mark, body, held, image, answer);
    let len = put_line(mark, done.number, &answer[..done.len], out);
    Turned {
        held: done.held,
        len,
    }
}

// Whether a reading that stops the session is a bad one.
fn is_bad(found: Result<Record, Stop>) -> bool
    ensures { result ≡ bad found }
{
    matches!(found, Err(Stop::Cut | Stop::Bad))
}

// What is printed where the session stops, by the reading that stops it.
// It takes the whole Result and no `Stop` alone: `printed_leave_only` speaks of any reading, a whole record too, for which it prints nothing.
pub fn leave(found: Result<Record, Stop>, out: &mut [u8; LINE]) -> usize
    ensures { Puts (parting found) result out.old out.new }
{
    if is_bad(found) {
        lay(b"bad\n", out);
        return 4;
    }
    0
}
