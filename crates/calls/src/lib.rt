// The calls on a raw record. No offered function has a `requires`: each has its one result for every input, and every byte of record, image and
// answer buffer afterwards is said. The rules are written in specs/Calls.antt.
#![tactic(auto)]

ghost use Rattle.std.specs.Prelude.{◌≡◌, [], ◌≤◌, length, drop, replicate};
ghost use Rattle.words.specs.Bytes.{byte};
ghost use Rattle.words.specs.Bounds.{least_room};
ghost use Rattle.frame.specs.Exchange.{number};
ghost use Rattle.record.specs.Raw.{kind_of, slot_of};
ghost use Rattle.calls.specs.Calls.{broken_as, keeping, raw_served, raw_exchange, raw_insertion, raw_removal, RawGives};

use chips::Chip;
use frame::{Refusal, Reply, Verdict};
use record::Flaw;

// Writes the next slot into the record where a call is not turned down, and hands on the verdict.
fn keep(reply: Reply, raw: &mut [u8]) -> Verdict
    requires { length raw.old ≡ 32 }
    ensures { (result ≡ reply.verdict) × (raw.new ≡ keeping (number reply.verdict) reply.slot raw.old) }
{
    let len = reply.verdict?;
    record::write_record(reply.slot, raw);
    Ok(len)
}

// The same after a message, which changes bytes 1 to 16 alone: the kind is the slot's already, and the rest 00h.
// Two functions and no closure that writes: each asks of the record what its writer needs, and a bound on what a closure asks is no plainer.
fn keep_state(reply: Reply, raw: &mut [u8]) -> Verdict
    requires { (byte raw.old 0 ≡ kind_of reply.slot.holds) × (drop 17 raw.old ≡ replicate 15 0) }
    ensures { (result ≡ reply.verdict) × (raw.new ≡ keeping (number reply.verdict) reply.slot raw.old) }
{
    let len = reply.verdict?;
    record::write_state(reply.slot, raw);
    Ok(len)
}

// A broken record: 3 where the image is not one of its kind, else 4.
fn broken(holds: Option<Chip>, image: &[u8]) -> Refusal
    ensures { result ≡ broken_as holds image.now }
{
    let Some(chip) = holds else {
        return Refusal::Record;
    };
    if !card::is_card(chip, image) {
        return Refusal::Image;
    }
    Refusal::Record
}

// What the slot of a raw record does with a message that passed tests 1 and 2.
fn serve(raw: &mut [u8], image: &mut [u8], msg: &[u8], answer: &mut [u8]) -> Verdict
    requires { (10 ≤ length msg.now) × (least_room ≤ length answer.old) }
    ensures { RawGives (raw_served (slot_of raw.old) raw.old image.old msg.now) result raw.new
        image.new answer.old answer.new }
{
    match record::read_record(raw) {
        Err(Flaw::Unknown) => Err(Refusal::Image),
        Err(Flaw::Broken(holds)) => Err(broken(holds, image)),
        Ok(slot) => {
            let reply = reader::serve(slot, image, msg, answer);
            keep_state(reply, raw)
        }
    }
}

// One host message on a raw record.
pub fn message(raw: &mut [u8], image: &mut [u8], msg: &[u8], answer: &mut [u8]) -> Verdict
    ensures { RawGives (raw_exchange raw.old image.old msg.now (length answer.old)) result raw.new
        image.new answer.old answer.new }
{
    reader::front(msg, answer.len())?;
    serve(raw, image, msg, answer)
}

// A card is put in.
pub fn insert(raw: &mut [u8], kind: u8, image: &[u8]) -> Verdict
    ensures { RawGives (raw_insertion raw.old kind image.now) result raw.new image.now [] [] }
{
    if raw.len() != 32 {
        return Err(Refusal::Record);
    }
    if raw[0] != 0 {
        return Err(Refusal::Occupied);
    }
    let reply = reader::insert(slot::empty(), kind, image);
    keep(reply, raw)
}

// The card is taken out.
pub fn remove(raw: &mut [u8]) -> Verdict
    ensures { RawGives (raw_removal raw.old) result raw.new [] [] [] }
{
    if raw.len() != 32 {
        return Err(Refusal::Record);
    }
    record::write_record(slot::empty(), raw);
    Ok(0)
}
