// The raw slot record, 32 bytes: kind (0 none), active (0 or 1), selected type (0 none), reader page, open (0 or 1), protocol number and seven
// bytes of the parameters, tries left, number of protected bytes in two, low first, whether the page was chosen (0 or 1), the rest 00h.
// Any bytes at all may come as a record, so it is a slice and no array; one of 32 passes what `tests/arrays` lets stand.
// No offered function has a `requires`: each has its one result for every input.
// The rules are written in specs/Raw.antt.
#![tactic(auto, using(words::proofs::Choices::choices), unfolding(crate::specs::Raw::slot_with, crate::specs::Raw::slot_of, crate::specs::Raw::card_with))]

ghost use Rattle.std.specs.Prelude.{◌≡◌, ◌≤◌, true, false, MatchOption, length, drop, replicate, ltb};
ghost use Rattle.std.proofs.lemmas.List.Edits.{sets};
ghost use Rattle.words.specs.Choice.{◌⇒◌⁏◌, ◌is◌};
ghost use Rattle.words.specs.Bytes.{blank};
ghost use Rattle.record.specs.Raw.{kind_of, state_of, raw_of, slot_with, slot_of};

use chips::Chip;
use slot::Slot;
use words::{byte_at, eight_at, put_eight};

// Why a raw record is none.
#[derive(Clone, Copy)]
pub enum Flaw {
    // No record, or none of ours; what it holds is told by its kind byte.
    Broken(Option<Chip>),
    // The kind byte is no kind.
    Unknown,
}

// ---- writing

// The kind byte.
fn kind_of(holds: Option<Chip>) -> u8
    ensures { result ≡ kind_of holds }
{
    holds.map_or(0, |chip| chip.facts().kind)
}

// Writes what of a slot a message may change: bytes 1 to 16.
pub fn write_state(slot: Slot, raw: &mut [u8])
    requires { 17 ≤ length raw.old }
    ensures { raw.new ≡ sets raw.old 1 (state_of slot) }
{
    raw[1] = u8::from(slot.active);
    raw[2] = slot.selected;
    raw[3] = slot.page;
    raw[4] = u8::from(slot.open);
    put_eight(raw, 5, slot.set);
    raw[13] = slot.tries;
    let counted = slot.protected.to_le_bytes();
    raw[14] = counted[0];
    raw[15] = counted[1];
    raw[16] = u8::from(slot.chosen);
}

// Makes the rest, byte 17 on, 00h.
fn clear_rest(raw: &mut [u8])
    requires { length raw.old ≡ 32 }
    ensures { raw.new ≡ sets raw.old 17 (replicate 15 0) }
{
    // No `fill`: it is a call of C's memset, and the library calls nothing.
    for i in 17..raw.len() {
        raw[i] = 0;
    }
}

// Writes a slot into a record of 32 bytes; a slice of another length keeps every byte.
pub fn write_record(slot: Slot, raw: &mut [u8])
    ensures { raw.new ≡ (length raw.old is 32 ⇒ raw_of slot ⁏ raw.old) }
{
    if raw.len() != 32 {
        return;
    }
    raw[0] = kind_of(slot.holds);
    write_state(slot, raw);
    clear_rest(raw);
}

// ---- reading

// Whether the rest, byte 17 on, is 00h: eight bytes at a time, byte 24 twice.
fn is_blank(raw: &[u8]) -> bool
    requires { length raw.now ≡ 32 }
    ensures { result ≡ blank (drop 17 raw.now) }
{
    eight_at(raw, 17) == 0 && eight_at(raw, 24) == 0
}

// The flag in a byte: 0 or 1; any other holds none.
fn flag_in(byte: u8) -> Option<bool>
    ensures { MatchOption result (ltb 1 byte ≡ true) (λ flag. (ltb 1 byte ≡ false) × (flag ≡ byte is 1)) }
{
    match byte {
        0 => Some(false),
        1 => Some(true),
        _ => None,
    }
}

// Reads the bytes behind the kind byte.
fn read_with(holds: Option<Chip>, raw: &[u8]) -> Result<Slot, Flaw>
    ensures { result ≡ slot_with holds raw.now }
{
    let broken = Flaw::Broken(holds);
    if raw.len() != 32 {
        return Err(broken);
    }
    let active = flag_in(raw[1]).ok_or(broken)?;
    let open = flag_in(raw[4]).ok_or(broken)?;
    let chosen = flag_in(raw[16]).ok_or(broken)?;
    if !is_blank(raw) {
        return Err(broken);
    }
    Ok(Slot::of(
        holds,
        active,
        raw[2],
        raw[3],
        open,
        eight_at(raw, 5),
        raw[13],
        u16::from_le_bytes([raw[14], raw[15]]),
        chosen,
    ))
}

// Reads any bytes: a slot, of which is seen beside the image whether it is sound, or why it is none.
pub fn read_record(raw: &[u8]) -> Result<Slot, Flaw>
    ensures { result ≡ slot_of raw.now }
{
    let kind = byte_at(raw, 0);
    if kind == 0 {
        return read_with(None, raw);
    }
    let chip = chips::chip_of(kind).ok_or(Flaw::Unknown)?;
    read_with(Some(chip), raw)
}
