// Slot parameters: a set is a protocol number with its bytes, 0 with 5, 1 with 7, kept as one number. No function that is used elsewhere has a
// `requires` but the one that writes into a lent buffer: any number has its answer. The rules are written in specs/Sets.antt.
#![tactic(auto, using(words::proofs::Choices::choices), unfolding(crate::specs::Sets::fits_length, crate::specs::Sets::length_of, crate::specs::Sets::long_wait, crate::specs::Sets::fault_at, crate::specs::Sets::takes))]

ghost use Rattle.std.specs.Prelude.{◌≡◌, ◌≤◌, ◌<◌, length, leb};
ghost use Rattle.words.specs.Choice.{◌or◌, ◌is◌};
ghost use Rattle.words.specs.Bytes.{over};
ghost use Rattle.sets.specs.Sets.{default_set, length_of, bytes_of, fits_length, upper_bits, long_wait, fault_at, set_of, takes};

use words::{byte_at, byte_of};

// The default: T=0 with 11 00 00 0A 00.
pub fn default_set() -> usize
    ensures { result ≡ default_set }
{
    0x0A00001100
}

// The set that a SetParameters message names: byte 7 is its protocol number, and its bytes stand behind the header.
pub fn set_of(msg: &[u8]) -> usize
    ensures { result ≡ set_of msg.now }
{
    if msg.len() < 15 {
        return short_set(msg);
    }
    usize::from_le_bytes([
        msg[7],
        msg[10],
        msg[11],
        msg[12],
        msg[13],
        msg[14],
        byte_at(msg, 15),
        byte_at(msg, 16),
    ])
}

// The same of a message that is too short for a set: what is not there counts as 0, and its bytes from offset 14 on are not.
// It is apart for speed: one sum over `byte_at` for all takes 11 instructions more of 15 bytes, in a row of docs/MEASURED.md above its goal.
fn short_set(msg: &[u8]) -> usize
    requires { length msg.now < 15 }
    ensures { result ≡ set_of msg.now }
{
    usize::from_le_bytes([
        byte_at(msg, 7),
        byte_at(msg, 10),
        byte_at(msg, 11),
        byte_at(msg, 12),
        byte_at(msg, 13),
        0,
        0,
        0,
    ])
}

// How many bytes a set has: five where it is T=0 and nothing stands in the two behind.
fn length_of(set: usize) -> usize
    ensures { result ≡ length_of set }
{
    if byte_of(set, 0) == 0 && byte_of(set, 6) == 0 && byte_of(set, 7) == 0 {
        5
    } else {
        7
    }
}

// Its bytes, into the lent tail of the answer buffer, and how many.
pub fn put_set(set: usize, out: &mut [u8]) -> usize
    requires { 7 ≤ length out.old }
    ensures { (result ≡ length (bytes_of set)) × (out.new ≡ over (bytes_of set) out.old) × (result ≤ 7) }
{
    let n = length_of(set);
    // No `copy_from_slice`: of n bytes it tests for overlap, and then copies byte by byte too.
    for i in 0..n {
        out[i] = byte_of(set, i + 1);
    }
    n
}

// ---- what SetParameters takes

// A protocol number fits a length of data.
// The protocol is a number and no enum: any byte may stand there, and the rules (`fits_length`, `upper_bits`, `long_wait`) take it as one.
fn fits_length(protocol: u8, n: usize) -> bool
    ensures { result ≡ fits_length protocol n }
{
    match protocol {
        0 => n == 5,
        1 => n == 7,
        _ => false,
    }
}

// An entry that is reserved: one of two, or any from the last on.
fn reserved(entry: u8, one: u8, other: u8, last: u8) -> bool
    ensures { result ≡ (entry is one or entry is other or leb last entry) }
{
    entry == one || entry == other || last <= entry
}

// The upper six bits of the checksum byte.
fn upper_bits(protocol: u8) -> u8
    ensures { result ≡ upper_bits protocol }
{
    if protocol == 1 { 4 } else { 0 }
}

// A T=1 BWI above 9.
fn long_wait(protocol: u8, waiting: u8) -> bool
    ensures { result ≡ long_wait protocol waiting }
{
    protocol == 1 && 9 < waiting / 16
}

// The offset of the first byte that is wrong in a SetParameters message of this set and data length.
pub fn fault_at(set: usize, n: usize) -> Option<u8>
    ensures { result ≡ fault_at set n }
{
    let protocol = byte_of(set, 0);
    if !fits_length(protocol, n) {
        return Some(7);
    }
    if reserved(byte_of(set, 1) / 16, 7, 8, 14) {
        return Some(10);
    }
    if reserved(byte_of(set, 1) % 16, 0, 7, 10) {
        return Some(10);
    }
    if byte_of(set, 2) / 4 != upper_bits(protocol) {
        return Some(11);
    }
    if long_wait(protocol, byte_of(set, 4)) {
        return Some(13);
    }
    if 3 < byte_of(set, 5) {
        return Some(14);
    }
    if byte_of(set, 7) != 0 {
        return Some(16);
    }
    None
}

// Whether SetParameters would take a set that is stored.
pub fn is_taken(set: usize) -> bool
    ensures { result ≡ takes set }
{
    fault_at(set, length_of(set)).is_none()
}
