// When a slot record is sound beside an image, and whether the image is one of its card. No offered function has a `requires`: any record,
// however made, beside any image has its answer. The rules are written in specs/Sound.antt.
// Tests return early: as conditions (`a && b`) they were tried, and a slot status of an empty slot costs 7 % more instructions, a refused record up to 5 %.
#![tactic(auto, using(words::proofs::Tests::conditions), unfolding(crate::specs::Sound::empty_sound, crate::specs::Sound::idle_sound, crate::specs::Sound::type_sound, crate::specs::Sound::open_sound, crate::specs::Sound::set_sound, crate::specs::Sound::counts_sound))]

ghost use Rattle.std.specs.Prelude.{◌≡◌, true};
ghost use Rattle.words.specs.Choice.{◌and◌};
ghost use Rattle.sound.specs.Sound.{full_code, image_is_card, page_size, empty_sound, idle_sound, type_sound, open_sound, set_sound, counts_sound, sound};

use slot::Slot;
use words::byte_at;

// Whether the card is a code card with a full counter. No `is_some_and` here, nor `is_none_or` in `fits`: with a closure most calls cost more.
fn full_code(slot: Slot, image: &[u8]) -> bool
    ensures { result ≡ full_code slot.holds image.now }
{
    let Some(chip) = slot.holds else {
        return false;
    };
    if !chip.facts().coded {
        return false;
    }
    byte_at(image, chip.facts().counter) == chip.facts().full
}

// Whether the image is one of the card that is in; with none it is not looked at.
pub fn fits(slot: Slot, image: &[u8]) -> bool
    ensures { result ≡ image_is_card slot.holds image.now }
{
    let Some(chip) = slot.holds else {
        return true;
    };
    card::is_card(chip, image)
}

// No card means inactive and page 8, and no command 01 that has succeeded.
fn empty_sound(slot: Slot) -> bool
    ensures { result ≡ empty_sound slot }
{
    if slot.has_card() {
        return true;
    }
    if slot.active {
        return false;
    }
    if slot.page != 8 {
        return false;
    }
    !slot.chosen
}

// Inactive means no type and closed.
fn idle_sound(slot: Slot) -> bool
    ensures { result ≡ idle_sound slot }
{
    if slot.active {
        return true;
    }
    if slot.selected != 0 {
        return false;
    }
    !slot.open
}

// A selected type is the kind's own.
fn type_sound(slot: Slot) -> bool
    ensures { result ≡ type_sound slot }
{
    if slot.selected == 0 {
        return true;
    }
    slot.selected == slot.own_type()
}

// Open means a code card with its type selected and a full counter.
fn open_sound(slot: Slot, image: &[u8]) -> bool
    ensures { result ≡ open_sound slot image.now }
{
    if !slot.open {
        return true;
    }
    if !full_code(slot, image) {
        return false;
    }
    slot.selected == slot.own_type()
}

// SetParameters would take the parameters; with no card they are the default.
#[tactic(auto, using(words::proofs::Tests::conditions, crate::proofs::SoundLaws::default_sound), unfolding(crate::specs::Sound::set_sound))]
fn set_sound(slot: Slot) -> bool
    ensures { result ≡ set_sound slot.holds slot.set }
{
    if slot.set == sets::default_set() {
        return true;
    }
    if !slot.has_card() {
        return false;
    }
    sets::is_taken(slot.set)
}

// Tries left and number of protected bytes are those of the image; with no card both are 0.
fn counts_sound(slot: Slot, image: &[u8]) -> bool
    ensures { result ≡ counts_sound slot image.now }
{
    let holds = slot.holds;
    if slot.tries != counts::tries_of(holds, image) {
        return false;
    }
    slot.protected == counts::protected_of(holds, image)
}

// The six of the seven that ask no count. The set is asked for early, since it is most often the default.
fn state_sound(slot: Slot, image: &[u8]) -> bool
    ensures { result ≡ (page_size slot.page and set_sound slot.holds slot.set and empty_sound slot and idle_sound slot and type_sound slot
        and open_sound slot image.now) }
{
    if !page_size(slot.page) {
        return false;
    }
    if !set_sound(slot) {
        return false;
    }
    if !empty_sound(slot) {
        return false;
    }
    if !idle_sound(slot) {
        return false;
    }
    if !type_sound(slot) {
        return false;
    }
    open_sound(slot, image)
}

// Whether the record is sound, beside any image.
#[tactic(auto, using(crate::proofs::SoundLaws::six))]
pub fn is_sound(slot: Slot, image: &[u8]) -> bool
    ensures { result ≡ sound slot image.now }
{
    if !state_sound(slot, image) {
        return false;
    }
    counts_sound(slot, image)
}

// The counts of a record beside an image of its card; with no card both are 0.
// Not `counts_sound`: that one asks for no card's image, and so tests the image's length, which here is known.
#[tactic(auto, using(words::proofs::Tests::conditions, crate::proofs::SoundLaws::card_sized), unfolding(crate::specs::Sound::counts_sound))]
fn counts_stand(slot: Slot, image: &[u8]) -> bool
    requires { image_is_card slot.holds image.now ≡ true }
    ensures { result ≡ counts_sound slot image.now }
{
    let Some(chip) = slot.holds else {
        if slot.tries != 0 {
            return false;
        }
        return slot.protected == 0;
    };
    if slot.tries != counts::tries_in(chip, image) {
        return false;
    }
    slot.protected == counts::count_in(chip, image)
}

// Whether the record is sound, beside an image of its card.
// Not `is_sound`: a reader asks this for each message, and `counts_stand` has no length to test.
#[tactic(auto, using(crate::proofs::SoundLaws::six))]
pub fn stands(slot: Slot, image: &[u8]) -> bool
    requires { image_is_card slot.holds image.now ≡ true }
    ensures { result ≡ sound slot image.now }
{
    if !state_sound(slot, image) {
        return false;
    }
    counts_stand(slot, image)
}

// Whether a number is a reader page: a power of two, and at least 8.
fn page_size(page: u8) -> bool
    ensures { result ≡ page_size page }
{
    8 <= page && page.is_power_of_two()
}
