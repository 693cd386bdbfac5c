// The slot record and its changes. No function has a `requires`: any record, however made, has its answer.
// Each change is written in specs/Slots.antt.
#![tactic(auto)]

ghost use Rattle.std.specs.Prelude.{◌≡◌};
ghost use Rattle.slot.specs.Slots.{occupied, own_type, page_after, slotted, inserted, removed, powered, selecting, paged, open_as, opened, closed, set_as, defaulted, tries_as, protected_as};

use chips::Chip;

// The order of the fields is the cheapest that was measured.
#[derive(Clone, Copy)]
pub struct Slot {
    // The parameters: a number that is read by crate sets.
    pub set: usize,
    // The chip of the card that is in; its image stays beside the record.
    pub holds: Option<Chip>,
    pub active: bool,
    pub open: bool,
    // The selected type; 0 is none. No Option: a raw record may hold any byte here, and is turned down by its rule (`type_sound`), not as it is read.
    pub selected: u8,
    // The reader page.
    pub page: u8,
    // Whether command 01 has succeeded since insertion: the host chose the page.
    pub chosen: bool,
    // The number of protected bytes, as the image has it.
    pub protected: u16,
    // Tries left, as the image has them.
    pub tries: u8,
}

// The empty sound slot, which a reader starts with.
pub fn empty() -> Slot
    ensures { result ≡ removed }
{
    let set = sets::default_set();
    Slot::of(None, false, 0, 8, false, set, 0, 0, false)
}

impl Slot {
    // A record of its fields. All nine by their place: `of` is offered, and the theorem `slot_of_only` says it of them one by one.
    pub fn of(
        holds: Option<Chip>,
        active: bool,
        selected: u8,
        page: u8,
        open: bool,
        set: usize,
        tries: u8,
        protected: u16,
        chosen: bool,
    ) -> Slot
        ensures { result ≡ slotted holds active selected page «open» set tries protected chosen }
    {
        Slot {
            holds,
            active,
            open,
            selected,
            page,
            set,
            tries,
            protected,
            chosen,
        }
    }

    // ---- the changes: each method hands back the next record

    // Inactive, no type, page 8 that nobody chose, closed, the default parameters, and the counts of the image that is put in.
    pub fn insert(self, chip: Chip, tries: u8, protected: u16) -> Slot
        ensures { result ≡ inserted chip tries protected }
    {
        let set = sets::default_set();
        Slot::of(Some(chip), false, 0, 8, false, set, tries, protected, false)
    }

    // The empty sound slot.
    pub fn remove(self) -> Slot
        ensures { result ≡ removed }
    {
        empty()
    }

    // Active or inactive, no type, closed. The page, whether it was chosen, and the parameters survive.
    pub fn power(mut self, on: bool) -> Slot
        ensures { result ≡ powered on self }
    {
        self.active = on;
        self.selected = 0;
        self.open = false;
        self
    }

    // The reader page after A4 with a type: the one that was chosen, else 32 for 02h, 8 for 01h, and with another type the one there is.
    #[tactic(auto, using(words::proofs::Tests::chains), unfolding(crate::specs::Slots::page_after, crate::specs::Slots::page_for))]
    fn page_after(self, own: u8) -> u8
        ensures { result ≡ page_after own self }
    {
        match own {
            _ if self.chosen => self.page,
            0x02 => 32,
            0x01 => 8,
            _ => self.page,
        }
    }

    // The type is selected, with its page, and the card closed.
    pub fn select(mut self, own: u8) -> Slot
        ensures { result ≡ selecting own self }
    {
        let next = self.page_after(own);
        self.page = next;
        self.selected = own;
        self.open = false;
        self
    }

    // The reader page is the one chosen.
    pub fn set_page(mut self, page: u8) -> Slot
        ensures { result ≡ paged page self }
    {
        self.page = page;
        self.chosen = true;
        self
    }

    // Open or closed.
    fn set_open(mut self, open: bool) -> Slot
        ensures { result ≡ open_as «open» self }
    {
        self.open = open;
        self
    }

    // Open.
    pub fn open(self) -> Slot
        ensures { result ≡ opened self }
    {
        self.set_open(true)
    }

    // Closed.
    pub fn close(self) -> Slot
        ensures { result ≡ closed self }
    {
        self.set_open(false)
    }

    // The parameters.
    pub fn with_set(mut self, set: usize) -> Slot
        ensures { result ≡ set_as set self }
    {
        self.set = set;
        self
    }

    // The default parameters.
    pub fn reset_set(self) -> Slot
        ensures { result ≡ defaulted self }
    {
        self.with_set(sets::default_set())
    }

    // Tries left.
    pub fn with_tries(mut self, tries: u8) -> Slot
        ensures { result ≡ tries_as tries self }
    {
        self.tries = tries;
        self
    }

    // The number of protected bytes.
    pub fn with_protected(mut self, protected: u16) -> Slot
        ensures { result ≡ protected_as protected self }
    {
        self.protected = protected;
        self
    }

    // ---- what it holds

    // Whether a card is in.
    pub fn has_card(self) -> bool
        ensures { result ≡ occupied self.holds }
    {
        self.holds.is_some()
    }

    // The type of the card that is in, 0 with none: it is compared with `selected`, and the theorem `slot_own_type_only` has a number.
    pub fn own_type(self) -> u8
        ensures { result ≡ own_type self.holds }
    {
        match self.holds {
            None => 0,
            Some(chip) => chip.facts().selects,
        }
    }
}
