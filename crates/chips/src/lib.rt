// The kinds of card: their chips, and the numbers of each as one row.
// No function has a `requires`. The table is written in specs/Kinds.antt, and this is that table once more, as code.
#![tactic(auto)]

ghost use Rattle.std.specs.Prelude.{◌≡◌};
ghost use Rattle.chips.specs.Kinds.{i2c, without_code, facts, chip_of};

// The chips of the kinds, by what they have: memory alone, then protection bits, then a code too, the two of type 06h side by side. Whether
// a card has one of them is then a range of cases, which compiles to a comparison.
#[derive(Clone, Copy)]
pub enum Chip {
    I2c1,
    I2c2,
    I2c4,
    I2c8,
    I2c16,
    I2c32,
    I2c64,
    I2c128,
    I2c256,
    I2c512,
    I2c1024,
    Sle4418,
    Sle4432,
    Sle4442,
    Sle4428,
}

// What is known of a kind of card: a row of the table.
#[derive(Clone, Copy)]
pub struct Facts {
    // The paper's number for the kind.
    pub kind: u8,
    // Image bytes, and how many of them, from 0 on, are memory.
    pub size: usize,
    pub memory: usize,
    // The chip page; 0 where there is none. No Option, as with `coded` below.
    pub page: usize,
    // The type that A4 selects. A number and no enum: it is compared with the byte that A4 carries and with a raw record's.
    pub selects: u8,
    // Whether it is a code card: it has a counter and a code.
    // No Option of what follows: rules (`place_fits`, `bytes_read`, `presenting`) take these numbers of any row, so that none of them has a case without a code.
    pub coded: bool,
    // A counter with all tries, and where the counter stands.
    pub full: u8,
    pub counter: usize,
    // Where the code stands, and how long it is.
    pub code: usize,
    pub digits: usize,
    // Where the protection bytes stand, and of how many memory bytes, from 0 on, they hold the bit.
    pub bits: usize,
    pub covered: usize,
    // How many memory bytes, from 0 on, D1 may reach.
    pub reach: usize,
    // From where on the image is 00h and stays so; its size where no byte is.
    pub zeros: usize,
}

// An I2C card is memory alone.
fn i2c_row(kind: u8, size: usize, page: usize, selects: u8) -> Facts
    ensures { result ≡ i2c kind size page selects }
{
    Facts {
        kind,
        size,
        memory: size,
        page,
        selects,
        coded: false,
        full: 0,
        counter: size,
        code: size,
        digits: 0,
        bits: size,
        covered: 0,
        reach: 0,
        zeros: size,
    }
}

// A card without a code is memory and protection bytes, and else as an I2C card without pages. A row of the rules (`without_code`), as `i2c` is.
fn row_without_code(
    kind: u8,
    size: usize,
    memory: usize,
    selects: u8,
    covered: usize,
    zeros: usize,
) -> Facts
    ensures { result ≡ without_code kind size memory selects covered zeros }
{
    Facts {
        memory,
        bits: memory,
        covered,
        reach: covered,
        zeros,
        ..i2c_row(kind, size, 0, selects)
    }
}

impl Chip {
    // The chip's row.
    #[tactic(auto, unfolding(crate::specs::Kinds::facts))]
    pub fn facts(self) -> Facts
        ensures { result ≡ facts self }
    {
        match self {
            Chip::I2c1 => i2c_row(1, 128, 8, 0x01),
            Chip::I2c2 => i2c_row(2, 256, 8, 0x01),
            Chip::I2c4 => i2c_row(3, 512, 16, 0x01),
            Chip::I2c8 => i2c_row(4, 1024, 16, 0x01),
            Chip::I2c16 => i2c_row(5, 2048, 16, 0x01),
            Chip::I2c32 => i2c_row(6, 4096, 32, 0x02),
            Chip::I2c64 => i2c_row(7, 8192, 32, 0x02),
            Chip::I2c128 => i2c_row(8, 16384, 64, 0x02),
            Chip::I2c256 => i2c_row(9, 32768, 64, 0x02),
            Chip::I2c512 => i2c_row(10, 65536, 128, 0x02),
            Chip::I2c1024 => i2c_row(11, 131072, 256, 0x02),
            Chip::Sle4428 => Facts {
                kind: 20,
                size: 1152,
                memory: 1024,
                page: 0,
                selects: 0x05,
                coded: true,
                full: 0xFF,
                counter: 0x3FD,
                code: 0x3FE,
                digits: 2,
                bits: 1024,
                covered: 1024,
                reach: 0x3FD,
                zeros: 1152,
            },
            Chip::Sle4418 => row_without_code(21, 1152, 1024, 0x05, 1024, 1152),
            Chip::Sle4442 => Facts {
                kind: 30,
                size: 264,
                memory: 256,
                page: 0,
                selects: 0x06,
                coded: true,
                full: 0x07,
                counter: 260,
                code: 261,
                digits: 3,
                bits: 256,
                covered: 32,
                reach: 32,
                zeros: 264,
            },
            Chip::Sle4432 => row_without_code(31, 264, 256, 0x06, 32, 260),
        }
    }
}

// The chip of a kind number, where it is one.
// No TryFrom: a number fails in one way, and the rule (`chip_of` of specs/Kinds.antt) gives an Option, which the contract and the theorem `chips_chip_of_only` name.
#[tactic(auto, using(words::proofs::Tests::chains), unfolding(crate::specs::Kinds::chip_of, crate::specs::Kinds::chip_among))]
pub fn chip_of(kind: u8) -> Option<Chip>
    ensures { result ≡ chip_of kind }
{
    match kind {
        1 => Some(Chip::I2c1),
        2 => Some(Chip::I2c2),
        3 => Some(Chip::I2c4),
        4 => Some(Chip::I2c8),
        5 => Some(Chip::I2c16),
        6 => Some(Chip::I2c32),
        7 => Some(Chip::I2c64),
        8 => Some(Chip::I2c128),
        9 => Some(Chip::I2c256),
        10 => Some(Chip::I2c512),
        11 => Some(Chip::I2c1024),
        20 => Some(Chip::Sle4428),
        21 => Some(Chip::Sle4418),
        30 => Some(Chip::Sle4442),
        31 => Some(Chip::Sle4432),
        0 | 12..=19 | 22..=29 | 32..=255 => None,
    }
}
