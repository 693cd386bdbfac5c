// The calls for C, exported: each calls the function of its name in `card_reader` and has its clause. None has a `requires`.

#![tactic(auto)]

ghost use Rattle.std.specs.Prelude.{[], length};
ghost use Rattle.calls.specs.Calls.{raw_exchange, raw_insertion, raw_removal, Returns};

// One host message: the answer's length, or the refusal's number as a negative.
#[unsafe(no_mangle)]
pub extern "C" fn card_reader_message(
    raw: &mut [u8],
    image: &mut [u8],
    message: &[u8],
    answer: &mut [u8],
) -> i32
    ensures { Returns (raw_exchange raw.old image.old message.now (length answer.old)) result raw.new
        image.new answer.old answer.new }
{
    card_reader::card_reader_message(raw, image, message, answer)
}

// A card is put in: 0, or the refusal's number as a negative.
#[unsafe(no_mangle)]
pub extern "C" fn card_reader_insert(raw: &mut [u8], kind: u8, image: &[u8]) -> i32
    ensures { Returns (raw_insertion raw.old kind image.now) result raw.new image.now [] [] }
{
    card_reader::card_reader_insert(raw, kind, image)
}

// The card is taken out: 0, or -4.
#[unsafe(no_mangle)]
pub extern "C" fn card_reader_remove(raw: &mut [u8]) -> i32
    ensures { Returns (raw_removal raw.old) result raw.new [] [] [] }
{
    card_reader::card_reader_remove(raw)
}
