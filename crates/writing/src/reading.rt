// The record of a table that a card has already.
ghost use Rattle.std.specs.Prelude.{◌≡◌};
ghost use Rattle.std.specs.Option.{option_map};
ghost use Rattle.cards.specs.CardTables.{raw_table};
ghost use Rattle.writing.specs.Laws.{Bytes, WrittenOnce};

use cards::Card;

// The record that counts for a table's number, head and payload, as it stands in the card's image. Where no row of the table
// is unreadable it is the table's one writing: the bytes that `write_table` gives for it.
pub fn record_of<'a>(card: &Card<'a>, table: u8) -> Option<&'a [u8]>
    ensures found { option_map (λ bytes. bytes.now) result ≡ option_map (λ t. t.whole) (raw_table card.now.image.now table) }
    ensures once { WrittenOnce card.now.image.now table (option_map (λ bytes. bytes.now) result) }
{
    let bytes = card.record_of(table)?;
    check_bytes(bytes);
    Some(bytes)
}

// A byte is below 256 by its type. A proof knows that of what a function is passed, and not of what a call gave.
fn check_bytes(_bytes: &[u8])
    ensures { Bytes _bytes.now }
{}
