ghost use Rattle.std.specs.Prelude.{◌≡◌, true};
ghost use Rattle.cards.specs.Verdicts.{card_takes};

mod loading;
mod reading;
pub(crate) mod showing;
#[cfg(test)]
mod tests;

// A card: an image of table records that is lent, and the meter of the rows read from it. Every card that exists has an
// image whose records all passed the load, so no call checks a record again.
#[derive(Drop)]
pub struct Card<'a> {
    image: &'a [u8],
    meter: u64,
    ghost passed: { card_takes image.now ≡ true },
}
