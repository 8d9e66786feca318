// The records of an image, one after another.
ghost use Rattle.std.specs.Prelude.{◌≡◌, ℕ, ◌+◌, ◌^◌, ◌<◌, length};

use crate::format::record_head;

// A record: where its first byte stands in the image, its bytes, the size and the kind that its head gives, and its payload,
// which is shorter than the size where the image ends too early.
// The kind is a number still: a record that goes on past the end is refused before its kind is looked at.
#[derive(Clone, Copy)]
pub(crate) struct Record<'a> {
    pub(crate) place: usize,
    pub(crate) bytes: &'a [u8],
    pub(crate) size: usize,
    pub(crate) kind: u16,
    pub(crate) payload: &'a [u8],
}

// What is left of an image: bytes, which stand at `place` there. They begin with the payload of the record before, which has
// `over` bytes, or as many as there are; the next call passes over it. So the place of a record does not hang on the
// test for the image's end, and a walk over many records does not wait for that.
#[derive(Drop)]
pub(crate) struct Records<'a> {
    bytes: &'a [u8],
    place: usize,
    over: usize,
    ghost fits: { place + length bytes.now < 2 ^ 64 },
}

impl<'a> Iterator for Records<'a> {
    ghost use Rattle.std.specs.Iterator.{YieldsFirstBy, item_count};
    ghost use Rattle.cards.specs.Views.{as_record, records_left};

    type Item = Record<'a>;

    ghost next_gives = { YieldsFirstBy as_record records_left };

    ghost remaining = { item_count records_left };

    fn next(&mut self) -> Option<Record<'a>> {
        if self.over > self.bytes.len() {
            return None;
        }
        let rest = &self.bytes[self.over..];
        let head = record_head(rest)?;
        let payload = &head.tail[..head.size.min(head.tail.len())];
        let place = self.place + self.over;
        self.place = place + 4;
        self.bytes = head.tail;
        self.over = head.size;
        Some(Record {
            place,
            bytes: &rest[..4 + payload.len()],
            size: head.size,
            kind: head.kind,
            payload,
        })
    }
}

impl<'a> Records<'a> {
    ghost use Rattle.cards.specs.Format.{records};
    ghost use Rattle.cards.specs.Views.{records_left};

    pub(crate) fn of(image: &'a [u8]) -> Self
        ensures { records_left result ≡ records image.now }
    {
        Records {
            bytes: image,
            place: 0,
            over: 0,
        }
    }
}
