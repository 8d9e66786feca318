// Why a call is refused, and where.
ghost use Rattle.std.specs.Prelude.{◌≡◌, Ok, Err};
ghost use Rattle.terms.specs.Faults.{layer_number, told, on_sheet, at_place, refused_at, of_row, of_layer, of_table, with_block, in_block};

use crate::refusals::Refusal;

// The part of the engine that a refusal comes from.
#[derive(Clone, Copy, PartialEq, Eq, Debug)]
pub enum Layer {
    Sheet = 1,
    Translation = 2,
    Run = 3,
    Source = 4,
}

// What a refused call tells: the same fields whatever it was, so that a device can show them as they are. What does not
// apply is 0, as the rules of the refusals have it.
#[derive(Clone, Copy, PartialEq, Eq, Debug)]
pub struct Fault {
    pub refusal: Refusal,
    pub layer: Layer,
    pub block: u8,
    pub table: u8,
    pub row: usize,
    pub place: usize,
}

// By `as`, for each enum anew: no derive makes the `From` that gives an enum's number.
impl From<Layer> for u8 {
    ghost from_gives = { λ layer number. number ≡ layer_number layer };

    fn from(layer: Layer) -> u8 {
        layer as u8
    }
}

impl Fault {
    // The fault of a call as a whole: its layer alone.
    pub fn of_layer(refusal: Refusal, layer: Layer) -> Fault
        ensures { result ≡ of_layer refusal layer }
    {
        Fault {
            refusal,
            layer,
            block: 0,
            table: 0,
            row: 0,
            place: 0,
        }
    }

    // The fault of an entry on a sheet: the sheet's layer, and the current block.
    pub fn on_sheet(refusal: Refusal, block: u8) -> Fault
        ensures { result ≡ on_sheet refusal block }
    {
        Fault::of_layer(refusal, Layer::Sheet).with_block(block)
    }

    // The fault of loading or writing: the source's layer, and the place alone.
    pub fn at_place(refusal: Refusal, place: usize) -> Fault
        ensures { result ≡ at_place refusal place }
    {
        let fault = Fault::of_layer(refusal, Layer::Source);
        Fault { place, ..fault }
    }

    // The fault of a fetch: the source's layer, the table and the row as asked for.
    pub fn of_row(refusal: Refusal, table: u8, row: usize) -> Fault
        ensures { result ≡ of_row refusal table row }
    {
        Fault {
            table,
            row,
            ..Fault::of_layer(refusal, Layer::Source)
        }
    }

    // The fault of a block that a run's checks refuse: the block, and the table concerned.
    pub fn of_table(refusal: Refusal, block: u8, table: u8) -> Fault
        ensures { result ≡ of_table refusal block table }
    {
        let fault = Fault::of_layer(refusal, Layer::Run).with_block(block);
        Fault { table, ..fault }
    }

    // The same fault in a block.
    fn with_block(self, block: u8) -> Fault
        ensures { result ≡ with_block block self }
    {
        Fault { block, ..self }
    }

    // The verdict on a part of what is loaded, with the part's place.
    pub fn placed(verdict: Result<(), Refusal>, place: usize) -> Result<(), Fault>
        ensures { result ≡ refused_at verdict place (Ok tt) }
    {
        verdict.map_err(|refusal| Fault::at_place(refusal, place))
    }

    // A source's answer with the block added to its fault.
    pub fn in_block(answer: Result<(), Fault>, block: u8) -> Result<(), Fault>
        ensures { result ≡ in_block block answer }
    {
        answer.map_err(|fault| fault.with_block(block))
    }

    // The number by which a call's answer is told: 0 where it was taken. It is no `From`, since neither of the two types is
    // this crate's.
    pub fn number_of(answer: Result<(), Fault>) -> u8
        ensures { result ≡ told answer }
    {
        match answer {
            Ok(()) => 0,
            Err(fault) => u8::from(fault.refusal),
        }
    }
}
