// 02, request 5: a run is "read from the lent run in order, one row at a time, by a reader that holds the bytes".
#![tactic(auto)]

ghost use Rattle.std.specs.Prelude.{◌≡◌};
ghost use Rattle.row.specs.Row.{greatest, width};
ghost use Rattle.row.specs.Reading.{read_at};

use row::{Place, Read};

// A place in a run, and the run's bytes.
#[derive(Drop)]
pub struct Reader<'a> {
    pub place: Place,
    pub run: &'a [u8],
}

impl<'a> Reader<'a> {
    pub fn new(place: Place, run: &'a [u8]) -> Reader<'a>
        ensures { (result.place ≡ place) × (result.run ≡ run.entry) }
    {
        Reader { place, run }
    }

    // The row at the place, and the place after it.
    pub fn next(self) -> Read
        ensures { result ≡ read_at greatest width self.entry.run.now self.entry.place.at }
    {
        self.place.read(self.run)
    }
}

// What a reader at the place reads of the run. Its parameters are plain, so that its callers need no proof by hand.
pub fn next_row(place: Place, run: &[u8]) -> Read
    ensures { result ≡ read_at greatest width run.now place.at }
{
    Reader::new(place, run).next()
}
