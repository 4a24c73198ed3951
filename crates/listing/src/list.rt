// All that the program does but input and output.
ghost use Rattle.std.specs.Prelude.{◌≡◌};
ghost use Rattle.listing.specs.Listing.{film_row, rows_of};
ghost use Rattle.listing.specs.Cut.{ListsCut};

use crate::fault::{ListingFault, MAX_INPUT};
use crate::row::Row;
use films::make::make_film;
use ivf::IvfReader;

// How many totals the program has room for: a fixed table, since the listing allocates nothing.
const TOTALS: usize = 1_025;

// Apart from `film_row`: tried as one function, in which the search doesn't find the law on cut files.
#[tactic(auto, using(crate::proofs::Opened::opened_within, crate::proofs::Opened::opened_row))]
fn row_of(input: &[u8]) -> Result<Row, ListingFault>
    ensures { result ≡ film_row input.now }
{
    if input.len() > MAX_INPUT {
        return Err(ListingFault::InputTooLong);
    }
    let mut reader = IvfReader::open(input)?;
    let mut totals = [0u64; TOTALS];
    let slots = make_film(&mut reader, &mut totals)?;
    let bytes = totals[slots];
    Ok(Row::Film { slots, bytes })
}

// How much film an IVF file holds: its slots and its bytes.
#[tactic(auto, using(crate::proofs::Cut::lists_cut))]
pub fn film_row(input: &[u8]) -> Result<Row, ListingFault>
    ensures row { result ≡ film_row input.now }
    ensures cut { ListsCut input.now result }
{
    row_of(input)
}

// The rows of a listing: the header, and then the film or what refused it.
pub fn listing(input: &[u8]) -> [Row; 2]
    ensures { result ≡ rows_of input.now }
{
    [Row::Header, film_row(input).unwrap_or_else(Row::from)]
}
