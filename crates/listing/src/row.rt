// Rows as RFC 4180 has them: fields separated by commas, each row ended by CR LF.
ghost use Rattle.std.specs.Prelude.{◌≡◌, Some};
ghost use Rattle.listing.specs.Rows.{row_text};
ghost use Rattle.listing.specs.Listing.{fault_row};

use crate::fault::ListingFault;
use refusals::Fault;
use std::fmt;

#[derive(Clone, Copy, Debug, PartialEq, Eq)]
pub enum Row {
    Header,
    Film { slots: usize, bytes: u64 },
    // the number of the refusal as it is written; the rules number them
    Refused { number: u32, place: u64 },
}

impl From<ListingFault> for Row {
    ghost from_gives = { λ fault row. row ≡ fault_row fault };

    fn from(fault: ListingFault) -> Row {
        Row::Refused {
            number: fault.number(),
            place: fault.place(),
        }
    }
}

impl fmt::Display for Row {
    ghost output = { λ row. Some (row_text row) };

    fn fmt<W: fmt::Write>(&self, f: &mut fmt::Formatter<W>) -> fmt::Result {
        match *self {
            Row::Header => f.write_str("row,slots,bytes\r\n"),
            Row::Film { slots, bytes } => write!(f, "film,{slots},{bytes}\r\n"),
            Row::Refused { number, place } => write!(f, "refused,{number},{place}\r\n"),
        }
    }
}
