// The listing of a film: from the bytes of an IVF file to rows, and from rows to text.

#![tactic(auto)]

pub mod fault;
pub mod list;
pub mod row;
