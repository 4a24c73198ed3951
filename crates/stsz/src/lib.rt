// Sample-size boxes of ISO/IEC 14496-12: one size for all samples, or a table of sizes.

#![tactic(auto)]

mod reader;
mod record;
mod sizes;
mod table;

pub use reader::StszReader;
pub use record::IndexRecord;
