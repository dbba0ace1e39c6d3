// The owners of pages in the two spaces of a conversion: a byte each, as the old table has them, and a mark each, sixteen in a
// number. Each space is judged and written here; when that is done is for `converting` to say.
#![tactic(auto)]

mod bytes;
mod numbers;

pub use bytes::{has_stray_byte, lay_bytes};
pub use numbers::{has_stray_mark, lay_numbers};
