//! Bits, most significant first: lists of bytes and of bits, a reader that takes fields off a slice of bytes, and a
//! writer that puts them together again.
//!
//! A read takes exactly the next bits, or answers that bits are missing, with the first bit of the field, and leaves the
//! reader where it was. A writer holds exactly the bits that were put into it, also after a call that is refused, and its
//! bytes are these bits and the fewest zeros that fill the last byte. Contracts see a reader as a text of bits and a place
//! in it, and a list or a writer as its entries. How bits are kept is private to this crate: packed in words of 64, the first
//! bit highest. `words` gives them so. `Items` is the list type of the crates above.
#![tactic(auto)]

mod bits;
mod faults;
mod fields;
mod items;
mod reader;
mod slices;
#[cfg(test)]
mod tests;
mod words;
mod writer;

pub use bits::Bits;
pub use faults::{ReadFault, Short};
pub use fields::{flag, put_small, small};
pub use items::{Items, Octets};
pub use reader::BitReader;
pub use writer::BitWriter;
