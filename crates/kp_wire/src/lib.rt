//! The meaning of a byte: numbers of one to ten bytes, lists of fields, and the checksum of Kafka's wire formats.
#![tactic(auto)]

mod array;
mod blob;
mod boolean;
mod checksum;
mod codec;
mod fault;
mod field;
mod hash;
pub mod laws;
mod measured;
mod number;
mod records;
mod seq;
mod string;
mod text;
mod varint;

pub use array::{
    put_array, put_nullable_array, read_array, read_nullable_array, size_of_array,
    size_of_nullable_array,
};
pub use blob::Blob;
pub use boolean::{put_bool, read_bool, size_of_bool};
pub use checksum::crc32c;
pub use codec::{ReadField, read_into, read_many};
pub use fault::{ReadError, WireFault};
pub use field::{end_before, read_bytes, read_utf8};
pub use hash::{murmur2, partition_of_key};
pub use measured::{MeasuredField, add_sizes, put_each};
pub use number::{
    put_i8, put_i16, put_i32, put_i64, put_u32, read_i8, read_i16, read_i32, read_i64, read_u32,
    size_of_i16, size_of_i32, size_of_i64,
};
pub use records::{put_records, read_records, size_of_records};
pub use seq::Seq;
pub use string::{
    put_nullable, put_nullable_text, put_string, put_text, read_nullable, read_nullable_text,
    read_string, read_text, size_of_nullable_text, size_of_text, take_nullable, take_string,
};
pub use text::Text;
pub use varint::{
    put_varint, put_varlong, read_varint, read_varlong, take_varint, take_varlong, varint_len,
    varlong_len,
};
