//! Values, rows and schemas: small types that contracts see as lists.
//! A value of a type here is told by its bytes and numbers alone, never by where it lies or how much room it has.
#![tactic(auto)]

mod bytes;
mod copied;
mod digest;
mod listed;
mod packed;
mod row;
mod schema;
mod shared;
mod spelling;
mod value;
mod value_ref;

pub use bytes::Bytes;
pub use copied::Copied;
pub use digest::{DIGEST_BYTES, Digest};
pub use listed::Listed;
pub use packed::PackedRows;
pub use row::{MAX_ROW_BYTES, MAX_TEXT_BYTES, fits_type, is_text, row_fits, row_length};
pub use schema::{Column, Columns, MAX_COLUMNS, Schema, first_repeated, has_column, is_schema};
pub use shared::Shared;
pub use spelling::{DecodeFault, RowFault, check, decode, encode, encode_onto};
pub use value::{ColType, Row, Rows, Value, compare};
pub use value_ref::{ValueRef, column_at, decode_spelled};
