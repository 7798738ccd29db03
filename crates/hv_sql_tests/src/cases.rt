// Cases, each a line of a statement, ` => ` and what it is.
mod select_cases;
mod table_cases;
mod where_cases;

pub use select_cases::{COUNT_CASES, GROUP_CASES, ITEM_CASES, ORDER_CASES, PLACE_CASES};
pub use table_cases::{BYTE_CASES, CHUNK_CASES, NAME_CASES, SESSION_CASES, TABLE_CASES};
pub use where_cases::{COMPARISON_CASES, CONDITION_CASES, DEPTH_CASES, VALUE_CASES};
