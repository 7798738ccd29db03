//! Tests of `hv_row` as its callers see it: values, lists, schemas, and rows with their bytes. There is nothing else in this crate.
#![tactic(auto)]

#[cfg(test)]
mod bytes_of_rows;
#[cfg(test)]
mod lists;
#[cfg(test)]
mod long_rows;
#[cfg(test)]
mod made;
#[cfg(test)]
mod packed;
#[cfg(test)]
mod values;
