//! Tests that cross crates: from a statement's text by its tree and its bound query to the rows that the plain executor gives; and tests of
//! `hv_bind` and `hv_expr` as their callers see them. There is nothing else in this crate.
#![tactic(auto)]

#[cfg(test)]
mod answers;
#[cfg(test)]
mod asked;
#[cfg(test)]
mod binding;
#[cfg(test)]
mod conditions;
#[cfg(test)]
mod database;
#[cfg(test)]
mod drafts;
#[cfg(test)]
#[cfg(test)]
mod plain;
#[cfg(test)]
mod plain_groups;
#[cfg(test)]
mod query_line;
#[cfg(test)]
mod written;
