//! Tests of `hv_sql` as its callers see it: tokens, trees, and the bytes of faults. There is nothing else in this crate.
#![tactic(auto)]

#[cfg(test)]
mod cases;
#[cfg(test)]
mod importing;
#[cfg(test)]
mod letters;
#[cfg(test)]
mod lexing;
#[cfg(test)]
mod marking;
#[cfg(test)]
mod parsing;
#[cfg(test)]
mod printer;
#[cfg(test)]
mod reading;
#[cfg(test)]
mod statements;
