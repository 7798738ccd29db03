//! Tests of `hv_world` beside a plain reading of its reports: sessions that are picked at random, and calls that fail. There is nothing else in this crate.
#![tactic(auto)]

#[cfg(test)]
mod asked;
#[cfg(test)]
mod checked;
#[cfg(test)]
mod drawn;
#[cfg(test)]
mod failing;
#[cfg(test)]
mod plain;
#[cfg(test)]
mod walked;
#[cfg(test)]
mod walks;
