//! Tests of what no clause and no case shows of streams, of devices and files, and of records.
#![tactic(auto)]

#[cfg(test)]
mod disk;
#[cfg(test)]
mod record;
#[cfg(test)]
mod streams;
