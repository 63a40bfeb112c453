//! Tests of what a command of the program carries out, a folder each: `replay` has readers and
//! writers that end, fail or never end, and a building's text; `serve` has buildings that are served
//! on a socket of this machine, in one process with the kiosks and cars that call, while a sync is
//! held. Scripts, command lines, streams that fail under a command, servings and images are data, in
//! `examples/cases`.
#![tactic(auto)]

#[cfg(test)]
mod replay;
#[cfg(test)]
mod serve;
