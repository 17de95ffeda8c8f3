//! Tests of the crates that read a script's text: tokens, sentences, arithmetic, trees and their parts, faults.
//! They stand in one crate since a crate with tests is proved once more with them.
#![tactic(auto)]

#[cfg(test)]
mod arithmetic;
#[cfg(test)]
mod copies;
#[cfg(test)]
mod notes;
#[cfg(test)]
mod parser;
#[cfg(test)]
mod parts;
#[cfg(test)]
mod reading;
#[cfg(test)]
mod scripts;
#[cfg(test)]
mod tokens;
