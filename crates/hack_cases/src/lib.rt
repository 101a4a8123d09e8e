//! The tests of the other crates, as rows of texts and answers that were worked out by hand: a line `text ¦ answer` of
//! `src/rows/NAME.rt`, for the crate of that name. There `\n`, `\t`, `\\` and `\xNN` are bytes, and `\*COUNT«text»` is a
//! text so many times. `run.rt` has the tables of rows, and which call answers each. The crates below have no tests, since
//! a crate with tests is proved a second time with them, and this one has a single test, since each test is proved too.
#![tactic(auto)]

#[cfg(test)]
mod base;
#[cfg(test)]
mod below;
#[cfg(test)]
mod bodies;
#[cfg(test)]
mod diagnostics;
#[cfg(test)]
mod expressions;
#[cfg(test)]
mod files;
#[cfg(test)]
mod folding;
#[cfg(test)]
mod inferring;
#[cfg(test)]
mod lexer;
#[cfg(test)]
mod machine;
#[cfg(test)]
mod naming;
#[cfg(test)]
mod operators;
#[cfg(test)]
mod plain;
#[cfg(test)]
mod rows;
#[cfg(test)]
mod run;
#[cfg(test)]
mod scripts;
#[cfg(test)]
mod serve;
#[cfg(test)]
mod streams;
#[cfg(test)]
mod texts;
#[cfg(test)]
mod types;
#[cfg(test)]
mod written;
