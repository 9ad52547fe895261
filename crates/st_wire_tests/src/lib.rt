//! Tests of the public calls of commands, replies and streams. They stand in a crate of their own, below images, so that no
//! library is proved twice for them, and that they are proved while the upper libraries still are. What the built program shows of
//! lines and replies stands in `tests/lines.txt`, `tests/out-of-memory` and `tools/bad-input`.
#![tactic(auto)]

#[cfg(test)]
mod commands;
#[cfg(test)]
mod long_lines;
#[cfg(test)]
mod replies;
#[cfg(test)]
mod site_reports;
#[cfg(test)]
mod streams;
