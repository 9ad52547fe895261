//! Tests of image files on devices that fail. Texts of files, what becomes of them and why they are refused are tried on the built
//! program, by `tools/image-files` with the files of `tests/inspect`.
#![tactic(auto)]

#[cfg(test)]
mod devices;
