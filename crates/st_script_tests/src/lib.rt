//! Tests of what no script on the built program shows: claims, steps by themselves, devices that fail, the numbers of an image, and worked
//! scripts with another history than the program's; and of a server of a new image. Scripts, lines and sources are in tests/ at the top of
//! the repository.
#![tactic(auto)]

#[cfg(test)]
mod calls;
#[cfg(test)]
mod claims;
#[cfg(test)]
mod devices;
#[cfg(test)]
mod images;
#[cfg(test)]
mod scripts;
#[cfg(test)]
mod serving;
#[cfg(test)]
mod sessions;
#[cfg(test)]
mod sessions_in_memory;
#[cfg(test)]
mod steps;
#[cfg(test)]
mod writes;
