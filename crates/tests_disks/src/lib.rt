//! Tests of disks and of the parts of stores on them.
#![tactic(auto)]

#[cfg(test)]
mod buffers;
#[cfg(test)]
mod bytes_on_disk;
#[cfg(test)]
mod disks;
#[cfg(test)]
mod slots;
#[cfg(test)]
mod stops;
