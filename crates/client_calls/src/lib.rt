//! What a client's calls go by: what a call asks for and the parts that it is cut into, attempts that may still be placed, and the locations and the files that are
//! kept between calls (sections 2.4, 2.7.1, 3.1 and 3.3).
#![tactic(auto)]

pub mod asked;
pub mod attempt;
pub mod effects;
pub mod live;
pub mod locations;
pub mod open_files;
pub mod parts;
pub mod plan;
pub mod sent;
pub mod sums;
