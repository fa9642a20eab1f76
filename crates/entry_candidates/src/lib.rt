// The search's candidates: the least solution that has a given first coordinate and third, among the points that a line and a circle leave.
#![tactic(auto)]

pub mod column;
mod offer;
mod order;
pub mod root;
mod sums;

use ring::Point;
pub use sums::Want;
