// Whole numbers of the plane, of which no region is known: products, lengths and roots rounded up, and the share of a half plane.
#![tactic(auto)]

pub mod products;
pub mod roots;
