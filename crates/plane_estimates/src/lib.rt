// Guesses in whole numbers of the plane, of which no region is known: nothing is claimed of them but their size.
#![tactic(auto)]

pub mod fraction;
pub mod near;
pub mod rough;
pub mod tangent;
