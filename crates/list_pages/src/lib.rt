// What the list program prints: SPEC, "List program".
#![tactic(auto)]

mod page;

pub use page::{Page, next};
