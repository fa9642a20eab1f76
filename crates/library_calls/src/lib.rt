// What the library's calls without a session take and give, as plain numbers: their structs, and what each is in Rattle. The entries are those of `bowujita`.
#![tactic(auto)]

pub mod alone;
pub mod companions;
