// What `record_forms` writes is read by `record` as what the numbers say (specs/Read.antt). There is no code here.
#![tactic(auto)]
