// The starred points of SPEC, "Worked points", proved over one table (specs/Table.antt). There is no code here.
#![tactic(auto)]
