// The model of a session of trays and its theorems: SPEC, "Trays". There is no function here.
#![tactic(auto)]
