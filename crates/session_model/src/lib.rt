// Lists of calls on a session: what each call answers and leaves, the rules of SPEC, "Calls", and demand 3. There is no code here.
#![tactic(auto)]
