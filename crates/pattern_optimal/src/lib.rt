// No word in H, S, T and W does with fewer T than the words of `gate_theory`, nor than the shortest pattern: SPEC, "Gate words" and "Shortest pattern". Theorems only: there is no code here.
#![tactic(auto)]
