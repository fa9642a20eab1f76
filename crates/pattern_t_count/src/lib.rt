// The word that the calls `shortest` and `words` give together has the fewest T of all words that meet the job: SPEC, "Shortest pattern". Theorems only: there is no code here.
#![tactic(auto)]
