// Lists: the full list of the solutions that a job selects, and its theorems: SPEC, "Walk". There is no function here.
#![tactic(auto)]

use ring::Point;
