// The box on single runs: the starred cases of 01, and the versions that 01 has tried, the empty ones and those that lose something, shut out.
// There is no code here.

#![tactic(auto)]
