// No code: the theorems that what is written reads back, and that what is read is written again.
#![tactic(auto)]
