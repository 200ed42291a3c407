// No code: what is proved of the library, in one place. specs/ has the statements, proofs/ where each is proved.
#![tactic(auto)]
