// Document 01's starred examples, as one table under one claim. It has no code.
#![tactic(auto)]
