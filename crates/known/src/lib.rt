// Document 01's starred examples, as one table: specs/ has it, and no code is here.
#![tactic(auto)]
