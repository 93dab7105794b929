// Histories of frames: every track accounted for, and no id given twice. The statements are in specs/, their proofs in proofs/; no code is here.
#![tactic(auto)]
