// The three demands, stated together (specs/Demands.antt) and proved (proofs/Demanded.antt). No code of its own.
#![tactic(auto)]
