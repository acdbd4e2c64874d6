// No code: writes and accesses in any interleaving, over any device. The definitions are in specs/, their laws in proofs/.
#![tactic(auto)]
