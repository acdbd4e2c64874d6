// No code: what every crate cites. The definitions are in specs/, their laws in proofs/.
#![tactic(auto)]
