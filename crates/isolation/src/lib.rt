// No code: what joins the table, the writes, the MPU and the order of events. Demand 3.
#![tactic(auto)]
