// What is known behind the gate: laws alone, in specs/.
#![tactic(auto)]
