// What the rules see of the catalogue, by cells: definitions and laws alone, in specs/.
#![tactic(auto)]
