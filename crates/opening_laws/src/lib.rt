// What each deed does to the cells of an opening; this crate has definitions and laws only, in specs/.
#![tactic(auto)]
