// The reference's example words and answers, proved over the definitions. This crate has no code: the table is in specs/.
#![tactic(auto)]
