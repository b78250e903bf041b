// The grammar of document 01: this crate has no code, its definitions and laws stand in specs/.
#![tactic(auto)]
