// The book and the printer's answer to it. This crate has no code: its definitions stand in specs/.
#![tactic(auto)]
