// The meaning of texts, terms' and forms', stands in specs/.
#![tactic(auto)]
