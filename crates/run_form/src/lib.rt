// The words of a form's run, and the operations on forms as operations on such words: definitions and laws, in specs/.
#![tactic(auto)]
