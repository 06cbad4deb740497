// When the product of two coded forms fits its tables: definitions and laws, in specs/. The functions stand in the crate code_product.
#![tactic(auto)]
