// The laws of lists, integers and tables that several crates' proofs cite. There is no code here: specs/ has the laws.
#![tactic(auto)]
