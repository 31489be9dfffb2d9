// Paper 01's starred figures. There is no code here: specs/ has the table of facts and proofs/ the one proof that closes it.
#![tactic(auto)]
