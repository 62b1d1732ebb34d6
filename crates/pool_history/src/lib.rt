// What holds of a pool after any sequence of calls (demand 3 of the mission). It holds no code: specs/ says what a sequence of calls is and what
// stands after it, by the calls alone; proofs/ has what each call keeps, and the theorems.

#![tactic(auto)]
