// The machine of 01 as definitions: specs/ has the board, the refusal tables and each call as a
// function from the board before to the answer and the board after. The crates above this one
// have the code, and their contracts cite these definitions.
#![tactic(auto)]
