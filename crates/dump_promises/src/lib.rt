// The checker and the repair of dumped boards are right, and what is promised of runs from a fresh board holds from every board that is accepted. No code.
#![tactic(auto)]
