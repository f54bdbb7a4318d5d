// What holds of every run of the step: theorems alone. The claims are specs/Demands.antt; there is no function to call.
#![tactic(auto)]
