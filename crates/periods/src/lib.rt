// Phase, held-back jobs, imposed and released charge over any period. It knows no table: only numbers.
#![tactic(auto)]
