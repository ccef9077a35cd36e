// Charges as the code adds them up: weights, a t split by a period, and links over what is charged. It knows tables as
// numbers, and neither a row nor code.
#![tactic(auto)]
