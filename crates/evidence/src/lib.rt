// Where an account's mint comes from: what balances and token instructions record, what plain transfers hand on, and how sure it is.
// No code. specs/ defines the mint table on values; proofs/ shows that the order of the evidence and of the transfers decides nothing
// but which of several chains fills an account in, and that the passes come to an end.
#![tactic(auto)]
