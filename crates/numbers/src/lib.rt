// No code: the ground of the definitions and laws above. Numbers of n bits and the signed numbers that they stand for, masks,
// tables of a rule, and tables of statuses.
#![tactic(auto)]
