// No code: the contract of each public function of the libraries allows one answer alone. docs/TIGHTNESS.md
// says how a function's law is named, and lists the exceptions.
#![tactic(auto)]
