// No code: the marked examples of the scope, as one list, and the one theorem over it. Each is a raw
// request and what is told of its answer, and of M7 and M8 also of their roads, so they stand above
// `answer` and `roads`.
#![tactic(auto)]
