// The call runner (document 01, "Call runner"): the calls of standard input, a line for each, then a line for each parent.
// The file stdin is a history that reaches every refusal but 31 that calls in bytes can reach (9, 10, 12 to 17, 19, 21 to 24): document 01's worked example,
// the number 0, numbers that stand on both sides of a row's end, forks across one and two full rows, a row that is lost because it was spilled again
// after its key was deleted, full lists, and a 129th token; then calls of all kinds, so many that two of them straddle the end of the input's buffer.
// The programs call_runner_unknown_kind, call_runner_unknown_parent and call_runner_cut_call reach 31. The files stdout were made by
// compare/runner_model.py.
#![tactic(auto)]

fn main(rt: HostRuntime) {
    call_session::make_calls_of_input(&mut rt.stdin(), &mut rt.stdout(), &rt);
}
