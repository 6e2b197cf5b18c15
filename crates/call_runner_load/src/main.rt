// The call runner on the load that load_writer writes: calls of which many are refused, as the lists are short, and none by 31.
#![tactic(auto)]

fn main(rt: HostRuntime) {
    call_session::make_calls_of_input(&mut rt.stdin(), &mut rt.stdout(), &rt);
}
