// The call runner on calls the last of which is cut: 31.
#![tactic(auto)]

fn main(rt: HostRuntime) {
    call_session::make_calls_of_input(&mut rt.stdin(), &mut rt.stdout(), &rt);
}
