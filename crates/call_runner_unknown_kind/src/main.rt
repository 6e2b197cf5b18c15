// The call runner on calls that end with a kind that there is not: 31.
#![tactic(auto)]

fn main(rt: HostRuntime) {
    call_session::make_calls_of_input(&mut rt.stdin(), &mut rt.stdout(), &rt);
}
