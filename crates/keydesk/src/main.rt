// The desk as a program. Its stream in the gate ends with a record that is answered.
#![tactic(auto)]

fn main(rt: HostRuntime) {
    streams::run(&rt, &mut rt.stdin());
}
