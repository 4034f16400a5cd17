// The program `keydesk` once more, for the gate: its stream is ended by a bad record, and what comes behind that is not answered.
#![tactic(auto)]

fn main(rt: HostRuntime) {
    streams::run(&rt, &mut rt.stdin());
}
