// The command program.
#![tactic(auto)]

fn main(rt: HostRuntime) {
    terminal::run(&rt);
}
