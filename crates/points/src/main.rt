// The points of documents 01 and 02 that the command program can show.
#![tactic(auto)]

fn main(rt: HostRuntime) {
    terminal::run(&rt);
}
