//! Reads set bytes, a line each, and prints the numbers of each set, or a refusal where a line names none.
#![tactic(auto)]

fn main(rt: HostRuntime) {
    report::run(&rt);
}
