//! `sizes` once more, on lines that are not as they should be.
#![tactic(auto)]

fn main(rt: HostRuntime) {
    report::run(&rt);
}
