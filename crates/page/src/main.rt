// Reads a bid book from standard input and prints the page of its award, or the one line of the refusal, sampled as by `clear`.
#![tactic(auto)]

use awardwriter::Layout;

fn main(rt: HostRuntime) {
    console::run(&rt, Layout::Page);
}
