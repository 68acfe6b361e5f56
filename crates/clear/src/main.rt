// Reads a bid book from standard input and prints its award sheet, or the one line of the refusal. What is awarded is sampled by the table of
// the file `sampling` of the working directory, where there is one, and else by the printed one.
#![tactic(auto)]

use awardwriter::Layout;

fn main(rt: HostRuntime) {
    console::run(&rt, Layout::Sheet);
}
