// The program `clear` where there is no file `sampling`: the samples are those of the printed table.
#![tactic(auto)]

use awardwriter::Layout;

fn main(rt: HostRuntime) {
    console::run(&rt, Layout::Sheet);
}
