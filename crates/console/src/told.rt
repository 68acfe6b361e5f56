// What is told on standard error. A line that cannot be written there is left out, since there is no other place to tell it.
use awardwriter::Layout;
use std::io;
use std::io::Error;

// A program is named by the layout that it prints.
#[derive(Clone, Copy)]
pub struct Program<'a> {
    pub rt: &'a HostRuntime,
    pub layout: Layout,
}

impl Program<'_> {
    fn name(self) -> &'static str {
        match self.layout {
            Layout::Sheet => "clear",
            Layout::Page => "page",
        }
    }

    // What failed, and why.
    pub fn failed(self, what: &str, error: Error) {
        let _told = self.reason(what, error);
    }

    // In the system's words without its number.
    fn reason(self, what: &str, error: Error) -> io::Result<()> {
        let name = self.name();
        let said = format!(in self.rt.alloc(); "{error}")?;
        let words = said.as_str();
        let reason = match words.split_once(" (os error ") {
            Some((reason, _)) => reason,
            None => words,
        };
        eprintln!(self.rt; "{name}: {what}: {reason}")
    }

    pub fn table_refused(self) {
        let name = self.name();
        let _told = eprintln!(self.rt; "{name}: sampling: the table is refused");
    }
}
