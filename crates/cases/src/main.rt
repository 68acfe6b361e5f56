// Runs the cases of document 01, section "Cases", and others at the edges of the rules, and prints what it gets. The cases stand in
// stdin, which begins with how they are written, and what is to be printed in stdout.
#![tactic(auto)]

// Standard input cut into cases, and their numbers; answers about texts, records and sampling tables, and how they are printed.
mod numbers;
mod question;
mod records;
mod show;
mod tables;
mod texts;

use numbers::Numbers;
use question::{Case, Question};
use std::io;

fn main(rt: HostRuntime) -> io::Result<()> {
    let mut bytes = [0u8; 65536];
    let n = input::read(&mut rt.stdin(), &mut bytes)?;
    run(&rt, &bytes[..n])
}

// Answers each case. What it is about is the text, the record or the table that stands last.
fn run(rt: &HostRuntime, bytes: &[u8]) -> io::Result<()> {
    let mut about = Case { rest: bytes };
    for at in 0..bytes.len() {
        if bytes[at] == b'%' {
            let case = Case {
                rest: &bytes[at + 1..],
            };
            if matches!(case.kind(), b't' | b'b' | b'l') {
                about = case;
            }
            answer(rt, about, case)?;
        }
    }
    Ok(())
}

// A number in the line is the length of an output, or numbers are the quantities of a split.
fn answer(rt: &HostRuntime, about: Case, case: Case) -> io::Result<()> {
    let line = case.line();
    show::line(rt, line)?;
    let numbers = Numbers::of(line);
    let question = Question {
        kind: line.first().copied().unwrap_or(0),
        body: about.body(),
        numbers: &numbers,
    };
    let mut out = [b'.'; 600];
    let out = &mut out[..question.size()];
    match about.kind() {
        b'l' => tables::answer(rt, question, out),
        b't' => texts::answer(rt, question, out),
        _ => records::answer(rt, question, out),
    }
}
