// Reads a swap file, from the path that is named or from standard input, and says what it holds or why it is refused.
#![tactic(auto)]

use plan::plan::Plan;
use records::reader::Reader;
use records::record::Statement;
use std::io::{self, Read};
use std::process::ExitCode;
use std::{env, fs};
use swap::faults::{Fault, Layer};
use swapfile::refusal::Refusal;
use thiserror::Error;

// Why nothing can be said of a file.
#[derive(Debug, Drop, Error)]
enum Failure {
    #[error("inspect takes one file, or none to read standard input")]
    Usage,
    #[error("cannot read {path}: {reason}")]
    Unreadable { path: String, reason: io::Error },
    #[error("out of memory")]
    Memory,
    #[error("{0}")]
    Io(#[from] io::Error),
}

// The bytes of the file that is named, or of standard input where none is.
fn input(rt: &HostRuntime) -> Result<Vec<u8>, Failure> {
    let mut words = env::args(rt)?.skip(1);
    let Some(path) = words.next() else {
        let mut bytes = Vec::new(rt.alloc());
        rt.stdin().read_to_end(&mut bytes)?;
        return Ok(bytes);
    };
    if words.next().is_some() {
        return Err(Failure::Usage);
    }
    fs::read(rt, path.as_str()).map_err(|reason| Failure::Unreadable { path, reason })
}

fn show(rt: &HostRuntime, at: usize, leg: usize, statement: Statement) -> io::Result<()> {
    match statement {
        Statement::Heading(number) => println!(rt; "{at}: heading, swap {number}"),
        Statement::Terms(terms) => println!(rt; "{at}: terms, {terms}"),
        Statement::Holding(holding) => println!(rt; "{at}: holding, {holding}"),
        Statement::Leg(part) => println!(rt; "{at}: leg {leg}, {part}"),
    }
}

// Each record before byte `end`, in words, with its place.
fn show_records(rt: &HostRuntime, bytes: &[u8], end: usize) -> io::Result<()> {
    let mut reader = Reader::new(bytes);
    // counted by hand: legs have numbers of their own among the records, and a chain over fallible records is no plainer
    let mut legs = 0usize;
    while let Ok(Some((at, record))) = reader.next() {
        if at >= end {
            break;
        }
        if let Some(statement) = record.stated() {
            show(rt, at, legs, statement)?;
            if let Statement::Leg(_) = statement {
                legs = legs.saturating_add(1);
            }
        }
    }
    Ok(())
}

fn show_plan(rt: &HostRuntime, plan: &Plan) -> io::Result<()> {
    let number = plan.number();
    let terms = plan.terms();
    let span = plan.span();
    let last = plan.last_tick();
    println!(rt; "accepted: swap {number}, {terms}, span {span}, last tick {last}")
}

fn show_refusal(rt: &HostRuntime, fault: Fault) -> io::Result<()> {
    let number = fault.number();
    let place = fault.place;
    println!(rt; "refused {number} place {place}")?;
    println!(rt; "{fault}")
}

fn run(rt: &HostRuntime) -> Result<(), Failure> {
    let bytes = input(rt)?;
    match Plan::read(rt.alloc(), &bytes) {
        Ok(plan) => {
            show_records(rt, &bytes, bytes.len())?;
            show_plan(rt, &plan)?;
        }
        Err(Refusal::Fault(fault)) => {
            let end = match fault.layer() {
                Layer::File => fault.place,
                Layer::Plan | Layer::Run => bytes.len(),
            };
            show_records(rt, &bytes, end)?;
            show_refusal(rt, fault)?;
        }
        Err(Refusal::Memory) => return Err(Failure::Memory),
    }
    Ok(())
}

fn main(rt: HostRuntime) -> ExitCode {
    match run(&rt) {
        Ok(()) => ExitCode::SUCCESS,
        Err(failure) => {
            // told in at most 120 bytes, as `anyhow` keeps a message
            let error = anyhow::Error::from(failure);
            let _ = eprintln!(rt; "inspect: {error}");
            ExitCode::FAILURE
        },
    }
}
