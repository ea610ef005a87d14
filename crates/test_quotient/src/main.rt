//! Quotients of stored traces, and both sides of the identity at a point, beside the numbers of
//! another implementation. The input has the traces, with challenges and points; for each, lines
//! name what `circle_quotient` computes as `examples/starks/worked.json` does, and say with which
//! other chunks, columns and rows the identity holds.
//!
//! Over the field of 127 elements the input has columns and chunks for which the identity holds at
//! as many points as `laws::identity_binds` allows.
#![tactic(auto)]

mod bound;
mod mersenne7;
mod opened;
mod periods;
mod report;
mod statement;
mod traces;

use anyhow::Result;
use serde_json::Value;
use std::io::Read;
use traces::{Trace, items};

fn main(rt: HostRuntime) -> Result<()> {
    let input = input(&rt)?;
    report_traces(&rt, items(&input, "traces")?)?;
    report_over_127(&rt, items(&input, "over_127")?)
}

// The value that is read.
fn input(rt: &HostRuntime) -> Result<Value> {
    let mut text = Vec::new(rt.alloc());
    rt.stdin().read_to_end(&mut text)?;
    Ok(Value::from_slice(rt.alloc(), &text)?)
}

// Prints the lines of each trace.
fn report_traces(rt: &HostRuntime, objects: &[Value]) -> Result<()> {
    for object in objects {
        report::report(rt, &mut Trace::read(rt.alloc(), object)?)?;
    }
    Ok(())
}

// Prints the lines of columns and chunks over the field of 127 elements.
fn report_over_127(rt: &HostRuntime, objects: &[Value]) -> Result<()> {
    for object in objects {
        bound::report(rt, object)?;
    }
    Ok(())
}
