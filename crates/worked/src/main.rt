// The worked figures that are not theorems, each as a request with the output that it has to have. Writes a line for each;
// ends with status 1 if one differs.
#![tactic(auto)]

mod cases;
mod requests;

use anyhow::ensure;
use cases::{EDITS, EXAMPLE, Edit, LARGEST, PAIR, PAIR_EDITS, TWO_PART_EDITS, TWO_PARTS, WHOLE};
use reply::answer::Unanswered;
use reply::replying::reply_to;
use requests::{edited, lines_of};
use std::alloc::{AllocError, Global};

// What the console writes for a request.
fn output_of(heap: Global, request: &[u8]) -> Result<Vec<u8>, AllocError> {
    reply_to(heap, request).or_else(|unanswered| match unanswered {
        Unanswered::Refused(refusal) => Ok(format!(in heap; "{refusal}\n")?.into_bytes()),
        Unanswered::NoMemory => Err(AllocError),
    })
}

// Tells whether the output for a request is as stated, and answers the same. `as_stated` compares it with the lines stated.
fn tell<F: Fn(&[u8], &[u8]) -> bool>(
    rt: &HostRuntime,
    name: &str,
    request: &[u8],
    lines: &[&str],
    as_stated: F,
) -> anyhow::Result<bool>
    requires { F.IsAlwaysCallable as_stated }
{
    let expected = lines_of(rt.alloc(), lines)?;
    let output = output_of(rt.alloc(), request)?;
    let same = as_stated(output.as_slice(), expected.as_slice());
    if same {
        println!(rt; "as stated: {name}")?;
    } else {
        println!(rt; "differs: {name}")?;
    }
    Ok(same)
}

// Tells the same of every edit of a request.
fn tell_edits(rt: &HostRuntime, lines: &[&str], edits: &[Edit]) -> anyhow::Result<bool> {
    let mut all = true;
    for edit in edits {
        let request = edited(rt.alloc(), lines, edit.line, edit.text)?;
        all &= tell(
            rt,
            edit.name,
            request.as_slice(),
            &[edit.output],
            |output, expected| output == expected,
        )?;
    }
    Ok(all)
}

fn run(rt: &HostRuntime) -> anyhow::Result<()> {
    let largest = &LARGEST;
    let request = lines_of(rt.alloc(), largest.request)?;
    let mut all = tell(
        rt,
        largest.name,
        request.as_slice(),
        largest.output,
        |output, beginning| output.starts_with(beginning),
    )?;
    for whole in &WHOLE {
        let request = lines_of(rt.alloc(), whole.request)?;
        all &= tell(
            rt,
            whole.name,
            request.as_slice(),
            whole.output,
            |output, expected| output == expected,
        )?;
    }
    all &= tell_edits(rt, &EXAMPLE, &EDITS)?;
    all &= tell_edits(rt, &TWO_PARTS, &TWO_PART_EDITS)?;
    all &= tell_edits(rt, &PAIR, &PAIR_EDITS)?;
    ensure!(all, "a figure differs from what is stated");
    Ok(())
}

fn main(rt: HostRuntime) -> anyhow::Result<()> {
    run(&rt)
}
