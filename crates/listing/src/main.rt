// Prints what a burn file on standard input holds, or why it is refused.
#![tactic(auto)]

mod input;

use report::report_of;

fn main(rt: HostRuntime) -> anyhow::Result<()> {
    let file = input::read_file(&rt)?;
    let text = report_of(rt.alloc(), file.as_slice())?;
    rt.print(text.as_str())?;
    Ok(())
}
