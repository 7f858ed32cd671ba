// The sheet program: lines of the standard input told to one study, with the pressuremeter rule and the law of Frank and Zhao. The answer to a line is written before the next line is read.
#![tactic(auto)]

use friction::pressuremeter::Pressuremeter;
use std::io::{BufRead, BufReader, Write};
use study::holder::Study;
use transfer::frank_zhao::FrankZhao;
use worksheet::work_sheet;

fn run(rt: &HostRuntime) -> anyhow::Result<()> {
    let heap = rt.alloc();
    let mut study = Study::new(heap, Pressuremeter, FrankZhao)?;
    let mut input = BufReader::new(heap, rt.stdin())?;
    let mut output = rt.stdout();
    let mut line = Vec::new(heap);
    let mut answer = Vec::new(heap);
    // Nothing says that an input ends, so the turns are counted.
    for _ in 0..u64::MAX {
        line.clear();
        if input.read_until(b'\n', &mut line)? == 0 {
            break;
        }
        answer.clear();
        work_sheet(&mut study, line.as_slice(), &mut answer)?;
        output.write_all(answer.as_slice())?;
    }
    Ok(())
}

fn main(rt: HostRuntime) -> anyhow::Result<()> {
    run(&rt)
}
