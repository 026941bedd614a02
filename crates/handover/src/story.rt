// One handover, call by call.
ghost use Rattle.std.specs.Prelude.{◌≡◌, Ok, Some, MatchResult, IsErr, codes};
ghost use Rattle.anyhow.specs.Error.{HasMessage};

use crate::camera::{Camera, both};
use anyhow::Context;
use diagram::Node;
use drawing::Drawn;
use refusal::Refusal;
use report::report_of;
use rules::Call;
use service::{Service, run};
use std::io;

// What the service is opened with.
pub(crate) const LIMIT: u32 = 200;

// A price for each output.
pub(crate) const PRICES: [u32; 2] = [2, 1];

// The calls of the whole list.
const CALLS: [Call; 14] = [
    Call::Show { output: 0 },
    Call::Show { output: 1 },
    Call::Read {
        output: 0,
        row: 146,
    },
    Call::Take {
        number: 1,
        output: 0,
    },
    Call::Read {
        output: 0,
        row: 146,
    },
    Call::Take {
        number: 2,
        output: 1,
    },
    Call::Back {
        number: 3,
        output: 0,
    },
    Call::Take {
        number: 1,
        output: 0,
    },
    Call::Ask,
    Call::Draw {
        output: 0,
        room: 136,
    },
    Call::Take {
        number: 4,
        output: 1,
    },
    Call::Draw {
        output: 1,
        room: 28,
    },
    Call::Draw {
        output: 1,
        room: 29,
    },
    Call::Ask,
];

// A refusal where none is expected ends the program, in these words.
pub(crate) fn expected<T>(made: Result<T, Refusal>) -> anyhow::Result<T>
    ensures { MatchResult result (λ x. made ≡ Ok x) (λ why. IsErr made × HasMessage (Some (codes "refused")) why) }
{
    made.ok().context("refused")
}

// The whole list through one call.
pub(crate) fn run_all(rt: &HostRuntime) -> anyhow::Result<()> {
    let heap = rt.alloc();
    let replies = expected(run(heap, expected(both(heap))?, LIMIT, &PRICES, &CALLS))?;
    for (call, reply) in CALLS.iter().zip(&replies) {
        println!(rt; "{call}: {reply}")?;
    }
    Ok(())
}

// The lost acknowledgement: the burner repeats its take after the fitter has put the output back.
pub(crate) fn lost_acknowledgement(
    rt: &HostRuntime,
    service: &mut Service<Camera>,
) -> io::Result<()> {
    println!(rt;
        "the burner takes output 0 under number 1: {}",
        service.take(1, 0)
    )?;
    println!(rt;
        "the fitter puts it back under number 2: {}",
        service.back(2, 0)
    )?;
    println!(rt;
        "the burner, not having heard, sends number 1 again: {}",
        service.take(1, 0)
    )?;
    println!(rt; "it was answered and not obeyed: {}", service.ask())
}

// How large a drawing is, or why there is none.
fn say_drawn(rt: &HostRuntime, room: usize, drawn: Result<Drawn, Refusal>) -> io::Result<()> {
    match drawn {
        Ok(drawn) => println!(rt; "drawn into {room} nodes: {drawn}"),
        Err(refusal) => println!(rt; "drawn into {room} nodes: refused {refusal}"),
    }
}

// Output 1 is taken and drawn, in a buffer that is too short and in one that is not.
pub(crate) fn take_and_draw(rt: &HostRuntime, service: &mut Service<Camera>) -> io::Result<()> {
    println!(rt; "output 1 is taken under number 3: {}", service.take(3, 1))?;
    say_drawn(rt, 28, service.draw(1, &mut [Node::default(); 28]))?;
    say_drawn(rt, 40, service.draw(1, &mut [Node::default(); 40]))
}

// The sheet is written, loaded back and listed.
pub(crate) fn burn(rt: &HostRuntime, service: &Service<Camera>) -> anyhow::Result<()> {
    let mut file = [0u8; 4608];
    let length = expected(expected(service.sheet(rt.alloc()))?.write(&mut file))?;
    println!(rt; "the burn file has {length} bytes; loaded back it lists as")?;
    let written = file
        .get(..length)
        .context("the file ends before its length")?;
    rt.print(report_of(rt.alloc(), written)?)?;
    Ok(())
}
