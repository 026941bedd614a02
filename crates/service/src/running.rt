// A whole list of calls on a fresh service.
ghost use Rattle.std.specs.Prelude.{◌≡◌, IfOk};
ghost use Rattle.rules.specs.declared.call.Call.TheVariants.{Draw};
ghost use Rattle.rules.specs.Promise.{Promised};
ghost use Rattle.rules.specs.Rules.{reply, logs};
ghost use Rattle.service.specs.Opening.{terms};
ghost use Rattle.service.specs.Holds.{terms_of, lines_of};
ghost use Rattle.service.specs.Runs.{told, Ran};

use crate::service::Service;
use design::Design;
use diagram::Node;
use refusal::Refusal;
use rules::{Call, Reply};
use std::alloc::{AllocError, Global};

// A draw's reply, with its nodes. No drawing has more than 136, so more room than that is never used.
fn drawn_reply<D: Design + Drop>(
    heap: Global,
    service: &Service<D>,
    output: u32,
    room: u32,
) -> Result<Reply, AllocError>
    ensures { IfOk result (λ r. told r ≡ reply (terms_of service.now) (lines_of service.now) (Draw output room)) }
{
    let mut nodes = vec![in heap; Node::default(); room.min(136) as usize]?;
    match service.draw(output, &mut nodes) {
        Ok(drawn) => {
            nodes.truncate(drawn.count);
            Ok(Reply::Drawn {
                root: drawn.root,
                nodes,
            })
        }
        Err(refusal) => Ok(Reply::Refused(refusal)),
    }
}

// The reply to one call. A match and no closures: calls are listed and printed, as closures could not be.
fn reply_to<D: Design + Drop>(
    heap: Global,
    service: &mut Service<D>,
    call: Call,
) -> Result<Reply, AllocError>
    ensures answer { IfOk result (λ r. told r ≡ reply (terms_of service.old) (lines_of service.old) call) }
    ensures lines { IfOk result (λ _. lines_of service.new ≡ logs (terms_of service.old) (lines_of service.old) call) }
    ensures terms { terms_of service.new ≡ terms_of service.old }
{
    match call {
        Call::Take { number, output } => Ok(Reply::Answered(service.take(number, output))),
        Call::Back { number, output } => Ok(Reply::Answered(service.back(number, output))),
        Call::Ask => Ok(Reply::Asked(service.ask())),
        Call::Show { output } => Ok(
            service
                .show(output)
                .map_or_else(Reply::Refused, Reply::Shown),
        ),
        Call::Read { output, row } => Ok(
            service
                .read(output, row)
                .map_or_else(Reply::Refused, Reply::Marked),
        ),
        Call::Draw { output, room } => drawn_reply(heap, service, output, room),
    }
}

// Opens a service and makes all the calls on it, in their order.
pub fn run<D: Design + Drop>(
    heap: Global,
    design: D,
    limit: u32,
    prices: &[u32],
    calls: &[Call],
) -> Result<Vec<Reply>, Refusal>
    ensures answer { Ran (terms (D.Design.meaning design) limit prices.now) calls.now result }
    ensures promised { Promised (terms (D.Design.meaning design) limit prices.now) }
{
    let mut service = Service::open(heap, design, limit, prices)?;
    let mut replies = Vec::new(heap);
    // A `for` with `?`: the plain form where each item may fail and changes the service.
    for call in calls {
        replies.push(reply_to(heap, &mut service, *call)?)?;
    }
    Ok(replies)
}
