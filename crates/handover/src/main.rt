// One handover from a camera's tables to a burn file, each action printed with its reply.
#![tactic(auto)]

mod camera;
mod story;

use service::Service;

// The whole list through one call, then a service of its own call by call.
fn main(rt: HostRuntime) -> anyhow::Result<()> {
    println!(rt; "a whole list of calls:")?;
    story::run_all(&rt)?;
    println!(rt; "call by call:")?;
    let heap = rt.alloc();
    let camera = story::expected(camera::both(heap))?;
    let mut service = story::expected(Service::open(heap, camera, story::LIMIT, &story::PRICES))?;
    story::lost_acknowledgement(&rt, &mut service)?;
    story::take_and_draw(&rt, &mut service)?;
    story::burn(&rt, &service)
}
