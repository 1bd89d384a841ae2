// bench: a sheet in, one line out.
#![tactic(auto)]

mod input;
mod print;
mod trial;

// An input that cannot be read is bad, as one that is too long is. A line that cannot be written is
// let go: nobody is there to be told.
fn main(rt: HostRuntime) {
    let mut room = [0u8; input::ROOM + input::BLOCK];
    let line = match input::read_all(&mut rt.stdin(), &mut room) {
        Ok(text) => trial::answer(text),
        Err(_) => None,
    };
    let _ = print::show(&rt, line);
}
