// The layout program: a strip from standard input, and what the search of it gives to standard output.
#![tactic(auto)]

fn main(rt: HostRuntime) {
    if stream::explained(
        &rt,
        b"layout: reads a strip from standard input and prints its first layout. It takes no arguments.\n",
    ) {
        return;
    }
    let mut strip = [0u8; report::INPUT];
    let Ok(length) = stream::read_input(&rt, &mut strip) else {
        return;
    };
    let mut out = [0u8; report::PRINTED];
    let printed = report::report(&strip[..length], &mut out);
    stream::write_output(&rt, &out[..printed]);
}
